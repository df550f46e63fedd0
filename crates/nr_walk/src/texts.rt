//! Texts by their hashes.

ghost use Rattle.std.specs.Prelude.{◌≡◌, IfOk, OnOk};
ghost use Rattle.std.specs.Option.{option_copied};
ghost use Rattle.std.specs.FinMap as map;
ghost use Rattle.nr_walk.specs.Texts.{texts_of, with_text};

use crate::room::{bytes_in, room_over};
use nr_bytes::{Blob, List};
use nr_ids::Hash32;
use nr_store::PlainStore;
use nr_triedef::{Store, value_hash};
use std::alloc::{AllocError, Global};
use std::marker::Model;

/// Texts, each held under its SHA-256. Of two texts with one hash the first is held. They come with
/// the room of a walk over them.
///
/// Contracts see the finite map from hashes to texts.
#[derive(Drop)]
pub struct Texts {
    store: PlainStore,
    room: u64,
}

impl Model for Texts {
    ghost use Rattle.nr_triedef.specs.Root.{Contents};
    ghost use Rattle.nr_store.specs.Contents.{contents_code};

    ghost Value = { Contents };

    ghost coded = { contents_code };

    ghost view = { λ t. t.store.contents };
}

// Holds a text too, unless one with its hash is held.
fn hold(store: &mut PlainStore, text: &[u8]) -> Result<(), AllocError>
    ensures { OnOk result (store.new.contents ≡ with_text store.old.contents text.now) }
{
    let hash = value_hash(text);
    if store.get(&hash.0).is_some() {
        return Ok(());
    }
    store.set(&hash.0, text)
}

impl Texts {
    /// Holds these texts.
    ///
    /// # Errors
    ///
    /// Where memory ran out.
    #[tactic(auto, unfolding(crate::specs::Texts::texts_of))]
    pub fn new(alloc: Global, list: &List<Blob>) -> Result<Texts, AllocError>
        ensures { IfOk result (λ texts. texts ≡ texts_of list.now) }
    {
        let mut store = PlainStore::new(alloc);
        for text in list.inner() {
            hold(&mut store, text.inner())?;
        }
        let room = room_over(bytes_in(list));
        Ok(Texts { store, room })
    }

    /// These texts with another room.
    pub fn with_room(mut self, room: u64) -> Texts
        ensures { result ≡ self }
    {
        self.room = room;
        self
    }

    /// How many bytes a walk over these texts may take, as `room_behind` and `room_behind_children`
    /// count them.
    pub fn room(&self) -> u64 {
        self.room
    }

    /// The text that is held under a hash; `None` exactly where there is none.
    pub fn get(&self, hash: &Hash32) -> Option<&[u8]>
        ensures { option_copied result ≡ map.get self.now hash.now.0 }
    {
        self.store.get(&hash.0)
    }
}
