//! Both stores over the same calls.

ghost use Rattle.std.specs.Prelude.{◌≡◌, ◌≤◌, length};

use crate::drawn_calls::{Call, Dice};
use crate::roots::root;
use nr_store::PlainStore;
use nr_triedef::Store;
use nr_trieupdate::TrieStore;
use std::alloc::{AllocError, Global};
use std::test::Fail;

/// Both stores, with as many checkpoints each.
#[derive(Drop)]
pub(crate) struct Pair {
    plain: PlainStore,
    trie: TrieStore,
    standing: usize,
    ghost in_plain: { length plain.marks ≡ standing },
    ghost in_trie: { length trie.marks ≡ standing },
    ghost few: { standing ≤ 8 },
}

/// Whether both answer alike what they hold at a key.
fn get<A: Store, B: Store>(one: &A, other: &B, key: &[u8]) -> bool {
    one.get(key) == other.get(key)
}

/// Whether both answer alike which keys begin with a prefix.
fn below<A: Store, B: Store>(one: &A, other: &B, prefix: &[u8]) -> Result<bool, AllocError> {
    let keys = one.below(prefix)?;
    let others = other.below(prefix)?;
    Ok(keys == others)
}

/// Sets a value of one to three bytes in both.
fn set<A: Store, B: Store>(
    one: &mut A,
    other: &mut B,
    key: &[u8],
    value: u8,
) -> Result<bool, AllocError>
    ensures one { A.marks one.new ≡ A.marks one.old }
    ensures other { B.marks other.new ≡ B.marks other.old }
{
    let bytes = [value; 3];
    let value = &bytes[..usize::from(value % 3) + 1];
    one.set(key, value)?;
    other.set(key, value)?;
    Ok(get(one, other, key))
}

/// Takes a key out of both, and tells whether they answer alike.
fn remove<A: Store, B: Store>(one: &mut A, other: &mut B, key: &[u8]) -> Result<bool, AllocError>
    ensures one { A.marks one.new ≡ A.marks one.old }
    ensures other { B.marks other.new ≡ B.marks other.old }
{
    let found = one.remove(key)?;
    let there = other.remove(key)?;
    Ok(found == there)
}

/// Whether both have the same root.
pub(crate) fn same_root<A: Store, B: Store>(one: &mut A, other: &mut B) -> Result<bool, AllocError>
    ensures one { A.marks one.new ≡ A.marks one.old }
    ensures other { B.marks other.new ≡ B.marks other.old }
{
    let first = root(one)?;
    let second = root(other)?;
    Ok(first == second)
}

impl Pair {
    pub(crate) fn new(alloc: Global) -> Pair {
        Pair {
            plain: PlainStore::new(alloc),
            trie: TrieStore::new(alloc),
            standing: 0,
        }
    }

    /// Makes a checkpoint in both, where fewer than eight stand.
    fn mark(&mut self) -> Result<(), AllocError> {
        if self.standing < 8 {
            self.plain.reserve_marks(1)?;
            self.trie.reserve_marks(1)?;
            self.plain.mark();
            self.trie.mark();
            self.standing += 1;
        }
        Ok(())
    }

    /// Drops the newest checkpoint of both, where one stands.
    fn keep(&mut self) {
        if self.standing > 0 {
            self.plain.keep();
            self.trie.keep();
            self.standing -= 1;
        }
    }

    /// Goes back to the newest checkpoint of both, where one stands.
    fn back(&mut self) {
        if self.standing > 0 {
            self.plain.back();
            self.trie.back();
            self.standing -= 1;
        }
    }

    /// Whether both answer alike to a call.
    fn answers_alike(&mut self, call: &Call) -> Result<bool, AllocError> {
        let mut alike = true;
        match call {
            Call::Set(key, value) => {
                alike = set(&mut self.plain, &mut self.trie, key.as_slice(), *value)?
            }
            Call::Remove(key) => alike = remove(&mut self.plain, &mut self.trie, key.as_slice())?,
            Call::Get(key) => alike = get(&self.plain, &self.trie, key.as_slice()),
            Call::Below(key) => alike = below(&self.plain, &self.trie, key.as_slice())?,
            Call::Mark => self.mark()?,
            Call::Keep => self.keep(),
            Call::Back => self.back(),
            Call::Root => alike = same_root(&mut self.plain, &mut self.trie)?,
        }
        Ok(alike)
    }
}

/// How many of the calls drawn from a seed both answer alike, up to the first that they don't.
fn alike(pair: &mut Pair, seed: u64, calls: u32) -> Result<u32, AllocError> {
    let mut dice = Dice::new(seed);
    for done in 0..calls {
        let call = Call::drawn(&mut dice);
        if !pair.answers_alike(&call)? {
            return Ok(done);
        }
    }
    Ok(calls)
}

#[test]
fn both_stores_answer_alike(rt: HostRuntime) -> Result<(), Fail> {
    for seed in 0..3 {
        let mut pair = Pair::new(rt.alloc());
        assert_eq!(rt; alike(&mut pair, seed, 1_000)?, 1_000);
    }
    Ok(())
}
