//! Account ids: their grammar and their kinds.

ghost use Rattle.std.specs.Prelude.{◌≡◌, IfOk, IsTrue, ◌↔◌, ◌<◌, ◌≤◌, length, not};
ghost use Rattle.std.specs.List.{position, list_all};
ghost use Rattle.nr_ids.specs.Grammar.{Judges, id_fault, is_id_byte, is_separator, is_dot, is_bad_separator};
ghost use Rattle.nr_ids.specs.Grammar.{first_bad_separator, is_hex_digit, is_top, is_system, system, is_implicit};
ghost use Rattle.nr_ids.specs.Grammar.{is_sub_of, IsSubOf};

use crate::compact_bytes::CompactBytes;
use crate::fault::IdFault;
use std::alloc::{AllocError, Global};
use std::marker::Model;

/// The name of an account, which contracts see as its bytes.
///
/// It has 2 to 64 bytes: lowercase letters, digits and the separators `-`, `_` and `.`. No
/// separator is first, last or next to another. An id of at most 30 bytes takes no memory of its own.
#[derive(Debug, Drop)]
pub struct AccountId {
    bytes: CompactBytes,
}

impl Model for AccountId {
    ghost use Rattle.std.specs.Prelude.{List, ℕ, ◌≡◌, None};
    ghost use Rattle.nr_ids.specs.Grammar.{id_fault};

    ghost Value = { List ℕ };

    ghost view = { λ a. a.bytes };

    ghost invariant = { λ a. id_fault a.bytes ≡ None };
}

fn is_separator_byte(byte: u8) -> bool
    ensures { result ≡ is_separator byte }
{
    byte == b'-' || byte == b'_' || byte == b'.'
}

fn is_valid(byte: u8) -> bool
    ensures { result ≡ is_id_byte byte }
{
    byte.is_ascii_lowercase() || byte.is_ascii_digit() || is_separator_byte(byte)
}

fn bad_byte(bytes: &[u8]) -> Option<usize>
    ensures { result ≡ position (λ b. not (is_id_byte b)) bytes.now }
{
    bytes.iter().position(|b| !is_valid(*b))
}

fn is_bad_at(bytes: &[u8], at: usize) -> bool
    requires { at < length bytes.now }
    ensures { result ≡ is_bad_separator bytes.now at }
{
    is_separator_byte(bytes[at])
        && (at == 0 || at == bytes.len() - 1 || is_separator_byte(bytes[at - 1]))
}

#[tactic(auto, using(crate::proofs::Places::none_yet, crate::proofs::Places::still_none, crate::proofs::Places::found_first))]
fn bad_separator(bytes: &[u8]) -> Option<usize>
    ensures { result ≡ first_bad_separator bytes.now }
{
    for at in 0..bytes.len() {
        if is_bad_at(bytes, at) {
            return Some(at);
        }
    }
    None
}

#[tactic(auto, unfolding(crate::specs::Grammar::id_fault))]
fn fault_of(bytes: &[u8]) -> Option<IdFault>
    ensures { result ≡ id_fault bytes.now }
{
    if bytes.len() < 2 || bytes.len() > 64 {
        return Some(IdFault::Length);
    }
    match bad_byte(bytes) {
        Some(at) => Some(IdFault::Character { at }),
        None => match bad_separator(bytes) {
            Some(at) => Some(IdFault::Separator { at }),
            None => None,
        },
    }
}

fn first_dot(bytes: &[u8]) -> Option<usize>
    ensures { result ≡ position is_dot bytes.now }
{
    bytes.iter().position(|b| *b == b'.')
}

#[tactic(auto, using(crate::proofs::SubIds::from_dot, crate::proofs::SubIds::no_dot))]
fn is_sub(bytes: &[u8], parent: &[u8]) -> bool
    ensures { result ≡ is_sub_of bytes.now parent.now }
{
    match first_dot(bytes) {
        Some(dot) => &bytes[dot + 1..] == parent,
        None => false,
    }
}

fn is_hex(byte: u8) -> bool
    ensures { result ≡ is_hex_digit byte }
{
    byte.is_ascii_digit() || (byte.is_ascii_lowercase() && byte <= b'f')
}

fn all_hex(bytes: &[u8]) -> bool
    ensures { result ≡ list_all is_hex_digit bytes.now }
{
    bytes.iter().all(|b| is_hex(*b))
}

impl AccountId {
    /// The id that these bytes are.
    ///
    /// # Errors
    ///
    /// `Length` where there are fewer than 2 bytes or more than 64. Else `Character` with the place
    /// of the first byte that is no lowercase letter, digit or separator. Else `Separator` with the
    /// place of the first separator that is first, last or right behind another. `Memory` where the
    /// bytes are an id and there is no memory to keep them.
    #[tactic(auto, using(crate::proofs::Ids::never_memory))]
    pub fn parse(alloc: Global, bytes: &[u8]) -> Result<AccountId, IdFault>
        ensures judged { Judges result bytes.now }
        ensures memory { result ≡ Err IdFault.Memory → id_fault bytes.now ≡ None }
    {
        match fault_of(bytes) {
            Some(fault) => Err(fault),
            None => match CompactBytes::of(alloc, bytes) {
                Ok(bytes) => Ok(AccountId { bytes }),
                Err(_) => Err(IdFault::Memory),
            },
        }
    }

    /// The id `system`, the sender of receipts that no account sends.
    ///
    /// # Errors
    ///
    /// Where there is no memory for it.
    #[tactic(auto, using(crate::proofs::System::system_is_id))]
    pub fn system(alloc: Global) -> Result<AccountId, AllocError>
        ensures { IfOk result (λ id. id ≡ system) }
    {
        let bytes = CompactBytes::of(alloc, b"system")?;
        Ok(AccountId { bytes })
    }

    /// Another id of the same bytes.
    ///
    /// # Errors
    ///
    /// Where there is no memory for it.
    pub fn duplicate(&self, alloc: Global) -> Result<AccountId, AllocError>
        ensures { IfOk result (λ id. id ≡ self.now) }
    {
        let bytes = self.bytes.duplicate(alloc)?;
        Ok(AccountId { bytes })
    }

    /// The bytes of the id: 2 to 64 of them, each an ASCII byte.
    #[tactic(auto, using(crate::proofs::Ids::short_id))]
    pub fn bytes(&self) -> &[u8]
        ensures bytes { result.now ≡ self.now }
        ensures valid { id_fault self.now ≡ None }
        ensures short { length self.now ≤ 64 }
    {
        self.bytes.as_slice()
    }

    /// Whether this id is a name, then a dot, then `parent`, where the name has no dot.
    #[tactic(auto, using(crate::proofs::SubIds::tells_sub))]
    pub fn is_sub_of(&self, parent: &AccountId) -> bool
        ensures value { result ≡ is_sub_of self.now parent.now }
        ensures splits { IsTrue result ↔ IsSubOf self.now parent.now }
    {
        is_sub(self.bytes(), parent.bytes())
    }

    /// Whether the id is 64 digits of `0-9` and `a-f`.
    #[tactic(auto, unfolding(crate::specs::Grammar::is_implicit))]
    pub fn is_implicit(&self) -> bool
        ensures { result ≡ is_implicit self.now }
    {
        let bytes = self.bytes();
        bytes.len() == 64 && all_hex(bytes)
    }

    /// Whether the id has no dot.
    #[tactic(auto, unfolding(crate::specs::Grammar::is_top))]
    pub fn is_top(&self) -> bool
        ensures { result ≡ is_top self.now }
    {
        !self.bytes().contains(&b'.')
    }

    /// Whether the id is `system`, the sender of receipts that no account sends.
    #[tactic(auto, unfolding(crate::specs::Grammar::is_system))]
    pub fn is_system(&self) -> bool
        ensures { result ≡ is_system self.now }
    {
        self.bytes() == b"system".as_slice()
    }
}
