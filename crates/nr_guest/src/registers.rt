//! The registers of a call.

ghost use Rattle.std.specs.Prelude.{◌≡◌};
ghost use Rattle.std.specs.Option.{option_copied};
ghost use Rattle.nr_guest.specs.Guest.{no_registers, limits_of, register, register_length, set_register, Sets, size_at};
ghost use Rattle.nr_guest.specs.Guest.{has_place, held_with, all_bytes, HasRoom};

use crate::fault::GuestFault;
use nr_bytes::Blob;
use nr_config::Config;
use nr_config::entries::{MAX_ALL_REGISTER_BYTES, MAX_REGISTER_BYTES, MAX_REGISTERS};
use std::alloc::Global;
use std::collections::BTreeMap;
use std::marker::Model;

/// The limits of registers.
#[derive(Clone, Copy, Debug, PartialEq, Eq)]
pub(crate) struct Limits {
    /// How many registers there may be.
    pub(crate) registers: u64,
    /// How many bytes a register may have.
    pub(crate) register_bytes: u64,
    /// How many bytes all registers may have together.
    pub(crate) all_bytes: u64,
}

/// The registers of a call: bytes by number. They keep the limits of their configuration: how many there
/// are, how many bytes one has, and how many bytes all have together.
#[derive(Drop)]
pub struct Registers {
    alloc: Global,
    held: BTreeMap<u64, Blob>,
    limits: Limits,
    // How many bytes all have together.
    total: u64,
}

impl Model for Registers {
    ghost use Rattle.std.specs.Prelude.{◌≡◌};
    ghost use Rattle.nr_guest.specs.Guest.{RegisterView, all_bytes};

    ghost Value = { RegisterView };

    ghost view = { λ r. record { held = r.held.entries; limits = r.limits } };

    ghost invariant = { λ r. r.total ≡ all_bytes r.held.entries };
}

fn limits_of(config: &Config) -> Limits
    ensures { result ≡ limits_of config.now }
{
    Limits {
        registers: config.entry(MAX_REGISTERS),
        register_bytes: config.entry(MAX_REGISTER_BYTES),
        all_bytes: config.entry(MAX_ALL_REGISTER_BYTES),
    }
}

impl Registers {
    /// No registers, under the limits of a configuration. It takes no memory.
    pub fn new(alloc: Global, config: &Config) -> Registers
        ensures { result ≡ no_registers config.now }
    {
        Registers {
            alloc,
            held: BTreeMap::new(alloc),
            limits: limits_of(config),
            total: 0,
        }
    }

    /// The bytes of a register; `None` where there is no such register.
    pub fn get(&self, id: u64) -> Option<&[u8]>
        ensures { option_copied result ≡ register self.now id }
    {
        match self.held.get(&id) {
            Some(bytes) => Some(bytes.inner()),
            None => None,
        }
    }

    /// How many bytes a register has; `u64::MAX` where there is no such register.
    pub fn length(&self, id: u64) -> u64
        ensures { result ≡ register_length self.now id }
    {
        match self.held.get(&id) {
            Some(bytes) => bytes.inner().len() as u64,
            None => u64::MAX,
        }
    }

    fn size_at(&self, id: u64) -> usize
        ensures { result ≡ size_at self.now id }
    {
        match self.held.get(&id) {
            Some(bytes) => bytes.inner().len(),
            None => 0,
        }
    }

    /// Whether there is such a register, or room for one more.
    fn has_place(&self, id: u64) -> bool
        ensures { result ≡ has_place self.now id }
    {
        self.held.contains_key(&id) || (self.held.len() as u64) < self.limits.registers
    }

    /// How many bytes all registers have together once these are in one.
    #[tactic(auto, using(crate::proofs::Sums::total_after))]
    fn total_with(&self, id: u64, bytes: &[u8]) -> u128
        ensures { result ≡ all_bytes (held_with self.now id bytes.now) }
    {
        let _count = self.held.len();
        u128::from(self.total) + bytes.len() as u128 - self.size_at(id) as u128
    }

    /// The same, where the limits allow it.
    fn room_for(&self, id: u64, bytes: &[u8]) -> Option<u64>
        ensures { HasRoom result self.now id bytes.now }
    {
        let total = self.total_with(id, bytes);
        if bytes.len() as u64 <= self.limits.register_bytes
            && self.has_place(id)
            && total <= u128::from(self.limits.all_bytes)
        {
            Some(total as u64)
        } else {
            None
        }
    }

    /// Puts bytes into a register, in place of those that it had.
    ///
    /// # Errors
    ///
    /// `RegisterLimit` exactly where the bytes are more than one register may have, or the register is new
    /// and as many stand as there may be, or all registers would have more bytes than they may have
    /// together; then nothing has changed. `Memory`.
    #[tactic(auto, unfolding(crate::specs::Guest::set_register))]
    pub fn set(&mut self, id: u64, bytes: &[u8]) -> Result<(), GuestFault>
        ensures { Sets result self.old self.new (set_register self.old id bytes.now) }
    {
        let Some(total) = self.room_for(id, bytes) else {
            return Err(GuestFault::RegisterLimit);
        };
        let copy = Vec::from_slice(self.alloc, bytes)?;
        match self.held.insert(id, Blob::of(copy)) {
            Ok(_) => {
                self.total = total;
                Ok(())
            }
            Err(_) => Err(GuestFault::Memory),
        }
    }
}
