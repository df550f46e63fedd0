//! The byte arguments of bindings, and the bytes that they write.

ghost use Rattle.std.specs.Prelude.{◌≡◌, length, IfOk};
ghost use Rattle.nr_bytes.specs.Numbers.{little, number};
ghost use Rattle.nr_hostctx.specs.Acts as act;
ghost use Rattle.nr_hostctx.specs.Acts.{Does, Copies};
ghost use Rattle.nr_hostctx.specs.State.{Keeps};

use crate::context::HostContext;
use crate::stops::{OUT_OF_BOUNDS, REGISTER_LIMIT, guest_stop};
use byteorder::{ByteOrder, LittleEndian};
use nr_bytes::Blob;
use nr_guest::{GuestFault, argument, argument_size};
use nr_triedef::Store;
use nr_wasmmem::HostStop;
use std::alloc::Global;

/// Bytes of its own, which stay while the host changes.
pub(crate) fn copy(alloc: Global, bytes: &[u8]) -> Result<Blob, HostStop>
    ensures { Copies result bytes.now }
{
    match Vec::from_slice(alloc, bytes) {
        Ok(bytes) => Ok(Blob::of(bytes)),
        Err(_) => Err(HostStop::Memory),
    }
}

/// An amount as the guest has it: 16 bytes, the lowest first.
#[tactic(auto, using(nr_bytes::proofs::Numbers::written_16))]
pub(crate) fn amount_bytes(amount: u128) -> [u8; 16]
    ensures { result ≡ little 16 amount }
{
    let mut field = [0; 16];
    LittleEndian::write_u128(&mut field, amount);
    field
}

/// The amount that 16 bytes are.
#[tactic(auto, using(nr_bytes::proofs::Numbers::number_16))]
pub(crate) fn amount_of(bytes: &[u8]) -> u128
    requires { length bytes.now ≡ 16 }
    ensures { result ≡ number bytes.now }
{
    LittleEndian::read_u128(bytes)
}

impl<'a, S: Store> HostContext<'a, S> {
    fn argument_size(&self, len: u64, ptr: u64) -> Result<u64, HostStop>
        ensures { Does result self.now self.now (act.argument_size_at len ptr) }
    {
        match argument_size(&self.registers, len, ptr) {
            Ok(size) => Ok(size),
            Err(fault) => Err(guest_stop(fault)),
        }
    }

    fn argument(&self, len: u64, ptr: u64) -> Result<Blob, HostStop>
        ensures { Does result self.now self.now (act.argument_at len ptr) }
    {
        match argument(&self.registers, &self.guest, len, ptr) {
            Ok(bytes) => copy(self.alloc, bytes),
            Err(fault) => Err(guest_stop(fault)),
        }
    }

    /// A byte argument: a register or a range of the guest's memory.
    #[tactic(auto, unfolding(crate::specs::Acts::bytes_of))]
    pub(crate) fn bytes_of(&mut self, len: u64, ptr: u64) -> Result<Blob, HostStop>
        ensures does { Does result self.old self.new (act.bytes_of len ptr) }
        ensures keeps { Keeps self.old self.new }
    {
        let size = self.argument_size(len, ptr)?;
        self.pay_bytes(size)?;
        let bytes = self.argument(len, ptr)?;
        Ok(bytes)
    }

    fn range_at(&self, len: u64, ptr: u64) -> Result<Blob, HostStop>
        ensures does { Does result self.now self.now (act.range_at len ptr) }
        ensures size { IfOk result (λ bytes. length bytes ≡ len) }
    {
        match self.guest.range(ptr, len) {
            Ok(bytes) => copy(self.alloc, bytes),
            Err(_) => Err(OUT_OF_BOUNDS),
        }
    }

    /// A range of the guest's memory.
    #[tactic(auto, unfolding(crate::specs::Acts::guest_bytes))]
    pub(crate) fn guest_bytes(&mut self, len: u64, ptr: u64) -> Result<Blob, HostStop>
        ensures does { Does result self.old self.new (act.guest_bytes len ptr) }
        ensures size { IfOk result (λ bytes. length bytes ≡ len) }
        ensures keeps { Keeps self.old self.new }
    {
        self.pay_bytes(len)?;
        let bytes = self.range_at(len, ptr)?;
        Ok(bytes)
    }

    fn put_register(&mut self, id: u64, bytes: &[u8]) -> Result<(), HostStop>
        ensures does { Does result self.old self.new (act.put_register id bytes.now) }
        ensures keeps { Keeps self.old self.new }
    {
        match self.registers.set(id, bytes) {
            Ok(()) => Ok(()),
            Err(GuestFault::Memory) => Err(HostStop::Memory),
            Err(_) => Err(REGISTER_LIMIT),
        }
    }

    /// Writes a register.
    #[tactic(auto, unfolding(crate::specs::Acts::to_register))]
    pub(crate) fn to_register(&mut self, id: u64, bytes: &[u8]) -> Result<(), HostStop>
        ensures does { Does result self.old self.new (act.to_register id bytes.now) }
        ensures keeps { Keeps self.old self.new }
    {
        self.pay_bytes(bytes.len() as u64)?;
        self.put_register(id, bytes)?;
        Ok(())
    }

    #[tactic(auto, using(crate::proofs::Guests::put_size))]
    fn put_guest(&mut self, ptr: u64, bytes: &[u8]) -> Result<(), HostStop>
        ensures does { Does result self.old self.new (act.put_guest ptr bytes.now) }
        ensures keeps { Keeps self.old self.new }
    {
        match self.guest.put(ptr, bytes) {
            Ok(()) => Ok(()),
            Err(_) => Err(OUT_OF_BOUNDS),
        }
    }

    /// Writes the guest's memory.
    #[tactic(auto, unfolding(crate::specs::Acts::to_guest))]
    pub(crate) fn to_guest(&mut self, ptr: u64, bytes: &[u8]) -> Result<(), HostStop>
        ensures does { Does result self.old self.new (act.to_guest ptr bytes.now) }
        ensures keeps { Keeps self.old self.new }
    {
        self.pay_bytes(bytes.len() as u64)?;
        self.put_guest(ptr, bytes)?;
        Ok(())
    }
}
