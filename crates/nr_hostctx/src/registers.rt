//! The bindings of registers.

ghost use Rattle.nr_hostctx.specs.Acts.{Does};
ghost use Rattle.nr_hostctx.specs.Registers as row;
ghost use Rattle.nr_hostctx.specs.State.{Keeps};

use crate::arguments::copy;
use crate::context::HostContext;
use crate::stops::BAD_REGISTER;
use nr_bytes::Blob;
use nr_triedef::Store;
use nr_wasmmem::HostStop;

impl<'a, S: Store> HostContext<'a, S> {
    fn register_at(&self, id: u64) -> Result<Blob, HostStop>
        ensures { Does result self.now self.now (row.register_at id) }
    {
        match self.registers.get(id) {
            Some(bytes) => copy(self.alloc, bytes),
            None => Err(BAD_REGISTER),
        }
    }

    #[tactic(auto, unfolding(crate::specs::Registers::read_register))]
    pub(crate) fn read_register(&mut self, reg: u64, ptr: u64) -> Result<(), HostStop>
        ensures does { Does result self.old self.new (row.read_register reg ptr) }
        ensures keeps { Keeps self.old self.new }
    {
        self.begin()?;
        let bytes = self.register_at(reg)?;
        self.to_guest(ptr, bytes.inner())?;
        Ok(())
    }

    #[tactic(auto, unfolding(crate::specs::Registers::register_len))]
    pub(crate) fn register_len(&mut self, reg: u64) -> Result<u64, HostStop>
        ensures does { Does result self.old self.new (row.register_len reg) }
        ensures keeps { Keeps self.old self.new }
    {
        self.begin()?;
        Ok(self.registers.length(reg))
    }

    #[tactic(auto, unfolding(crate::specs::Registers::write_register))]
    pub(crate) fn write_register(&mut self, reg: u64, len: u64, ptr: u64) -> Result<(), HostStop>
        ensures does { Does result self.old self.new (row.write_register reg len ptr) }
        ensures keeps { Keeps self.old self.new }
    {
        self.begin()?;
        let bytes = self.bytes_of(len, ptr)?;
        self.to_register(reg, bytes.inner())?;
        Ok(())
    }
}
