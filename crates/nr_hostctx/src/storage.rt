//! The bindings of the storage.

ghost use Rattle.std.specs.Prelude.{◌≡◌, ◌+◌, ◌<◌, ◌^◌, length, OnOk};
ghost use Rattle.nr_hostctx.specs.Acts.{Does};
ghost use Rattle.nr_hostctx.specs.Storage as row;
ghost use Rattle.nr_hostctx.specs.State.{Keeps};

use crate::arguments::copy;
use crate::context::HostContext;
use crate::stops::{KEY_TOO_LONG, VALUE_TOO_LONG};
use nr_bytes::Blob;
use nr_config::entries::{MAX_KEY_BYTES, MAX_VALUE_BYTES, STORAGE_BASE, STORAGE_BYTE};
use nr_triedef::Store;
use nr_wasmmem::HostStop;

fn size_of(bytes: &Option<Blob>) -> u64
    ensures value { result ≡ row.size_of bytes.now }
    ensures small { result < 2 ^ 63 }
{
    match bytes {
        Some(bytes) => bytes.inner().len() as u64,
        None => 0,
    }
}

impl<'a, S: Store> HostContext<'a, S> {
    #[tactic(auto, using(crate::proofs::Limits::key_bytes))]
    fn short_key(&self, key: &[u8]) -> Result<(), HostStop>
        ensures does { Does result self.now self.now (row.short_key key.now) }
        ensures bound { OnOk result (length key.now < 2 ^ 32) }
    {
        if self.callee.config.entry(MAX_KEY_BYTES) < key.len() as u64 {
            Err(KEY_TOO_LONG)
        } else {
            Ok(())
        }
    }

    #[tactic(auto, using(crate::proofs::Limits::value_bytes))]
    fn short_value(&self, value: &[u8]) -> Result<(), HostStop>
        ensures does { Does result self.now self.now (row.short_value value.now) }
        ensures bound { OnOk result (length value.now < 2 ^ 32) }
    {
        if self.callee.config.entry(MAX_VALUE_BYTES) < value.len() as u64 {
            Err(VALUE_TOO_LONG)
        } else {
            Ok(())
        }
    }

    /// Burns what a look at the data costs, by the bytes of key, value and old value.
    fn pay_storage(&mut self, key: u64, value: u64, old: u64) -> Result<(), HostStop>
        requires few { key + value + old < 2 ^ 64 }
        ensures does { Does result self.old self.new (row.pay_storage (key + value + old)) }
        ensures keeps { Keeps self.old self.new }
    {
        let base = self.callee.config.entry(STORAGE_BASE);
        let each = self.callee.config.entry(STORAGE_BYTE);
        self.spend_for(base, each, key + value + old)
    }

    fn datum(&self, key: &[u8]) -> Result<Option<Blob>, HostStop>
        ensures { Does result self.now self.now (row.datum key.now) }
    {
        match self.callee.datum(key) {
            Ok(Some(bytes)) => match copy(self.alloc, bytes) {
                Ok(bytes) => Ok(Some(bytes)),
                Err(stop) => Err(stop),
            },
            Ok(None) => Ok(None),
            Err(_) => Err(HostStop::Memory),
        }
    }

    fn has_datum(&self, key: &[u8]) -> Result<bool, HostStop>
        ensures { Does result self.now self.now (row.has_datum key.now) }
    {
        match self.callee.datum(key) {
            Ok(found) => Ok(found.is_some()),
            Err(_) => Err(HostStop::Memory),
        }
    }

    #[tactic(auto, unfolding(crate::specs::Storage::set_datum))]
    fn set_datum(&mut self, key: &[u8], value: &[u8]) -> Result<(), HostStop>
        ensures does { Does result self.old self.new (row.set_datum key.now value.now) }
        ensures keeps { Keeps self.old self.new }
    {
        match self.callee.set_datum(key, value) {
            Ok(()) => Ok(()),
            Err(_) => Err(HostStop::Memory),
        }
    }

    #[tactic(auto, unfolding(crate::specs::Storage::remove_datum))]
    fn remove_datum(&mut self, key: &[u8]) -> Result<(), HostStop>
        ensures does { Does result self.old self.new (row.remove_datum key.now) }
        ensures keeps { Keeps self.old self.new }
    {
        match self.callee.remove_datum(key) {
            Ok(()) => Ok(()),
            Err(_) => Err(HostStop::Memory),
        }
    }

    /// 1 with the bytes in the register, or 0.
    fn found_in(&mut self, reg: u64, bytes: &Option<Blob>) -> Result<u64, HostStop>
        ensures does { Does result self.old self.new (row.found_in reg bytes.now) }
        ensures keeps { Keeps self.old self.new }
    {
        match bytes {
            Some(bytes) => {
                self.to_register(reg, bytes.inner())?;
                Ok(1)
            }
            None => Ok(0),
        }
    }

    #[tactic(auto, unfolding(crate::specs::Storage::storage_write))]
    pub(crate) fn storage_write(
        &mut self,
        klen: u64,
        kptr: u64,
        vlen: u64,
        vptr: u64,
        reg: u64,
    ) -> Result<u64, HostStop>
        ensures does { Does result self.old self.new (row.storage_write klen kptr vlen vptr reg) }
        ensures keeps { Keeps self.old self.new }
    {
        self.begin()?;
        let key = self.bytes_of(klen, kptr)?;
        let value = self.bytes_of(vlen, vptr)?;
        self.short_key(key.inner())?;
        self.short_value(value.inner())?;
        let old = self.datum(key.inner())?;
        self.pay_storage(
            key.inner().len() as u64,
            value.inner().len() as u64,
            size_of(&old),
        )?;
        self.set_datum(key.inner(), value.inner())?;
        let found = self.found_in(reg, &old)?;
        Ok(found)
    }

    #[tactic(auto, unfolding(crate::specs::Storage::storage_read))]
    pub(crate) fn storage_read(&mut self, klen: u64, kptr: u64, reg: u64) -> Result<u64, HostStop>
        ensures does { Does result self.old self.new (row.storage_read klen kptr reg) }
        ensures keeps { Keeps self.old self.new }
    {
        self.begin()?;
        let key = self.bytes_of(klen, kptr)?;
        self.short_key(key.inner())?;
        let value = self.datum(key.inner())?;
        self.pay_storage(key.inner().len() as u64, 0, size_of(&value))?;
        let found = self.found_in(reg, &value)?;
        Ok(found)
    }

    #[tactic(auto, unfolding(crate::specs::Storage::storage_remove))]
    pub(crate) fn storage_remove(&mut self, klen: u64, kptr: u64, reg: u64) -> Result<u64, HostStop>
        ensures does { Does result self.old self.new (row.storage_remove klen kptr reg) }
        ensures keeps { Keeps self.old self.new }
    {
        self.begin()?;
        let key = self.bytes_of(klen, kptr)?;
        self.short_key(key.inner())?;
        let old = self.datum(key.inner())?;
        self.pay_storage(key.inner().len() as u64, 0, size_of(&old))?;
        self.remove_datum(key.inner())?;
        let found = self.found_in(reg, &old)?;
        Ok(found)
    }

    #[tactic(auto, unfolding(crate::specs::Storage::storage_has_key))]
    pub(crate) fn storage_has_key(&mut self, klen: u64, kptr: u64) -> Result<u64, HostStop>
        ensures does { Does result self.old self.new (row.storage_has_key klen kptr) }
        ensures keeps { Keeps self.old self.new }
    {
        self.begin()?;
        let key = self.bytes_of(klen, kptr)?;
        self.short_key(key.inner())?;
        let found = self.has_datum(key.inner())?;
        self.pay_storage(key.inner().len() as u64, 0, 0)?;
        Ok(u64::from(found))
    }
}
