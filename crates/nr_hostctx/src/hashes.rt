//! The bindings of hashes.

ghost use Rattle.nr_hostctx.specs.Acts.{Does};
ghost use Rattle.nr_hostctx.specs.Hashes as row;
ghost use Rattle.nr_hostctx.specs.State.{Keeps};

use crate::context::HostContext;
use nr_config::entries::{SHA_BASE, SHA_BYTE};
use nr_triedef::Store;
use nr_wasmmem::HostStop;
use sha2::{Digest, Sha256};

impl<'a, S: Store> HostContext<'a, S> {
    #[tactic(auto, unfolding(crate::specs::Hashes::sha256))]
    pub(crate) fn sha256(&mut self, len: u64, ptr: u64, reg: u64) -> Result<(), HostStop>
        ensures does { Does result self.old self.new (row.sha256 len ptr reg) }
        ensures keeps { Keeps self.old self.new }
    {
        self.begin()?;
        let bytes = self.bytes_of(len, ptr)?;
        let base = self.callee.config.entry(SHA_BASE);
        let each = self.callee.config.entry(SHA_BYTE);
        self.spend_for(base, each, bytes.inner().len() as u64)?;
        let hash = Sha256::digest(bytes.inner());
        self.to_register(reg, &hash)?;
        Ok(())
    }
}
