//! Texts of a guest.

ghost use Rattle.std.specs.Prelude.{◌≡◌};
ghost use Rattle.std.specs.Option.{option_copied};
ghost use Rattle.std.specs.Str.{is_utf8};
ghost use Rattle.nr_hostctx.specs.Acts.{Does};
ghost use Rattle.nr_hostctx.specs.Logs as row;
ghost use Rattle.nr_hostctx.specs.State.{Keeps};

use crate::arguments::copy;
use crate::context::HostContext;
use crate::stops::{BAD_UTF8, OUT_OF_BOUNDS};
use memchr::memchr;
use nr_bytes::Blob;
use nr_triedef::Store;
use nr_wasmmem::HostStop;

/// Whether bytes are UTF-8.
pub(crate) fn is_text(bytes: &[u8]) -> bool
    ensures { result ≡ is_utf8 bytes.now }
{
    match str::from_utf8(bytes) {
        Ok(_) => true,
        Err(_) => false,
    }
}

/// The bytes before the first zero byte.
#[tactic(auto, using(crate::proofs::ZeroEnded::zero_found))]
fn before_zero(bytes: &[u8]) -> Option<&[u8]>
    ensures { option_copied result ≡ row.before_zero bytes.now }
{
    match memchr(0, bytes) {
        Some(i) => Some(&bytes[..i]),
        None => None,
    }
}

impl<'a, S: Store> HostContext<'a, S> {
    #[tactic(auto, using(crate::proofs::ZeroEnded::none_behind))]
    fn text_at(&self, ptr: u64) -> Result<Blob, HostStop>
        ensures { Does result self.now self.now (row.text_at ptr) }
    {
        let bytes = self.guest.bytes();
        if ptr > bytes.len() as u64 {
            return Err(OUT_OF_BOUNDS);
        }
        match before_zero(&bytes[ptr as usize..]) {
            Some(text) => copy(self.alloc, text),
            None => Err(OUT_OF_BOUNDS),
        }
    }

    #[tactic(auto, unfolding(crate::specs::Logs::zero_ended))]
    fn zero_ended(&mut self, ptr: u64) -> Result<Blob, HostStop>
        ensures does { Does result self.old self.new (row.zero_ended ptr) }
        ensures keeps { Keeps self.old self.new }
    {
        let text = self.text_at(ptr)?;
        self.pay_bytes(text.inner().len() as u64)?;
        Ok(text)
    }

    /// A text argument.
    pub(crate) fn text_of(&mut self, len: u64, ptr: u64) -> Result<Blob, HostStop>
        ensures does { Does result self.old self.new (row.text_of len ptr) }
        ensures keeps { Keeps self.old self.new }
    {
        if len == u64::MAX {
            self.zero_ended(ptr)
        } else {
            self.guest_bytes(len, ptr)
        }
    }

    /// A fault where bytes aren't UTF-8.
    pub(crate) fn utf8(&self, text: &[u8]) -> Result<(), HostStop>
        ensures { Does result self.now self.now (row.utf8 text.now) }
    {
        if is_text(text) { Ok(()) } else { Err(BAD_UTF8) }
    }
}
