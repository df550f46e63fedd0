//! Modules kept between calls.

ghost use Rattle.std.specs.Prelude.{◌≡◌, IfSome, true};
ghost use Rattle.nr_config.specs.Config.{max_code, max_pages};
ghost use Rattle.nr_contract.specs.Preparing.{IsLoaded};

use nr_bytes::Blob;
use nr_config::Config;
use nr_config::entries::{MAX_CODE, MAX_PAGES};
use nr_wasmvalid::Valid;
use std::sync::Mutex;

/// A valid module and the code that it was decoded from, under these limits.
#[derive(Debug, Drop)]
pub(crate) struct Kept {
    pub(crate) code: Blob,
    pub(crate) valid: Valid,
    max_code: u64,
    max_pages: u64,
    ghost loaded: { IsLoaded max_code max_pages code valid },
}

impl Kept {
    /// Whether it is this code's module, under the configuration's limits.
    fn is_of(&self, code: &[u8], config: &Config) -> bool
        ensures loaded { result ≡ true → IsLoaded (max_code config.now) (max_pages config.now) code.now self.now.valid }
        ensures code { result ≡ true → self.now.code ≡ code.now }
    {
        self.max_code == config.entry(MAX_CODE)
            && self.max_pages == config.entry(MAX_PAGES)
            && self.code.inner() == code
    }
}

fn holds(place: &Option<Kept>, code: &[u8], config: &Config) -> bool
    ensures loaded { result ≡ true
        → IfSome place.now (λ k. IsLoaded (max_code config.now) (max_pages config.now) code.now k.valid) }
    ensures code { result ≡ true → IfSome place.now (λ k. k.code ≡ code.now) }
{
    match place {
        Some(kept) => kept.is_of(code, config),
        None => false,
    }
}

/// Modules kept, each in a place of its own. Threads share it, and none waits for another.
#[derive(Debug, Drop)]
pub(crate) struct KeptModules {
    places: [Mutex<Option<Kept>>; 8],
}

impl KeptModules {
    pub(crate) fn new() -> KeptModules {
        KeptModules {
            places: [
                Mutex::new(None),
                Mutex::new(None),
                Mutex::new(None),
                Mutex::new(None),
                Mutex::new(None),
                Mutex::new(None),
                Mutex::new(None),
                Mutex::new(None),
            ],
        }
    }

    /// Takes this code's module out, where it is kept at a place that no other thread is at.
    pub(crate) fn take(&self, code: &[u8], config: &Config) -> Option<Kept>
        ensures loaded { IfSome result
            (λ k. IsLoaded (max_code config.now) (max_pages config.now) code.now k.valid) }
        ensures code { IfSome result (λ k. k.code ≡ code.now) }
    {
        for place in &self.places {
            if let Some(mut place) = place.try_lock() {
                if holds(&place, code, config) {
                    return place.take();
                }
            }
        }
        None
    }

    /// Keeps a module, at an empty place or else at the first one, where no other thread is there.
    pub(crate) fn put(&self, code: Blob, valid: Valid, config: &Config)
        requires { IsLoaded (max_code config.now) (max_pages config.now) code valid }
    {
        let kept = Kept {
            code,
            valid,
            max_code: config.entry(MAX_CODE),
            max_pages: config.entry(MAX_PAGES),
        };
        for place in &self.places {
            if let Some(mut place) = place.try_lock() {
                if place.is_none() {
                    *place = Some(kept);
                    return;
                }
            }
        }
        if let Some(mut place) = self.places[0].try_lock() {
            *place = Some(kept);
        }
    }
}
