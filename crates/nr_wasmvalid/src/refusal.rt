//! Why an instruction is refused.

ghost use Rattle.std.specs.Prelude.{◌≡◌};
ghost use Rattle.nr_wasmvalid.specs.Faults.{fault_at};

use std::alloc::AllocError;

/// Why an instruction is refused, without its place.
#[derive(Clone, Copy, Debug, PartialEq, Eq)]
pub enum Refusal {
    Types,
    Index,
    Label,
    Limit,
    Memory,
}

/// The first breach of a body, by the number of its instruction.
#[derive(Clone, Copy, Debug, PartialEq, Eq)]
pub enum BodyFault {
    Types { place: u32 },
    Index { place: u32 },
    Label { place: u32 },
    Limit { place: u32 },
    Memory,
}

impl From<AllocError> for Refusal {
    ghost use Rattle.std.specs.Prelude.{◌≡◌};
    ghost use Rattle.nr_wasmvalid.specs.declared.refusal.Refusal.TheVariants.{Memory};

    ghost from_gives = { λ _ e. e ≡ Memory };

    fn from(_: AllocError) -> Refusal {
        Refusal::Memory
    }
}

impl From<AllocError> for BodyFault {
    ghost use Rattle.std.specs.Prelude.{◌≡◌};
    ghost use Rattle.nr_wasmvalid.specs.declared.refusal.BodyFault.TheVariants.{Memory};

    ghost from_gives = { λ _ e. e ≡ Memory };

    fn from(_: AllocError) -> BodyFault {
        BodyFault::Memory
    }
}

impl Refusal {
    pub(crate) fn at(self, place: u32) -> BodyFault
        ensures { result ≡ fault_at place self }
    {
        match self {
            Refusal::Types => BodyFault::Types { place },
            Refusal::Index => BodyFault::Index { place },
            Refusal::Label => BodyFault::Label { place },
            Refusal::Limit => BodyFault::Limit { place },
            Refusal::Memory => BodyFault::Memory,
        }
    }
}
