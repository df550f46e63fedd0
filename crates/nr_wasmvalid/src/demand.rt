//! What must hold of a list's entry outside of functions' bodies.

ghost use Rattle.std.specs.Prelude.{◌≡◌, ◌∷◌, [], IfOk, IfErr};
ghost use Rattle.nr_bytes.specs.Answers.{Gives};
ghost use Rattle.nr_wasmvalid.specs.Parts.{outcome, fits, exists, within_limits, is_offered};
ghost use Rattle.nr_wasmvalid.specs.declared.fault.ValidFault.TheVariants.{Memory};

use crate::fault::ValidFault;

/// The number that stands for no function.
const OUTSIDE: u32 = u32::MAX;

/// A number of a function or an entry.
pub(crate) fn number(index: usize) -> Result<u32, ValidFault>
    ensures same { IfOk result (λ n. n ≡ index) }
    ensures memory { IfErr result (λ e. e ≡ Memory) }
{
    u32::try_from(index).map_err(|_| ValidFault::Memory)
}

/// A type that must fit.
pub(crate) fn fits(index: usize, holds: bool) -> Result<(), ValidFault>
    ensures { Gives Memory result (outcome (fits index holds ∷ [])) }
{
    if holds {
        return Ok(());
    }
    let place = number(index)?;
    Err(ValidFault::Types {
        func: OUTSIDE,
        place,
    })
}

/// What must be there.
pub(crate) fn exists(index: usize, holds: bool) -> Result<(), ValidFault>
    ensures { Gives Memory result (outcome (exists index holds ∷ [])) }
{
    if holds {
        return Ok(());
    }
    let place = number(index)?;
    Err(ValidFault::Index {
        func: OUTSIDE,
        place,
    })
}

/// A bound that must be kept.
pub(crate) fn within_limits(index: usize, holds: bool) -> Result<(), ValidFault>
    ensures { Gives Memory result (outcome (within_limits index holds ∷ [])) }
{
    if holds {
        return Ok(());
    }
    let place = number(index)?;
    Err(ValidFault::Limit {
        func: OUTSIDE,
        place,
    })
}

/// What the host must have.
pub(crate) fn is_offered(index: usize, holds: bool) -> Result<(), ValidFault>
    ensures { Gives Memory result (outcome (is_offered index holds ∷ [])) }
{
    if holds {
        return Ok(());
    }
    let place = number(index)?;
    Err(ValidFault::Import {
        func: OUTSIDE,
        place,
    })
}
