//! How many instructions there are.

ghost use Rattle.std.specs.Prelude.{◌≡◌, ◌+◌, IfOk};
ghost use Rattle.nr_wasmtypes.specs.Code.{End, code_of, count_of, put};

use nr_wasmtypes::Instr;
use std::alloc::AllocError;

/// So many more. Code with 2^64 instructions takes more memory than there is.
fn plus(count: u64, more: u64) -> Result<u64, AllocError>
    ensures { IfOk result (λ sum. sum ≡ count + more) }
{
    count.checked_add(more).ok_or(AllocError)
}

/// One instruction with those that it holds, beside so many.
#[cycle(code)]
fn count_instr(instr: &Instr, so_far: u64) -> Result<u64, AllocError>
    ensures { IfOk result (λ count. count ≡ so_far + count_of (put instr.now End)) }
{
    let inside = plus(so_far, 1)?;
    match instr {
        Instr::Plain(_) => Ok(inside),
        Instr::Block(_, body) => {
            let count = count_body(body, inside)?;
            Ok(count)
        }
        Instr::Loop(_, body) => {
            let count = count_body(body, inside)?;
            Ok(count)
        }
        Instr::If(_, arms) => {
            let arms: &(Vec<Instr>, Vec<Instr>) = arms;
            let first = count_body(&arms.0, inside)?;
            let count = count_body(&arms.1, first)?;
            Ok(count)
        }
    }
}

/// The instructions that another holds, beside so many.
///
/// # Errors
///
/// Where there are 2^64 of them.
#[cycle(code)]
pub fn count_body(code: &Vec<Instr>, so_far: u64) -> Result<u64, AllocError>
    ensures { IfOk result (λ count. count ≡ so_far + count_of (code_of code.now.items)) }
{
    let mut count = so_far;
    for index in 0..code.len() {
        count = count_instr(&code[index], count)?;
    }
    Ok(count)
}

/// The instructions of a sequence, at any depth, beside so many.
///
/// # Errors
///
/// Where there are 2^64 of them.
pub fn count_code(code: &[Instr], so_far: u64) -> Result<u64, AllocError>
    ensures { IfOk result (λ count. count ≡ so_far + count_of (code_of code.now)) }
{
    let mut count = so_far;
    for index in 0..code.len() {
        count = count_instr(&code[index], count)?;
    }
    Ok(count)
}
