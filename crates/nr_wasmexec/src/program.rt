//! What runs: valid code with its functions.

ghost use Rattle.std.specs.Prelude.{Some, slice_get};
ghost use Rattle.nr_wasmexec.specs.Functions.{func_at, host_func, own_func};
ghost use Rattle.nr_wasmexec.specs.Executing.{FindsFunc};

use nr_bytes::List;
use nr_wasmtypes::{FuncBody, FuncType, HostFn, Module};
use nr_wasmvalid::Valid;

/// A function of the host that a module imports, and the number of its type.
#[derive(Clone, Copy, Debug, PartialEq, Eq)]
pub struct HostLink {
    pub name: HostFn,
    pub kind: u32,
}

/// Valid code, and the functions of the host that it imports.
#[derive(Debug, Drop)]
pub struct Program {
    pub code: Valid,
    pub hosts: List<HostLink>,
}

/// What a run is limited to.
#[derive(Clone, Copy, Debug, PartialEq, Eq)]
pub struct Limits {
    /// The gas of an instruction.
    pub cost: u128,
    /// The most frames of functions with code.
    pub max_frames: u64,
    /// The most operands and locals of all frames together.
    pub max_values: u128,
}

/// A function, lent.
#[derive(Clone, Copy)]
pub enum Func<'a> {
    Hosted(&'a FuncType, HostFn),
    Coded(&'a FuncType, &'a FuncBody),
}

/// The function with this number, if there is one.
pub fn func_at(program: &Program, f: u32) -> Option<Func>
    ensures { FindsFunc result (func_at program.now f) }
{
    let f = f as usize;
    let count = program.hosts.inner().len();
    if f < count {
        host_func(program.code.module(), program.hosts.inner(), f)
    } else {
        own_func(program.code.module(), f - count)
    }
}

// The function of the host with this number.
fn host_func<'a>(code: &'a Module, hosts: &[HostLink], f: usize) -> Option<Func<'a>>
    ensures { FindsFunc result (host_func code.now.types (slice_get hosts.now f)) }
{
    let link = hosts.get(f)?;
    let sig = code.types.inner().get(link.kind as usize)?;
    Some(Func::Hosted(sig, link.name))
}

// The module's own function with this number.
fn own_func(code: &Module, k: usize) -> Option<Func>
    ensures { FindsFunc result (own_func code.now k) }
{
    let t = code.funcs.inner().get(k)?;
    let sig = code.types.inner().get(*t as usize)?;
    let body = code.bodies.inner().get(k)?;
    Some(Func::Coded(sig, body))
}
