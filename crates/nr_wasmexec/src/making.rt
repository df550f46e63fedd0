//! What a module's guest is before its first run.

ghost use Rattle.std.specs.Prelude.{◌≡◌, ◌≤◌, ◌+◌, IfOk, Some, None, length, replicate};
ghost use Rattle.nr_wasmexec.specs.Functions.{link_as, links};
ghost use Rattle.nr_wasmexec.specs.Making.{or_zero, constant_of, globals_of, entries_of, placed, put_funcs, all_into};
ghost use Rattle.nr_wasmexec.specs.Making.{element_into, segment_into};
ghost use Rattle.nr_wasmexec.specs.Machine.{PutsInto};

use crate::program::HostLink;
use nr_wasmmem::Memory;
use nr_wasmtypes::{ConstExpr, Element, HostFn, Import, ImportKind, Limits, Segment};
use std::alloc::{AllocError, Global};

/// Why a machine isn't made.
#[derive(Clone, Copy, Debug, PartialEq, Eq)]
pub enum MakeFault {
    /// An element or a segment doesn't fit into its table or memory.
    Segment,
    Memory,
}

impl From<AllocError> for MakeFault {
    ghost use Rattle.std.specs.Prelude.{◌≡◌};
    ghost use Rattle.nr_wasmexec.specs.declared.making.MakeFault.TheVariants.{Memory};

    ghost from_gives = { λ _ e. e ≡ Memory };

    fn from(_error: AllocError) -> MakeFault {
        MakeFault::Memory
    }
}

fn or_zero(value: Option<u64>) -> u64
    ensures { result ≡ or_zero value }
{
    match value {
        None => 0,
        Some(value) => value,
    }
}

/// The number of a constant expression, over globals that it may name.
fn constant_of(globals: &[u64], expr: ConstExpr) -> u64
    ensures { result ≡ constant_of globals.now expr }
{
    match expr {
        ConstExpr::I32(number) => u64::from(number),
        ConstExpr::I64(number) => number,
        ConstExpr::Get(at) => or_zero(globals.get(at as usize).copied()),
    }
}

/// The first values of globals.
///
/// # Errors
///
/// Where memory ran out.
pub fn globals_of(alloc: Global, globals: &[nr_wasmtypes::Global]) -> Result<Vec<u64>, AllocError>
    ensures { IfOk result (λ v. v.items ≡ globals_of globals.now) }
{
    globals
        .iter()
        .map(|global| constant_of(&[], global.init))
        .collect(alloc)
}

/// The function of the host that an import names.
fn link_as(name: Option<HostFn>, kind: ImportKind) -> Option<HostLink>
    ensures { result ≡ link_as name kind }
{
    match (name, kind) {
        (Some(name), ImportKind::Func(kind)) => Some(HostLink { name, kind }),
        _ => None,
    }
}

/// The functions of the host that a module imports.
///
/// # Errors
///
/// Where memory ran out.
pub fn links(alloc: Global, imports: &[Import]) -> Result<Vec<HostLink>, AllocError>
    ensures { IfOk result (λ v. v.items ≡ links imports.now) }
{
    imports
        .iter()
        .filter_map(|import| {
            link_as(HostFn::of_name(import.name.inner().as_bytes()), import.kind)
        })
        .collect(alloc)
}

/// An empty table of a module.
///
/// # Errors
///
/// Where memory ran out.
pub fn table_of(alloc: Global, tables: &[Limits]) -> Result<Vec<Option<u32>>, AllocError>
    ensures { IfOk result (λ v. v.items ≡ replicate (entries_of tables.now) None) }
{
    vec![in alloc; None; entries_of(tables)]
}

fn entries_of(tables: &[Limits]) -> usize
    ensures { result ≡ entries_of tables.now }
{
    match tables.first() {
        None => 0,
        Some(first) => first.least as usize,
    }
}

/// Puts functions at places of a table in a row.
#[tactic(auto, using(crate::proofs::Putting::place_more))]
fn place(table: &mut Vec<Option<u32>>, at: usize, funcs: &[u32])
    requires { at + length funcs.now ≤ length table.old.items }
    ensures { table.new.items ≡ placed table.old.items at funcs.now }
{
    for (i, func) in funcs.iter().enumerate() {
        table[at + i] = Some(*func);
    }
}

/// Puts functions into a table. False where they don't fit.
fn put_funcs(table: &mut Vec<Option<u32>>, at: u64, funcs: &[u32]) -> bool
    ensures { PutsInto result table.new.items (put_funcs table.old.items at funcs.now) }
{
    let at = at as usize;
    if at > table.len() || funcs.len() > table.len() - at {
        return false;
    }
    place(table, at, funcs);
    true
}

/// Puts all elements into a table, in order. False where one doesn't fit.
#[tactic(auto, using(crate::proofs::Putting::one_more, crate::proofs::Putting::one_fails, crate::proofs::Putting::all_done))]
pub fn put_elements(table: &mut Vec<Option<u32>>, globals: &[u64], elements: &[Element]) -> bool
    ensures { PutsInto result table.new.items (all_into (element_into globals.now) table.old.items elements.now) }
{
    for element in elements {
        if !put_funcs(
            table,
            constant_of(globals, element.offset),
            element.funcs.inner(),
        ) {
            return false;
        }
    }
    true
}

/// Puts all segments into a memory, in order. False where one doesn't fit.
#[tactic(auto, using(crate::proofs::Putting::one_more, crate::proofs::Putting::one_fails, crate::proofs::Putting::all_done))]
pub fn put_segments(memory: &mut Memory, globals: &[u64], segments: &[Segment]) -> bool
    ensures bytes { PutsInto result memory.new.bytes
        (all_into (segment_into globals.now) memory.old.bytes segments.now) }
    ensures most { memory.new.most ≡ memory.old.most }
{
    for segment in segments {
        let at = constant_of(globals, segment.offset);
        if memory.put(at, segment.bytes.inner()).is_err() {
            return false;
        }
    }
    true
}
