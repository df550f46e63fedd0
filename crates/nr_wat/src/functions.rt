//! Types, imports and functions.

ghost use Rattle.std.specs.Prelude.{◌≡◌, ◌+◌, ◌++◌, IfOk, OnOk, codes, slice_get, string_bytes};
ghost use Rattle.std.specs.List.{flat_map};
ghost use Rattle.std.specs.Option.{option_copied};
ghost use Rattle.nr_wat.specs.Fields.{body_text, func_field, functions_in, head, import_field, import_kind_text};
ghost use Rattle.nr_wat.specs.Fields.{import_text, is_function, listed_sig, named_text, sig_text, type_field};
ghost use Rattle.nr_wat.specs.Fields.{type_word, types_text, use_text};
ghost use Rattle.nr_wat.specs.Pieces.{numbered};

use crate::code::{print_code, push_result};
use crate::names::type_name;
use crate::pieces::{push_string, push_type_use};
use nr_wasmtypes::{FuncBody, FuncType, Import, ImportKind, Locals, Module, ValType};
use std::alloc::{AllocError, Global};
use std::fmt::Write;

/// Begins a field with its word and its number.
pub(crate) fn push_head(word: &str, number: usize, text: &mut String) -> Result<(), AllocError>
    ensures { OnOk result (string_bytes text.new ≡ string_bytes text.old ++ head word.now number) }
{
    write!(text, "\n  ({word} (;{number};)")
}

// ---- types

fn push_types(types: &[ValType], text: &mut String) -> Result<(), AllocError>
    ensures { OnOk result (string_bytes text.new ≡ string_bytes text.old ++ flat_map type_word types.now) }
{
    for kind in types {
        let kind = type_name(*kind);
        write!(text, " {kind}")?;
    }
    Ok(())
}

/// A list of types behind its front, where there are some.
fn push_list(front: &str, types: &[ValType], text: &mut String) -> Result<(), AllocError>
    ensures { OnOk result (string_bytes text.new ≡ string_bytes text.old ++ types_text front.now types.now) }
{
    if types.is_empty() {
        return Ok(());
    }
    text.push_str(front)?;
    push_types(types, text)?;
    text.push_str(")")
}

fn push_sig(sig: &FuncType, text: &mut String) -> Result<(), AllocError>
    ensures { OnOk result (string_bytes text.new ≡ string_bytes text.old ++ sig_text sig.now) }
{
    push_list(" (param", sig.params.inner(), text)?;
    push_result(sig.result, text)
}

#[tactic(auto, unfolding(crate::specs::Fields::type_field))]
fn print_type(number: usize, sig: &FuncType, text: &mut String) -> Result<(), AllocError>
    ensures { OnOk result (string_bytes text.new ≡ string_bytes text.old ++ type_field number sig.now) }
{
    push_head("type", number, text)?;
    text.push_str(" (func")?;
    push_sig(sig, text)?;
    text.push_str("))")
}

/// The types of functions.
#[tactic(auto, using(crate::proofs::Numbered::turns))]
pub(crate) fn print_types(types: &[FuncType], text: &mut String) -> Result<(), AllocError>
    ensures { OnOk result (string_bytes text.new ≡ string_bytes text.old ++ numbered type_field types.now) }
{
    for (number, sig) in types.iter().enumerate() {
        print_type(number, sig, text)?;
    }
    Ok(())
}

// ---- imports

/// Whether a function is imported.
pub fn is_function(kind: ImportKind) -> bool
    ensures { result ≡ is_function kind }
{
    match kind {
        ImportKind::Func(_) => true,
        ImportKind::Table | ImportKind::Memory | ImportKind::Global => false,
    }
}

/// What is imported, behind so many functions.
fn push_kind(before: usize, kind: ImportKind, text: &mut String) -> Result<(), AllocError>
    ensures { OnOk result (string_bytes text.new ≡ string_bytes text.old ++ import_kind_text before kind) }
{
    match kind {
        ImportKind::Func(number) => write!(text, "(func (;{before};) (type {number}))"),
        ImportKind::Table => text.push_str("(table (;its type isn't kept;))"),
        ImportKind::Memory => text.push_str("(memory (;its type isn't kept;))"),
        ImportKind::Global => text.push_str("(global (;its type isn't kept;))"),
    }
}

#[tactic(auto, unfolding(crate::specs::Fields::import_text))]
fn print_import(
    alloc: Global,
    before: usize,
    import: &Import,
    text: &mut String,
) -> Result<(), AllocError>
    ensures { OnOk result (string_bytes text.new ≡ string_bytes text.old ++ import_text before import.now) }
{
    text.push_str("\n  (import ")?;
    push_string(alloc, import.module.inner().as_bytes(), text)?;
    text.push_str(" ")?;
    push_string(alloc, import.name.inner().as_bytes(), text)?;
    text.push_str(" ")?;
    push_kind(before, import.kind, text)?;
    text.push_str(")")
}

/// The imports. Answers how many functions are imported.
#[tactic(auto, using(crate::proofs::Numbered::turns, crate::proofs::Counts::steps))]
pub(crate) fn print_imports(
    alloc: Global,
    imports: &[Import],
    text: &mut String,
) -> Result<usize, AllocError>
    ensures printed { OnOk result (string_bytes text.new
        ≡ string_bytes text.old ++ numbered (import_field imports.now) imports.now) }
    ensures counted { IfOk result (λ count. count ≡ functions_in imports.now) }
{
    let mut before = 0;
    for import in imports {
        print_import(alloc, before, import, text)?;
        if is_function(import.kind) {
            before += 1;
        }
    }
    Ok(before)
}

// ---- functions

fn push_listed(sig: Option<&FuncType>, text: &mut String) -> Result<(), AllocError>
    ensures { OnOk result (string_bytes text.new ≡ string_bytes text.old ++ listed_sig (option_copied sig.entry)) }
{
    match sig {
        None => Ok(()),
        Some(sig) => push_sig(sig, text),
    }
}

fn type_at(types: &[FuncType], number: u32) -> Option<&FuncType>
    ensures { option_copied result ≡ slice_get types.now number }
{
    types.get(number as usize)
}

/// A type by its number, and what it is.
fn push_named(types: &[FuncType], number: u32, text: &mut String) -> Result<(), AllocError>
    ensures { OnOk result (string_bytes text.new ≡ string_bytes text.old ++ named_text types.now number) }
{
    push_type_use(number, text)?;
    push_listed(type_at(types, number), text)
}

fn push_use(types: &[FuncType], number: Option<&u32>, text: &mut String) -> Result<(), AllocError>
    ensures { OnOk result (string_bytes text.new
        ≡ string_bytes text.old ++ use_text types.now (option_copied number.entry)) }
{
    match number {
        None => Ok(()),
        Some(number) => push_named(types, *number, text),
    }
}

/// The number of a function's type.
fn type_number(module: &Module, number: usize) -> Option<&u32>
    ensures { option_copied result ≡ slice_get module.now.funcs number }
{
    module.funcs.inner().get(number)
}

/// The type of a function.
fn push_signature(module: &Module, number: usize, text: &mut String) -> Result<(), AllocError>
    ensures { OnOk result (string_bytes text.new
        ≡ string_bytes text.old ++ use_text module.now.types (slice_get module.now.funcs number)) }
{
    push_use(module.types.inner(), type_number(module, number), text)
}

/// Begins a function behind so many imported ones.
fn push_function_head(imported: usize, number: usize, text: &mut String) -> Result<(), AllocError>
    ensures { OnOk result (string_bytes text.new
        ≡ string_bytes text.old ++ head (codes "func") (imported + number)) }
{
    let index = imported as u128 + number as u128;
    write!(text, "\n  (func (;{index};)")
}

/// The type of each of these locals.
#[tactic(auto, using(crate::proofs::Listed::is_there, crate::proofs::Listed::one_more))]
fn types_of(alloc: Global, locals: &Locals) -> Result<Vec<ValType>, AllocError>
    ensures { IfOk result (λ v. v.items ≡ locals.now) }
{
    let mut types = Vec::new(alloc);
    for number in 0..locals.len() {
        types.push(locals.get(number).unwrap())?;
    }
    Ok(types)
}

/// The locals and the code of a function.
#[tactic(auto, unfolding(crate::specs::Fields::body_text))]
fn print_body(alloc: Global, body: &FuncBody, text: &mut String) -> Result<(), AllocError>
    ensures { OnOk result (string_bytes text.new ≡ string_bytes text.old ++ body_text body.now) }
{
    let locals = types_of(alloc, body.locals())?;
    push_list("\n    (local", &locals, text)?;
    print_code(alloc, "    ", body.code_vec(), text)?;
    text.push_str(")")
}

#[tactic(auto, unfolding(crate::specs::Fields::func_field))]
fn print_function(
    alloc: Global,
    module: &Module,
    imported: usize,
    number: usize,
    body: &FuncBody,
    text: &mut String,
) -> Result<(), AllocError>
    requires { imported ≡ functions_in module.now.imports }
    ensures { OnOk result (string_bytes text.new ≡ string_bytes text.old ++ func_field module.now number body.now) }
{
    push_function_head(imported, number, text)?;
    push_signature(module, number, text)?;
    print_body(alloc, body, text)
}

/// The functions of the module's own.
#[tactic(auto, using(crate::proofs::Numbered::turns))]
pub(crate) fn print_functions(
    alloc: Global,
    module: &Module,
    imported: usize,
    text: &mut String,
) -> Result<(), AllocError>
    requires { imported ≡ functions_in module.now.imports }
    ensures { OnOk result (string_bytes text.new
        ≡ string_bytes text.old ++ numbered (func_field module.now) module.now.bodies) }
{
    for (number, body) in module.bodies.inner().iter().enumerate() {
        print_function(alloc, module, imported, number, body, text)?;
    }
    Ok(())
}
