//! The fields behind the functions, and all of a module.

ghost use Rattle.std.specs.Prelude.{◌≡◌, ◌++◌, IfOk, OnOk, string_bytes};
ghost use Rattle.std.specs.List.{flat_map};
ghost use Rattle.nr_wat.specs.Fields.{const_text, data_text, element_field, export_field, export_word};
ghost use Rattle.nr_wat.specs.Fields.{function_fields, global_field, global_type, index_text, last_fields};
ghost use Rattle.nr_wat.specs.Fields.{limits_field, limits_text, module_text, most_text, segment_field};
ghost use Rattle.nr_wat.specs.Fields.{storage_fields, where_text};
ghost use Rattle.nr_wat.specs.Pieces.{numbered};

use crate::functions::{print_functions, print_imports, print_types, push_head};
use crate::names::{push_name, type_name};
use crate::pieces::{push_number, push_numbers, push_signed32, push_signed64, push_string};
use nr_wasmtypes::{
    ConstExpr, Element, Export, ExportKind, Global as GlobalEntry, Limits, Module, Op, Segment,
    ValType,
};
use std::alloc::{AllocError, Global};
use std::fmt::Write;

// ---- tables and memories

fn push_most(most: Option<u32>, text: &mut String) -> Result<(), AllocError>
    ensures { OnOk result (string_bytes text.new ≡ string_bytes text.old ++ most_text most) }
{
    match most {
        None => Ok(()),
        Some(most) => push_number(most, text),
    }
}

fn push_limits(limits: &Limits, text: &mut String) -> Result<(), AllocError>
    ensures { OnOk result (string_bytes text.new ≡ string_bytes text.old ++ limits_text limits.now) }
{
    push_number(limits.least, text)?;
    push_most(limits.most, text)
}

/// A table or a memory, by its word and what stands behind its limits.
#[tactic(auto, unfolding(crate::specs::Fields::limits_field))]
fn print_limits(
    word: &str,
    tail: &str,
    number: usize,
    limits: &Limits,
    text: &mut String,
) -> Result<(), AllocError>
    ensures { OnOk result (string_bytes text.new
        ≡ string_bytes text.old ++ limits_field word.now tail.now number limits.now) }
{
    push_head(word, number, text)?;
    push_limits(limits, text)?;
    text.push_str(tail)
}

#[tactic(auto, using(crate::proofs::Numbered::turns))]
fn print_all_limits(
    word: &str,
    tail: &str,
    list: &[Limits],
    text: &mut String,
) -> Result<(), AllocError>
    ensures { OnOk result (string_bytes text.new
        ≡ string_bytes text.old ++ numbered (limits_field word.now tail.now) list.now) }
{
    for (number, limits) in list.iter().enumerate() {
        print_limits(word, tail, number, limits, text)?;
    }
    Ok(())
}

// ---- globals

/// A constant expression.
fn push_const(value: ConstExpr, text: &mut String) -> Result<(), AllocError>
    ensures { OnOk result (string_bytes text.new ≡ string_bytes text.old ++ const_text value) }
{
    match value {
        ConstExpr::I32(number) => {
            text.push_str("i32.const ")?;
            push_signed32(number, text)
        }
        ConstExpr::I64(number) => {
            text.push_str("i64.const ")?;
            push_signed64(number, text)
        }
        ConstExpr::Get(number) => {
            push_name(Op::GlobalGet, text)?;
            push_number(number, text)
        }
    }
}

fn push_global_type(mutable: bool, kind: ValType, text: &mut String) -> Result<(), AllocError>
    ensures { OnOk result (string_bytes text.new ≡ string_bytes text.old ++ global_type mutable kind) }
{
    let kind = type_name(kind);
    if mutable {
        write!(text, "(mut {kind})")
    } else {
        text.push_str(kind)
    }
}

#[tactic(auto, unfolding(crate::specs::Fields::global_field))]
fn print_global(number: usize, global: &GlobalEntry, text: &mut String) -> Result<(), AllocError>
    ensures { OnOk result (string_bytes text.new ≡ string_bytes text.old ++ global_field number global.now) }
{
    push_head("global", number, text)?;
    text.push_str(" ")?;
    push_global_type(global.mutable, global.kind, text)?;
    text.push_str(" (")?;
    push_const(global.init, text)?;
    text.push_str("))")
}

#[tactic(auto, using(crate::proofs::Numbered::turns))]
fn print_globals(globals: &[GlobalEntry], text: &mut String) -> Result<(), AllocError>
    ensures { OnOk result (string_bytes text.new ≡ string_bytes text.old ++ numbered global_field globals.now) }
{
    for (number, global) in globals.iter().enumerate() {
        print_global(number, global, text)?;
    }
    Ok(())
}

// ---- exports

fn export_word(kind: ExportKind) -> &'static str
    ensures { result.now ≡ export_word kind }
{
    match kind {
        ExportKind::Func => "func",
        ExportKind::Table => "table",
        ExportKind::Memory => "memory",
        ExportKind::Global => "global",
    }
}

#[tactic(auto, unfolding(crate::specs::Fields::export_field))]
fn print_export(alloc: Global, export: &Export, text: &mut String) -> Result<(), AllocError>
    ensures { OnOk result (string_bytes text.new ≡ string_bytes text.old ++ export_field export.now) }
{
    text.push_str("\n  (export ")?;
    push_string(alloc, export.name.inner().as_bytes(), text)?;
    let word = export_word(export.kind);
    let index = export.index;
    write!(text, " ({word} {index}))")
}

fn print_exports(alloc: Global, exports: &[Export], text: &mut String) -> Result<(), AllocError>
    ensures { OnOk result (string_bytes text.new ≡ string_bytes text.old ++ flat_map export_field exports.now) }
{
    for export in exports {
        print_export(alloc, export, text)?;
    }
    Ok(())
}

// ---- elements and data

fn push_index(index: u32, text: &mut String) -> Result<(), AllocError>
    ensures { OnOk result (string_bytes text.new ≡ string_bytes text.old ++ index_text index) }
{
    if index == 0 {
        return Ok(());
    }
    push_number(index, text)
}

/// Where an element or a segment is put.
fn push_where(index: u32, offset: ConstExpr, text: &mut String) -> Result<(), AllocError>
    ensures { OnOk result (string_bytes text.new ≡ string_bytes text.old ++ where_text index offset) }
{
    push_index(index, text)?;
    text.push_str(" (")?;
    push_const(offset, text)?;
    text.push_str(")")
}

#[tactic(auto, unfolding(crate::specs::Fields::element_field))]
fn print_element(number: usize, element: &Element, text: &mut String) -> Result<(), AllocError>
    ensures { OnOk result (string_bytes text.new ≡ string_bytes text.old ++ element_field number element.now) }
{
    push_head("elem", number, text)?;
    push_where(element.table, element.offset, text)?;
    push_numbers(element.funcs.inner(), text)?;
    text.push_str(")")
}

#[tactic(auto, using(crate::proofs::Numbered::turns))]
fn print_elements(elements: &[Element], text: &mut String) -> Result<(), AllocError>
    ensures { OnOk result (string_bytes text.new ≡ string_bytes text.old ++ numbered element_field elements.now) }
{
    for (number, element) in elements.iter().enumerate() {
        print_element(number, element, text)?;
    }
    Ok(())
}

/// The bytes of a segment, and its end.
fn push_data(alloc: Global, bytes: &[u8], text: &mut String) -> Result<(), AllocError>
    ensures { OnOk result (string_bytes text.new ≡ string_bytes text.old ++ data_text bytes.now) }
{
    text.push_str(" ")?;
    push_string(alloc, bytes, text)?;
    text.push_str(")")
}

#[tactic(auto, unfolding(crate::specs::Fields::segment_field))]
fn print_segment(
    alloc: Global,
    number: usize,
    segment: &Segment,
    text: &mut String,
) -> Result<(), AllocError>
    ensures { OnOk result (string_bytes text.new ≡ string_bytes text.old ++ segment_field number segment.now) }
{
    push_head("data", number, text)?;
    push_where(segment.memory, segment.offset, text)?;
    push_data(alloc, segment.bytes.inner(), text)
}

#[tactic(auto, using(crate::proofs::Numbered::turns))]
fn print_segments(alloc: Global, segments: &[Segment], text: &mut String) -> Result<(), AllocError>
    ensures { OnOk result (string_bytes text.new ≡ string_bytes text.old ++ numbered segment_field segments.now) }
{
    for (number, segment) in segments.iter().enumerate() {
        print_segment(alloc, number, segment, text)?;
    }
    Ok(())
}

// ---- modules

/// Types, imports and functions.
#[tactic(auto, unfolding(crate::specs::Fields::function_fields))]
fn print_function_fields(
    alloc: Global,
    module: &Module,
    text: &mut String,
) -> Result<(), AllocError>
    ensures { OnOk result (string_bytes text.new ≡ string_bytes text.old ++ function_fields module.now) }
{
    print_types(module.types.inner(), text)?;
    let imported = print_imports(alloc, module.imports.inner(), text)?;
    print_functions(alloc, module, imported, text)
}

/// Tables, memories and globals.
#[tactic(auto, unfolding(crate::specs::Fields::storage_fields))]
fn print_storage_fields(module: &Module, text: &mut String) -> Result<(), AllocError>
    ensures { OnOk result (string_bytes text.new ≡ string_bytes text.old ++ storage_fields module.now) }
{
    print_all_limits("table", " funcref)", module.tables.inner(), text)?;
    print_all_limits("memory", ")", module.memories.inner(), text)?;
    print_globals(module.globals.inner(), text)
}

/// Exports, elements and segments.
#[tactic(auto, unfolding(crate::specs::Fields::last_fields))]
fn print_last_fields(alloc: Global, module: &Module, text: &mut String) -> Result<(), AllocError>
    ensures { OnOk result (string_bytes text.new ≡ string_bytes text.old ++ last_fields module.now) }
{
    print_exports(alloc, module.exports.inner(), text)?;
    print_elements(module.elements.inner(), text)?;
    print_segments(alloc, module.segments.inner(), text)
}

/// The text of a module in WebAssembly's text format (Core 1.0), a line for each field and each instruction. Comments
/// have the numbers of fields.
///
/// It keeps to the rules of the format where the module imports functions alone, and no alignment is above 2^31: in
/// the place of each other import's type, and of such an alignment, a comment stands.
///
/// # Errors
///
/// Where memory runs out.
#[tactic(auto, unfolding(crate::specs::Fields::module_text))]
pub fn write_text(alloc: Global, module: &Module) -> Result<String, AllocError>
    ensures { IfOk result (λ text. string_bytes text ≡ module_text module.now) }
{
    let mut text = String::from_str(alloc, "(module")?;
    print_function_fields(alloc, module, &mut text)?;
    print_storage_fields(module, &mut text)?;
    print_last_fields(alloc, module, &mut text)?;
    text.push_str(")\n")?;
    Ok(text)
}
