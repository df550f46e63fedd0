//! The lines that tell of a module.

ghost use Rattle.std.specs.Prelude.{◌≡◌, ◌<◌, ◌++◌, IfOk, OnOk, option_and_then, slice_get, string_bytes, true};
ghost use Rattle.std.specs.List.{flat_map};
ghost use Rattle.std.specs.Option.{option_copied};
ghost use Rattle.nr_module.specs.Listing.{export_line, export_word, import_line, imported_count, is_bare};
ghost use Rattle.nr_module.specs.Listing.{is_method, is_plain, limits_line, module_text, most_word, name_byte};
ghost use Rattle.nr_module.specs.Listing.{name_word};
ghost use Rattle.nr_module.specs.Listing.{size_line};

use crate::offer::{offer_of, offer_word};
use nr_wasmtypes::{Export, ExportKind, FuncType, Import, Limits, Module};
use nr_wat::is_function;
use std::alloc::{AllocError, Global};
use std::fmt::Write;

/// A visible character of ASCII but a quote and a backslash.
fn is_plain(byte: u8) -> bool
    ensures plain { result ≡ is_plain byte }
    ensures ascii { result ≡ true → byte < 128 }
{
    33 <= byte && byte <= 126 && byte != 34 && byte != 92
}

/// Adds a byte of a name: itself, or a backslash and two digits.
fn push_byte(alloc: Global, byte: u8, text: &mut String) -> Result<(), AllocError>
    ensures { OnOk result (string_bytes text.new ≡ string_bytes text.old ++ name_byte byte) }
{
    if is_plain(byte) {
        text.push(char::from(byte))
    } else {
        let digits = hex::encode(alloc, [byte])?;
        write!(text, "\\{digits}")
    }
}

/// A name as it is written.
fn name_word(alloc: Global, name: &str) -> Result<String, AllocError>
    ensures { IfOk result (λ word. string_bytes word ≡ name_word name.now) }
{
    let mut word = String::new(alloc);
    for byte in name.as_bytes() {
        push_byte(alloc, *byte, &mut word)?;
    }
    Ok(word)
}

// ---- imports

#[tactic(auto, unfolding(crate::specs::Listing::import_line))]
fn print_import(
    alloc: Global,
    types: &[FuncType],
    import: &Import,
    text: &mut String,
) -> Result<(), AllocError>
    ensures { OnOk result (string_bytes text.new ≡ string_bytes text.old ++ import_line types.now import.now) }
{
    let module = name_word(alloc, import.module.inner())?;
    let name = name_word(alloc, import.name.inner())?;
    let word = offer_word(offer_of(alloc, types, import)?);
    writeln!(text, "import {module} {name} {word}")
}

fn print_imports(
    alloc: Global,
    types: &[FuncType],
    imports: &[Import],
    text: &mut String,
) -> Result<(), AllocError>
    ensures { OnOk result (string_bytes text.new
        ≡ string_bytes text.old ++ flat_map (import_line types.now) imports.now) }
{
    for import in imports {
        print_import(alloc, types, import, text)?;
    }
    Ok(())
}

// ---- exports

/// How many functions a module imports.
#[tactic(auto, using(nr_wat::proofs::Counts::one_function, nr_wat::proofs::Counts::no_function))]
pub(crate) fn imported_count(module: &Module) -> usize
    ensures { result ≡ imported_count module.now }
{
    let mut count = 0;
    for import in module.imports.inner() {
        if is_function(import.kind) {
            count += 1;
        }
    }
    count
}

/// Takes and leaves nothing.
fn is_bare(sig: Option<&FuncType>) -> bool
    ensures { result ≡ is_bare (option_copied sig.entry) }
{
    match sig {
        Some(sig) => sig.params.inner().is_empty() && sig.result.is_none(),
        None => false,
    }
}

/// The type of a function of the module's own.
fn own_type(module: &Module, number: usize) -> Option<&FuncType>
    ensures { option_copied result
        ≡ option_and_then (λ t. slice_get module.now.types t) (slice_get module.now.funcs number) }
{
    match module.funcs.inner().get(number) {
        Some(number) => module.types.inner().get(*number as usize),
        None => None,
    }
}

/// The function with this number, of a module that imports so many, is the module's own and takes and leaves nothing.
pub(crate) fn is_method(module: &Module, imported: usize, number: usize) -> bool
    requires { imported ≡ imported_count module.now }
    ensures { result ≡ is_method module.now number }
{
    imported <= number && is_bare(own_type(module, number - imported))
}

fn export_word(module: &Module, imported: usize, export: &Export) -> &'static str
    requires { imported ≡ imported_count module.now }
    ensures { result.now ≡ export_word module.now export.now.kind export.now.index }
{
    match export.kind {
        ExportKind::Func => {
            if is_method(module, imported, export.index as usize) {
                "method"
            } else {
                "function"
            }
        }
        ExportKind::Table => "table",
        ExportKind::Memory => "memory",
        ExportKind::Global => "global",
    }
}

#[tactic(auto, unfolding(crate::specs::Listing::export_line))]
fn print_export(
    alloc: Global,
    module: &Module,
    imported: usize,
    export: &Export,
    text: &mut String,
) -> Result<(), AllocError>
    requires { imported ≡ imported_count module.now }
    ensures { OnOk result (string_bytes text.new ≡ string_bytes text.old ++ export_line module.now export.now) }
{
    let word = export_word(module, imported, export);
    let name = name_word(alloc, export.name.inner())?;
    writeln!(text, "export {word} {name}")
}

fn print_exports(alloc: Global, module: &Module, text: &mut String) -> Result<(), AllocError>
    ensures { OnOk result (string_bytes text.new
        ≡ string_bytes text.old ++ flat_map (export_line module.now) module.now.exports) }
{
    let imported = imported_count(module);
    for export in module.exports.inner() {
        print_export(alloc, module, imported, export, text)?;
    }
    Ok(())
}

// ---- sizes

fn most_word(alloc: Global, most: Option<u32>) -> Result<String, AllocError>
    ensures { IfOk result (λ word. string_bytes word ≡ most_word most) }
{
    match most {
        Some(most) => most.to_string(alloc),
        None => String::from_str(alloc, "none"),
    }
}

#[tactic(auto, unfolding(crate::specs::Listing::limits_line))]
fn print_limits(
    alloc: Global,
    word: &str,
    limits: &Limits,
    text: &mut String,
) -> Result<(), AllocError>
    ensures { OnOk result (string_bytes text.new ≡ string_bytes text.old ++ limits_line word.now limits.now) }
{
    let least = limits.least;
    let most = most_word(alloc, limits.most)?;
    writeln!(text, "{word} {least} {most}")
}

fn print_all_limits(
    alloc: Global,
    word: &str,
    list: &[Limits],
    text: &mut String,
) -> Result<(), AllocError>
    ensures { OnOk result (string_bytes text.new ≡ string_bytes text.old ++ flat_map (limits_line word.now) list.now) }
{
    for limits in list {
        print_limits(alloc, word, limits, text)?;
    }
    Ok(())
}

fn print_size(size: usize, text: &mut String) -> Result<(), AllocError>
    ensures { OnOk result (string_bytes text.new ≡ string_bytes text.old ++ size_line size) }
{
    writeln!(text, "size {size}")
}

/// The lines of a module whose file has so many bytes: its imports, its exports, the sizes of its tables and memories,
/// and its own.
///
/// # Errors
///
/// Where memory runs out.
#[tactic(auto, unfolding(crate::specs::Listing::module_text))]
pub(crate) fn module_text(alloc: Global, size: usize, module: &Module) -> Result<String, AllocError>
    ensures { IfOk result (λ text. string_bytes text ≡ module_text size module.now) }
{
    let mut text = String::new(alloc);
    print_imports(
        alloc,
        module.types.inner(),
        module.imports.inner(),
        &mut text,
    )?;
    print_exports(alloc, module, &mut text)?;
    print_all_limits(alloc, "table", module.tables.inner(), &mut text)?;
    print_all_limits(alloc, "memory", module.memories.inner(), &mut text)?;
    print_size(size, &mut text)?;
    Ok(text)
}
