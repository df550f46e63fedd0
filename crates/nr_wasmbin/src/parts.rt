//! The entries of a module's sections.

ghost use Rattle.std.specs.Prelude.{◌≤◌, ◌<◌, Ok, OnOk, length};
ghost use Rattle.nr_bytes.specs.Reading.{Input};
ghost use Rattle.nr_wasmbin.specs.Fields.{Gives, u32_at};
ghost use Rattle.nr_wasmbin.specs.Parts.{const_expr_at, constant_at, element_at, end_at, exact_at, export_at};
ghost use Rattle.nr_wasmbin.specs.Parts.{export_kind_at, func_type_at, global_at, global_type_at, import_at};
ghost use Rattle.nr_wasmbin.specs.Parts.{import_kind_at, limits_at, mutable_at, result_at, segment_at, table_at};
ghost use Rattle.nr_wasmbin.specs.Parts.{val_type_at, val_type_of};
ghost use Rattle.nr_wasmbin.specs.declared.fault.DecodeFault.TheVariants.{Memory};

use crate::cursor::Cursor;
use crate::fault::DecodeFault;
use crate::item::{Item, read_list};
use nr_wasmtypes::{
    ConstExpr, Element, Export, ExportKind, FuncType, Global as GlobalEntry, Import, ImportKind,
    Limits, Op, Segment, ValType,
};
use std::alloc::Global;

/// A value type, whose byte stood at a place.
#[inline]
pub(crate) fn val_type_of(at: usize, byte: u8) -> Result<ValType, DecodeFault>
    ensures { (rest : Input) → Gives result rest (val_type_of at (byte, rest)) }
{
    match byte {
        0x7f => Ok(ValType::I32),
        0x7e => Ok(ValType::I64),
        0x7c | 0x7d => Err(DecodeFault::Float { at }),
        _ => Err(DecodeFault::Opcode { at }),
    }
}

/// A value type.
#[inline]
pub(crate) fn read_val_type(cursor: &mut Cursor<'_>) -> Result<ValType, DecodeFault>
    ensures gives { Gives result cursor.new (val_type_at cursor.old) }
    ensures shorter { OnOk result (length cursor.new.left ≤ length cursor.old.left) }
{
    let at = cursor.at();
    let byte = cursor.byte()?;
    val_type_of(at, byte)
}

/// A byte that must be this one.
#[inline]
pub(crate) fn read_exact(cursor: &mut Cursor<'_>, wanted: u8) -> Result<u8, DecodeFault>
    ensures gives { Gives result cursor.new (exact_at wanted cursor.old) }
    ensures shorter { OnOk result (length cursor.new.left ≤ length cursor.old.left) }
{
    let at = cursor.at();
    let byte = cursor.byte()?;
    if byte != wanted {
        return Err(DecodeFault::Opcode { at });
    }
    Ok(byte)
}

fn read_result(cursor: &mut Cursor<'_>) -> Result<Option<ValType>, DecodeFault>
    ensures gives { Gives result cursor.new (result_at cursor.old) }
    ensures shorter { OnOk result (length cursor.new.left ≤ length cursor.old.left) }
{
    let at = cursor.at();
    match cursor.u32()? {
        0 => Ok(None),
        1 => Ok(Some(read_val_type(cursor)?)),
        _ => Err(DecodeFault::TooMany { at }),
    }
}

fn read_limits(cursor: &mut Cursor<'_>) -> Result<Limits, DecodeFault>
    ensures gives { Gives result cursor.new (limits_at cursor.old) }
    ensures shorter { OnOk result (length cursor.new.left ≤ length cursor.old.left) }
{
    let at = cursor.at();
    match cursor.byte()? {
        0 => Ok(Limits {
            least: cursor.u32()?,
            most: None,
        }),
        1 => {
            let least = cursor.u32()?;
            let most = cursor.u32()?;
            Ok(Limits {
                least,
                most: Some(most),
            })
        }
        _ => Err(DecodeFault::Opcode { at }),
    }
}

/// A table's type: that of functions, and its limits.
pub(crate) fn read_table(cursor: &mut Cursor<'_>) -> Result<Limits, DecodeFault>
    ensures gives { Gives result cursor.new (table_at cursor.old) }
    ensures shorter { OnOk result (length cursor.new.left ≤ length cursor.old.left) }
{
    read_exact(cursor, 0x70)?;
    let limits = read_limits(cursor)?;
    Ok(limits)
}

fn read_mutable(cursor: &mut Cursor<'_>) -> Result<bool, DecodeFault>
    ensures gives { Gives result cursor.new (mutable_at cursor.old) }
    ensures shorter { OnOk result (length cursor.new.left ≤ length cursor.old.left) }
{
    let at = cursor.at();
    match cursor.byte()? {
        0 => Ok(false),
        1 => Ok(true),
        _ => Err(DecodeFault::Opcode { at }),
    }
}

fn read_global_type(cursor: &mut Cursor<'_>) -> Result<(ValType, bool), DecodeFault>
    ensures gives { Gives result cursor.new (global_type_at cursor.old) }
    ensures shorter { OnOk result (length cursor.new.left ≤ length cursor.old.left) }
{
    let kind = read_val_type(cursor)?;
    let mutable = read_mutable(cursor)?;
    Ok((kind, mutable))
}

fn read_import_kind(cursor: &mut Cursor<'_>) -> Result<ImportKind, DecodeFault>
    ensures gives { Gives result cursor.new (import_kind_at cursor.old) }
    ensures shorter { OnOk result (length cursor.new.left ≤ length cursor.old.left) }
{
    let at = cursor.at();
    match cursor.byte()? {
        0 => Ok(ImportKind::Func(cursor.u32()?)),
        1 => {
            read_table(cursor)?;
            Ok(ImportKind::Table)
        }
        2 => {
            read_limits(cursor)?;
            Ok(ImportKind::Memory)
        }
        3 => {
            read_global_type(cursor)?;
            Ok(ImportKind::Global)
        }
        _ => Err(DecodeFault::Opcode { at }),
    }
}

fn read_export_kind(cursor: &mut Cursor<'_>) -> Result<ExportKind, DecodeFault>
    ensures gives { Gives result cursor.new (export_kind_at cursor.old) }
    ensures shorter { OnOk result (length cursor.new.left ≤ length cursor.old.left) }
{
    let at = cursor.at();
    match cursor.byte()? {
        0 => Ok(ExportKind::Func),
        1 => Ok(ExportKind::Table),
        2 => Ok(ExportKind::Memory),
        3 => Ok(ExportKind::Global),
        _ => Err(DecodeFault::Opcode { at }),
    }
}

fn read_constant(cursor: &mut Cursor<'_>) -> Result<ConstExpr, DecodeFault>
    ensures gives { Gives result cursor.new (constant_at cursor.old) }
    ensures shorter { OnOk result (length cursor.new.left ≤ length cursor.old.left) }
{
    let at = cursor.at();
    match Op::of(cursor.byte()?) {
        Op::Const32 => Ok(ConstExpr::I32(cursor.s32()?)),
        Op::Const64 => Ok(ConstExpr::I64(cursor.s64()?)),
        Op::GlobalGet => Ok(ConstExpr::Get(cursor.u32()?)),
        Op::Float => Err(DecodeFault::Float { at }),
        _ => Err(DecodeFault::Opcode { at }),
    }
}

fn read_end(cursor: &mut Cursor<'_>) -> Result<(), DecodeFault>
    ensures gives { Gives result cursor.new (end_at cursor.old) }
    ensures shorter { OnOk result (length cursor.new.left ≤ length cursor.old.left) }
{
    let at = cursor.at();
    match Op::of(cursor.byte()?) {
        Op::End => Ok(()),
        Op::Float => Err(DecodeFault::Float { at }),
        _ => Err(DecodeFault::Opcode { at }),
    }
}

fn read_const_expr(cursor: &mut Cursor<'_>) -> Result<ConstExpr, DecodeFault>
    ensures gives { Gives result cursor.new (const_expr_at cursor.old) }
    ensures shorter { OnOk result (length cursor.new.left ≤ length cursor.old.left) }
{
    let constant = read_constant(cursor)?;
    read_end(cursor)?;
    Ok(constant)
}

impl Item for u32 {
    ghost reading = { u32_at };

    fn read(_alloc: Global, cursor: &mut Cursor<'_>) -> Result<u32, DecodeFault> {
        cursor.u32()
    }
}

impl Item for ValType {
    ghost reading = { val_type_at };

    fn read(_alloc: Global, cursor: &mut Cursor<'_>) -> Result<ValType, DecodeFault> {
        read_val_type(cursor)
    }
}

impl Item for FuncType {
    ghost reading = { func_type_at };

    #[tactic(auto, unfolding(crate::specs::Parts::func_type_at))]
    fn read(alloc: Global, cursor: &mut Cursor<'_>) -> Result<FuncType, DecodeFault> {
        read_exact(cursor, 0x60)?;
        let params = read_list(alloc, cursor)?;
        let result = read_result(cursor)?;
        Ok(FuncType { params, result })
    }
}

impl Item for Import {
    ghost reading = { import_at };

    #[tactic(auto, unfolding(crate::specs::Parts::import_at))]
    fn read(alloc: Global, cursor: &mut Cursor<'_>) -> Result<Import, DecodeFault> {
        let module = cursor.name(alloc)?;
        let name = cursor.name(alloc)?;
        let kind = read_import_kind(cursor)?;
        Ok(Import { module, name, kind })
    }
}

impl Item for Limits {
    ghost reading = { limits_at };

    fn read(_alloc: Global, cursor: &mut Cursor<'_>) -> Result<Limits, DecodeFault> {
        read_limits(cursor)
    }
}

impl Item for GlobalEntry {
    ghost reading = { global_at };

    #[tactic(auto, unfolding(crate::specs::Parts::global_at))]
    fn read(_alloc: Global, cursor: &mut Cursor<'_>) -> Result<GlobalEntry, DecodeFault> {
        let (kind, mutable) = read_global_type(cursor)?;
        let init = read_const_expr(cursor)?;
        Ok(GlobalEntry {
            kind,
            mutable,
            init,
        })
    }
}

impl Item for Export {
    ghost reading = { export_at };

    #[tactic(auto, unfolding(crate::specs::Parts::export_at))]
    fn read(alloc: Global, cursor: &mut Cursor<'_>) -> Result<Export, DecodeFault> {
        let name = cursor.name(alloc)?;
        let kind = read_export_kind(cursor)?;
        let index = cursor.u32()?;
        Ok(Export { name, kind, index })
    }
}

impl Item for Element {
    ghost reading = { element_at };

    #[tactic(auto, unfolding(crate::specs::Parts::element_at))]
    fn read(alloc: Global, cursor: &mut Cursor<'_>) -> Result<Element, DecodeFault> {
        let table = cursor.u32()?;
        let offset = read_const_expr(cursor)?;
        let funcs = read_list(alloc, cursor)?;
        Ok(Element {
            table,
            offset,
            funcs,
        })
    }
}

impl Item for Segment {
    ghost reading = { segment_at };

    #[tactic(auto, unfolding(crate::specs::Parts::segment_at))]
    fn read(alloc: Global, cursor: &mut Cursor<'_>) -> Result<Segment, DecodeFault> {
        let memory = cursor.u32()?;
        let offset = read_const_expr(cursor)?;
        let bytes = cursor.blob(alloc)?;
        Ok(Segment {
            memory,
            offset,
            bytes,
        })
    }
}
