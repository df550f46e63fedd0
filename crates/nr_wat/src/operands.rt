//! Instructions that hold no others.

ghost use Rattle.std.specs.Prelude.{◌≡◌, ◌++◌, OnOk, string_bytes};
ghost use Rattle.nr_wat.specs.Instructions.{align_text, offset_text, operands_text, plain_text, power_text};

use crate::names::{op_of, push_name};
use crate::pieces::{push_number, push_numbers, push_signed32, push_signed64, push_type_use};
use nr_wasmtypes::Plain;
use std::alloc::AllocError;
use std::fmt::Write;

/// Adds an alignment by its power of two.
fn push_power(align: u8, text: &mut String) -> Result<(), AllocError>
    ensures { OnOk result (string_bytes text.new ≡ string_bytes text.old ++ power_text align) }
{
    if align <= 31 {
        let bytes = 1_u64 << align;
        write!(text, "{bytes}")
    } else {
        text.push_str("(;above 2147483648;)")
    }
}

/// Adds an offset that isn't 0.
fn push_offset(offset: u32, text: &mut String) -> Result<(), AllocError>
    ensures { OnOk result (string_bytes text.new ≡ string_bytes text.old ++ offset_text offset) }
{
    if offset == 0 {
        return Ok(());
    }
    write!(text, " offset={offset}")
}

/// Adds an alignment that isn't the natural one.
fn push_align(natural: u8, align: u8, text: &mut String) -> Result<(), AllocError>
    ensures { OnOk result (string_bytes text.new ≡ string_bytes text.old ++ align_text natural align) }
{
    if align == natural {
        return Ok(());
    }
    text.push_str(" align=")?;
    push_power(align, text)
}

/// Adds the operands of an instruction, each behind a space.
fn push_operands(plain: &Plain, text: &mut String) -> Result<(), AllocError>
    ensures { OnOk result (string_bytes text.new ≡ string_bytes text.old ++ operands_text plain.now) }
{
    match plain {
        Plain::Br(label) => push_number(*label, text),
        Plain::BrIf(label) => push_number(*label, text),
        Plain::Call(function) => push_number(*function, text),
        Plain::LocalGet(local) => push_number(*local, text),
        Plain::LocalSet(local) => push_number(*local, text),
        Plain::LocalTee(local) => push_number(*local, text),
        Plain::GlobalGet(global) => push_number(*global, text),
        Plain::GlobalSet(global) => push_number(*global, text),
        Plain::BrTable(labels) => {
            push_numbers(labels.labels(), text)?;
            push_number(labels.other(), text)
        }
        Plain::CallIndirect(number) => push_type_use(*number, text),
        Plain::Load(load, align, offset) => {
            push_offset(*offset, text)?;
            push_align(load.align(), *align, text)
        }
        Plain::Store(store, align, offset) => {
            push_offset(*offset, text)?;
            push_align(store.align(), *align, text)
        }
        Plain::Const32(number) => {
            text.push_str(" ")?;
            push_signed32(*number, text)
        }
        Plain::Const64(number) => {
            text.push_str(" ")?;
            push_signed64(*number, text)
        }
        _ => Ok(()),
    }
}

/// Adds an instruction that holds no others.
///
/// # Errors
///
/// Where memory runs out.
pub(crate) fn push_plain(plain: &Plain, text: &mut String) -> Result<(), AllocError>
    ensures { OnOk result (string_bytes text.new ≡ string_bytes text.old ++ plain_text plain.now) }
{
    push_name(op_of(plain), text)?;
    push_operands(plain, text)
}
