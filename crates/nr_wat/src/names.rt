//! The names of instructions.

ghost use Rattle.std.specs.Prelude.{◌≡◌, ◌++◌, OnOk, string_bytes};
ghost use Rattle.nr_wasmbin.specs.Grammar.{plain_op};
ghost use Rattle.nr_wat.specs.Names.{arith_word, compare_word, convert_name, count_word, load_name, name_of};
ghost use Rattle.nr_wat.specs.Names.{store_name, type_name, typed, whole_name};

use nr_wasmtypes::{Arith, Compare, Convert, Count, Load, Op, Plain, Store, ValType};
use std::alloc::AllocError;
use std::fmt::Write;

pub(crate) fn type_name(kind: ValType) -> &'static str
    ensures { result.now ≡ type_name kind }
{
    match kind {
        ValType::I32 => "i32",
        ValType::I64 => "i64",
    }
}

fn load_name(load: Load) -> &'static str
    ensures { result.now ≡ load_name load }
{
    match load {
        Load::Full32 => "i32.load",
        Load::Full64 => "i64.load",
        Load::Signed8To32 => "i32.load8_s",
        Load::Unsigned8To32 => "i32.load8_u",
        Load::Signed16To32 => "i32.load16_s",
        Load::Unsigned16To32 => "i32.load16_u",
        Load::Signed8To64 => "i64.load8_s",
        Load::Unsigned8To64 => "i64.load8_u",
        Load::Signed16To64 => "i64.load16_s",
        Load::Unsigned16To64 => "i64.load16_u",
        Load::Signed32To64 => "i64.load32_s",
        Load::Unsigned32To64 => "i64.load32_u",
    }
}

fn store_name(store: Store) -> &'static str
    ensures { result.now ≡ store_name store }
{
    match store {
        Store::Full32 => "i32.store",
        Store::Full64 => "i64.store",
        Store::Low8Of32 => "i32.store8",
        Store::Low16Of32 => "i32.store16",
        Store::Low8Of64 => "i64.store8",
        Store::Low16Of64 => "i64.store16",
        Store::Low32Of64 => "i64.store32",
    }
}

fn compare_word(how: Compare) -> &'static str
    ensures { result.now ≡ compare_word how }
{
    match how {
        Compare::Equal => "eq",
        Compare::NotEqual => "ne",
        Compare::LtS => "lt_s",
        Compare::LtU => "lt_u",
        Compare::GtS => "gt_s",
        Compare::GtU => "gt_u",
        Compare::LeS => "le_s",
        Compare::LeU => "le_u",
        Compare::GeS => "ge_s",
        Compare::GeU => "ge_u",
    }
}

fn count_word(how: Count) -> &'static str
    ensures { result.now ≡ count_word how }
{
    match how {
        Count::Clz => "clz",
        Count::Ctz => "ctz",
        Count::Popcnt => "popcnt",
    }
}

fn arith_word(how: Arith) -> &'static str
    ensures { result.now ≡ arith_word how }
{
    match how {
        Arith::Add => "add",
        Arith::Sub => "sub",
        Arith::Mul => "mul",
        Arith::DivS => "div_s",
        Arith::DivU => "div_u",
        Arith::RemS => "rem_s",
        Arith::RemU => "rem_u",
        Arith::And => "and",
        Arith::Or => "or",
        Arith::Xor => "xor",
        Arith::Shl => "shl",
        Arith::ShrS => "shr_s",
        Arith::ShrU => "shr_u",
        Arith::Rotl => "rotl",
        Arith::Rotr => "rotr",
    }
}

fn convert_name(how: Convert) -> &'static str
    ensures { result.now ≡ convert_name how }
{
    match how {
        Convert::Wrap => "i32.wrap_i64",
        Convert::ExtendS => "i64.extend_i32_s",
        Convert::ExtendU => "i64.extend_i32_u",
    }
}

/// The name of what is one word, or none where the name is made of a type and a word, or where there is none.
fn whole_name(op: Op) -> &'static str
    ensures { result.now ≡ whole_name op }
{
    match op {
        Op::Unreachable => "unreachable",
        Op::Nop => "nop",
        Op::Block => "block",
        Op::Loop => "loop",
        Op::If => "if",
        Op::Else => "else",
        Op::End => "end",
        Op::Br => "br",
        Op::BrIf => "br_if",
        Op::BrTable => "br_table",
        Op::Return => "return",
        Op::Call => "call",
        Op::CallIndirect => "call_indirect",
        Op::Drop => "drop",
        Op::Select => "select",
        Op::LocalGet => "local.get",
        Op::LocalSet => "local.set",
        Op::LocalTee => "local.tee",
        Op::GlobalGet => "global.get",
        Op::GlobalSet => "global.set",
        Op::Load(load) => load_name(load),
        Op::Store(store) => store_name(store),
        Op::MemorySize => "memory.size",
        Op::MemoryGrow => "memory.grow",
        Op::Const32 => "i32.const",
        Op::Const64 => "i64.const",
        Op::Convert(how) => convert_name(how),
        _ => "",
    }
}

/// Adds a type, a dot and a word.
fn push_typed(kind: ValType, word: &str, text: &mut String) -> Result<(), AllocError>
    ensures { OnOk result (string_bytes text.new ≡ string_bytes text.old ++ typed kind word.now) }
{
    let kind = type_name(kind);
    write!(text, "{kind}.{word}")
}

/// Adds the name of what an opcode stands for.
///
/// # Errors
///
/// Where memory runs out.
pub(crate) fn push_name(op: Op, text: &mut String) -> Result<(), AllocError>
    ensures { OnOk result (string_bytes text.new ≡ string_bytes text.old ++ name_of op) }
{
    match op {
        Op::IsZero(kind) => push_typed(kind, "eqz", text),
        Op::Compare(kind, how) => push_typed(kind, compare_word(how), text),
        Op::Count(kind, how) => push_typed(kind, count_word(how), text),
        Op::Arith(kind, how) => push_typed(kind, arith_word(how), text),
        _ => text.push_str(whole_name(op)),
    }
}

/// What stands for an instruction that holds no others, without its operands.
pub(crate) fn op_of(plain: &Plain) -> Op
    ensures { result ≡ plain_op plain.now }
{
    match plain {
        Plain::Unreachable => Op::Unreachable,
        Plain::Nop => Op::Nop,
        Plain::Br(_) => Op::Br,
        Plain::BrIf(_) => Op::BrIf,
        Plain::BrTable(_) => Op::BrTable,
        Plain::Return => Op::Return,
        Plain::Call(_) => Op::Call,
        Plain::CallIndirect(_) => Op::CallIndirect,
        Plain::Drop => Op::Drop,
        Plain::Select => Op::Select,
        Plain::LocalGet(_) => Op::LocalGet,
        Plain::LocalSet(_) => Op::LocalSet,
        Plain::LocalTee(_) => Op::LocalTee,
        Plain::GlobalGet(_) => Op::GlobalGet,
        Plain::GlobalSet(_) => Op::GlobalSet,
        Plain::Load(load, _, _) => Op::Load(*load),
        Plain::Store(store, _, _) => Op::Store(*store),
        Plain::MemorySize => Op::MemorySize,
        Plain::MemoryGrow => Op::MemoryGrow,
        Plain::Const32(_) => Op::Const32,
        Plain::Const64(_) => Op::Const64,
        Plain::IsZero(kind) => Op::IsZero(*kind),
        Plain::Count(kind, how) => Op::Count(*kind, *how),
        Plain::Compare(kind, how) => Op::Compare(*kind, *how),
        Plain::Arith(kind, how) => Op::Arith(*kind, *how),
        Plain::Convert(how) => Op::Convert(*how),
    }
}
