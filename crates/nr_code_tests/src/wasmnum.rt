//! Values from outside: most are those of the standard's own test suite.

use nr_wasmnum::{BinOp, NumFault, UnOp, binary, count_bits, extend_load, unary};
use nr_wasmtypes::{Arith, Compare, Convert, Count, Load, ValType};
use std::test::Fail;

/// An operation on numbers of the type i32, its operands and its result.
static SHORT: [(Arith, u64, u64, u64); 35] = [
    (Arith::Add, 0x7fff_ffff, 1, 0x8000_0000),
    (Arith::Add, 0x8000_0000, 0xffff_ffff, 0x7fff_ffff),
    (Arith::Sub, 0x8000_0000, 1, 0x7fff_ffff),
    (Arith::Sub, 0, 0x8000_0000, 0x8000_0000),
    (Arith::Mul, 0x123_4567, 0x7654_3210, 0x358e_7470),
    (Arith::Mul, 0x7fff_ffff, 0x7fff_ffff, 1),
    (Arith::DivS, 0x8000_0000, 2, 0xc000_0000),
    (Arith::DivS, 0x8000_0001, 0x3e8, 0xffdf_3b65),
    (Arith::DivS, 7, 0xffff_fffd, 0xffff_fffe),
    (Arith::DivU, 0x8000_0000, 0xffff_ffff, 0),
    (Arith::DivU, 0x8ff0_0ff0, 0x1_0001, 0x8fef),
    (Arith::RemS, 0x8000_0000, 0xffff_ffff, 0),
    (Arith::RemS, 0x8000_0001, 0x3e8, 0xffff_fd79),
    (Arith::RemS, 7, 0xffff_fffd, 1),
    (Arith::RemS, 0xffff_fff9, 3, 0xffff_ffff),
    (Arith::RemU, 0x8000_0000, 0xffff_ffff, 0x8000_0000),
    (Arith::RemU, 0x8ff0_0ff0, 0x1_0001, 0x8001),
    (Arith::And, 0xf0f0_ffff, 0xffff_f0f0, 0xf0f0_f0f0),
    (Arith::Or, 0xf0f0_ffff, 0xffff_f0f0, 0xffff_ffff),
    (Arith::Xor, 0xf0f0_ffff, 0xffff_f0f0, 0xf0f_0f0f),
    (Arith::Shl, 1, 0x21, 2),
    (Arith::Shl, 1, 0x7fff_ffff, 0x8000_0000),
    (Arith::Shl, 1, 0x20, 1),
    (Arith::ShrS, 0x8000_0000, 0x1f, 0xffff_ffff),
    (Arith::ShrS, 0x8000_0000, 0x21, 0xc000_0000),
    (Arith::ShrS, 0x4000_0000, 1, 0x2000_0000),
    (Arith::ShrU, 0x8000_0000, 0x1f, 1),
    (Arith::ShrU, 0xffff_ffff, 0x21, 0x7fff_ffff),
    (Arith::Rotl, 0xabcd_9876, 1, 0x579b_30ed),
    (Arith::Rotl, 0x769a_bcdf, 0xffff_ffed, 0x579b_eed3),
    (Arith::Rotl, 0xabcd_9876, 0x20, 0xabcd_9876),
    (Arith::Rotr, 0xb0c1_d2e3, 0xff05, 0x1d86_0e97),
    (Arith::Rotr, 0x769a_bcdf, 0xffff_ffed, 0xe6fb_b4d5),
    (Arith::Rotr, 1, 1, 0x8000_0000),
    (Arith::Add, 0x5_0000_0001, 0x7_0000_0001, 2),
];

/// The same of the type i64.
static LONG: [(Arith, u64, u64, u64); 23] = [
    (Arith::Add, 0x7fff_ffff_ffff_ffff, 1, 0x8000_0000_0000_0000),
    (Arith::Sub, 0x8000_0000_0000_0000, 1, 0x7fff_ffff_ffff_ffff),
    (
        Arith::Mul,
        0x123_4567_89ab_cdef,
        0xfedc_ba98_7654_3210,
        0x2236_d88f_e561_8cf0,
    ),
    (Arith::DivS, 0x8000_0000_0000_0000, 2, 0xc000_0000_0000_0000),
    (
        Arith::DivS,
        0x8000_0000_0000_0001,
        0x3e8,
        0xffdf_3b64_5a1c_ac09,
    ),
    (
        Arith::DivU,
        0x8ff0_0ff0_0ff0_0ff0,
        0x1_0000_0001,
        0x8ff0_0fef,
    ),
    (Arith::RemS, 0x8000_0000_0000_0000, 0xffff_ffff_ffff_ffff, 0),
    (
        Arith::RemS,
        0x8000_0000_0000_0001,
        0x3e8,
        0xffff_ffff_ffff_fcd9,
    ),
    (
        Arith::RemU,
        0x8ff0_0ff0_0ff0_0ff0,
        0x1_0000_0001,
        0x8000_0001,
    ),
    (Arith::And, 0xf0f0_ffff, 0xffff_f0f0, 0xf0f0_f0f0),
    (Arith::Or, 0xf0f0_ffff, 0xffff_f0f0, 0xffff_ffff),
    (Arith::Xor, 0xf0f0_ffff, 0xffff_f0f0, 0xf0f_0f0f),
    (Arith::Shl, 1, 0x41, 2),
    (Arith::Shl, 1, 0x7fff_ffff_ffff_ffff, 0x8000_0000_0000_0000),
    (
        Arith::ShrS,
        0x8000_0000_0000_0000,
        0x3f,
        0xffff_ffff_ffff_ffff,
    ),
    (
        Arith::ShrS,
        0x8000_0000_0000_0000,
        0x41,
        0xc000_0000_0000_0000,
    ),
    (Arith::ShrU, 0x8000_0000_0000_0000, 0x3f, 1),
    (
        Arith::ShrU,
        0xffff_ffff_ffff_ffff,
        0x41,
        0x7fff_ffff_ffff_ffff,
    ),
    (Arith::Rotl, 0xabcd_9876_0246_8ace, 1, 0x579b_30ec_048d_159d),
    (Arith::Rotl, 0xabcd_9876, 0x40, 0xabcd_9876),
    (Arith::Rotr, 0xabcd_9876_0246_8ace, 1, 0x55e6_cc3b_0123_4567),
    (Arith::Rotr, 0x6_abcd_9876, 0x40, 0x6_abcd_9876),
    (Arith::Rotr, 1, 1, 0x8000_0000_0000_0000),
];

#[test]
fn arithmetic_has_the_values_of_the_standard(rt: HostRuntime) -> Result<(), Fail> {
    for (op, a, b, value) in &SHORT {
        let op = BinOp::Arith(ValType::I32, *op);
        assert_eq!(rt; binary(op, *a, *b), Ok(*value));
    }
    for (op, a, b, value) in &LONG {
        let op = BinOp::Arith(ValType::I64, *op);
        assert_eq!(rt; binary(op, *a, *b), Ok(*value));
    }
    Ok(())
}

/// A division that has no result.
static REFUSED: [(ValType, Arith, u64, u64, NumFault); 8] = [
    (
        ValType::I32,
        Arith::DivS,
        0x8000_0000,
        0xffff_ffff,
        NumFault::Overflow,
    ),
    (ValType::I32, Arith::DivS, 0x8000_0000, 0, NumFault::ByZero),
    (ValType::I32, Arith::DivU, 1, 0, NumFault::ByZero),
    (
        ValType::I32,
        Arith::RemS,
        1,
        0x1_0000_0000,
        NumFault::ByZero,
    ),
    (
        ValType::I64,
        Arith::DivS,
        0x8000_0000_0000_0000,
        u64::MAX,
        NumFault::Overflow,
    ),
    (ValType::I64, Arith::DivU, 1, 0, NumFault::ByZero),
    (ValType::I64, Arith::RemS, 0, 0, NumFault::ByZero),
    (ValType::I64, Arith::RemU, u64::MAX, 0, NumFault::ByZero),
];

#[test]
fn some_divisions_have_no_result(rt: HostRuntime) -> Result<(), Fail> {
    for (kind, op, a, b, fault) in &REFUSED {
        let op = BinOp::Arith(*kind, *op);
        assert_eq!(rt; binary(op, *a, *b), Err(*fault));
    }
    Ok(())
}

/// A comparison; whether it holds of the least signed number and 1, and of a number and itself, at i32 and
/// at i64.
static COMPARED: [(Compare, [u64; 2], [u64; 2]); 10] = [
    (Compare::Equal, [0, 1], [0, 1]),
    (Compare::NotEqual, [1, 0], [1, 0]),
    (Compare::LtS, [1, 0], [1, 0]),
    (Compare::LtU, [0, 0], [0, 0]),
    (Compare::GtS, [0, 0], [0, 0]),
    (Compare::GtU, [1, 0], [1, 0]),
    (Compare::LeS, [1, 1], [1, 1]),
    (Compare::LeU, [0, 1], [0, 1]),
    (Compare::GeS, [0, 1], [0, 1]),
    (Compare::GeU, [1, 1], [1, 1]),
];

#[test]
fn comparisons_read_signs(rt: HostRuntime) -> Result<(), Fail> {
    for (op, short, long) in &COMPARED {
        let on_short = BinOp::Compare(ValType::I32, *op);
        assert_eq!(rt; binary(on_short, 0x8000_0000, 1), Ok(short[0]));
        assert_eq!(rt; binary(on_short, 1, 0x1_0000_0001), Ok(short[1]));
        let on_long = BinOp::Compare(ValType::I64, *op);
        assert_eq!(rt; binary(on_long, 0x8000_0000_0000_0000, 1), Ok(long[0]));
        assert_eq!(rt; binary(on_long, 7, 7), Ok(long[1]));
    }
    Ok(())
}

/// A number, its leading and trailing zeros, and its ones.
static COUNTED: [(ValType, u64, u64, u64, u64); 8] = [
    (ValType::I32, 0, 32, 32, 0),
    (ValType::I32, 0x8000, 16, 15, 1),
    (ValType::I32, 0xdead_beef, 0, 0, 24),
    (ValType::I32, 0x1_0000_0000, 32, 32, 0),
    (ValType::I64, 0, 64, 64, 0),
    (ValType::I64, 0x8000, 48, 15, 1),
    (ValType::I64, 0xdead_beef_dead_beef, 0, 0, 48),
    (ValType::I64, 0x8000_0000_0000_0000, 0, 63, 1),
];

#[test]
fn bits_are_counted(rt: HostRuntime) -> Result<(), Fail> {
    for (kind, a, leading, trailing, ones) in &COUNTED {
        assert_eq!(rt; count_bits(*kind, Count::Clz, *a), *leading);
        assert_eq!(rt; count_bits(*kind, Count::Ctz, *a), *trailing);
        assert_eq!(rt; count_bits(*kind, Count::Popcnt, *a), *ones);
    }
    Ok(())
}

/// An operation on one number, the number and the result.
static CHANGED: [(UnOp, u64, u64); 8] = [
    (UnOp::IsZero(ValType::I32), 0x1_0000_0000, 1),
    (UnOp::IsZero(ValType::I64), 0x1_0000_0000, 0),
    (UnOp::IsZero(ValType::I64), 0, 1),
    (UnOp::Count(ValType::I32, Count::Clz), 1, 0x1f),
    (
        UnOp::Convert(Convert::Wrap),
        0xfedc_ba98_7654_3210,
        0x7654_3210,
    ),
    (
        UnOp::Convert(Convert::ExtendS),
        0x8000_0000,
        0xffff_ffff_8000_0000,
    ),
    (UnOp::Convert(Convert::ExtendS), 0x1_7fff_ffff, 0x7fff_ffff),
    (UnOp::Convert(Convert::ExtendU), 0x1_8000_0000, 0x8000_0000),
];

/// What each load makes of the bytes F5 B3 FE CA 98 BA DC FE.
static LOADED: [(Load, u64); 12] = [
    (Load::Full32, 0xcafe_b3f5),
    (Load::Full64, 0xfedc_ba98_cafe_b3f5),
    (Load::Signed8To32, 0xffff_fff5),
    (Load::Unsigned8To32, 0xf5),
    (Load::Signed16To32, 0xffff_b3f5),
    (Load::Unsigned16To32, 0xb3f5),
    (Load::Signed8To64, 0xffff_ffff_ffff_fff5),
    (Load::Unsigned8To64, 0xf5),
    (Load::Signed16To64, 0xffff_ffff_ffff_b3f5),
    (Load::Unsigned16To64, 0xb3f5),
    (Load::Signed32To64, 0xffff_ffff_cafe_b3f5),
    (Load::Unsigned32To64, 0xcafe_b3f5),
];

#[test]
fn types_are_changed(rt: HostRuntime) -> Result<(), Fail> {
    for (op, a, value) in &CHANGED {
        assert_eq!(rt; unary(*op, *a), *value);
    }
    for (what, value) in &LOADED {
        assert_eq!(rt; extend_load(*what, 0xfedc_ba98_cafe_b3f5), *value);
    }
    Ok(())
}
