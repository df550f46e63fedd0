//! Texts that another tool wrote, without its comments on labels, or that a hand wrote. No text is the program's own.

use nr_config::Config;
use nr_wasmbin::decode;
use nr_wat::write_text;
use std::alloc::Global;
use std::test::Fail;

/// A function that has each instruction, in the order of the opcodes, valid or not.
const EACH_NAME: [u8; 227] = [
    0, 97, 115, 109, 1, 0, 0, 0, 1, 4, 1, 96, 0, 0, 3, 2, 1, 0, 4, 4, 1, 112, 0, 1, 5, 3, 1, 0, 1,
    6, 6, 1, 127, 1, 65, 0, 11, 10, 187, 1, 1, 184, 1, 1, 3, 126, 0, 1, 2, 64, 3, 126, 12, 0, 13,
    1, 14, 2, 0, 1, 2, 14, 0, 2, 15, 11, 11, 4, 127, 1, 5, 1, 11, 4, 64, 5, 1, 11, 4, 64, 1, 11,
    16, 0, 17, 0, 0, 26, 27, 32, 0, 33, 1, 34, 2, 35, 0, 36, 0, 40, 2, 0, 41, 3, 0, 44, 0, 0, 45,
    0, 0, 46, 1, 0, 47, 1, 0, 48, 0, 0, 49, 0, 0, 50, 1, 0, 51, 1, 0, 52, 2, 0, 53, 2, 0, 54, 2, 0,
    55, 3, 0, 58, 0, 0, 59, 1, 0, 60, 0, 0, 61, 1, 0, 62, 2, 0, 63, 0, 64, 0, 65, 127, 66, 128,
    127, 69, 70, 71, 72, 73, 74, 75, 76, 77, 78, 79, 80, 81, 82, 83, 84, 85, 86, 87, 88, 89, 90,
    103, 104, 105, 106, 107, 108, 109, 110, 111, 112, 113, 114, 115, 116, 117, 118, 119, 120, 121,
    122, 123, 124, 125, 126, 127, 128, 129, 130, 131, 132, 133, 134, 135, 136, 137, 138, 167, 172,
    173, 11,
];

/// What `wasm2wat` writes of it, without comments on labels.
const EACH_NAME_TEXT: &str = "(module
  (type (;0;) (func))
  (func (;0;) (type 0)
    (local i64 i64 i64)
    unreachable
    nop
    block
      loop (result i64)
        br 0
        br_if 1
        br_table 0 1 2
        br_table 2
        return
      end
    end
    if (result i32)
      nop
    else
      nop
    end
    if
    else
      nop
    end
    if
      nop
    end
    call 0
    call_indirect (type 0)
    drop
    select
    local.get 0
    local.set 1
    local.tee 2
    global.get 0
    global.set 0
    i32.load
    i64.load
    i32.load8_s
    i32.load8_u
    i32.load16_s
    i32.load16_u
    i64.load8_s
    i64.load8_u
    i64.load16_s
    i64.load16_u
    i64.load32_s
    i64.load32_u
    i32.store
    i64.store
    i32.store8
    i32.store16
    i64.store8
    i64.store16
    i64.store32
    memory.size
    memory.grow
    i32.const -1
    i64.const -128
    i32.eqz
    i32.eq
    i32.ne
    i32.lt_s
    i32.lt_u
    i32.gt_s
    i32.gt_u
    i32.le_s
    i32.le_u
    i32.ge_s
    i32.ge_u
    i64.eqz
    i64.eq
    i64.ne
    i64.lt_s
    i64.lt_u
    i64.gt_s
    i64.gt_u
    i64.le_s
    i64.le_u
    i64.ge_s
    i64.ge_u
    i32.clz
    i32.ctz
    i32.popcnt
    i32.add
    i32.sub
    i32.mul
    i32.div_s
    i32.div_u
    i32.rem_s
    i32.rem_u
    i32.and
    i32.or
    i32.xor
    i32.shl
    i32.shr_s
    i32.shr_u
    i32.rotl
    i32.rotr
    i64.clz
    i64.ctz
    i64.popcnt
    i64.add
    i64.sub
    i64.mul
    i64.div_s
    i64.div_u
    i64.rem_s
    i64.rem_u
    i64.and
    i64.or
    i64.xor
    i64.shl
    i64.shr_s
    i64.shr_u
    i64.rotl
    i64.rotr
    i32.wrap_i64
    i64.extend_i32_s
    i64.extend_i32_u)
  (table (;0;) 1 funcref)
  (memory (;0;) 1)
  (global (;0;) (mut i32) (i32.const 0)))
";

/// A module with each kind of field.
const EACH_FIELD: [u8; 223] = [
    0, 97, 115, 109, 1, 0, 0, 0, 1, 14, 3, 96, 2, 126, 127, 1, 127, 96, 0, 0, 96, 1, 126, 0, 2, 20,
    1, 3, 101, 110, 118, 12, 105, 110, 34, 112, 117, 116, 92, 32, 195, 169, 32, 0, 0, 2, 3, 3, 2,
    0, 1, 4, 5, 1, 112, 1, 3, 8, 5, 3, 1, 0, 1, 6, 11, 2, 127, 0, 65, 5, 11, 126, 1, 66, 123, 11,
    7, 19, 4, 3, 97, 32, 98, 0, 1, 1, 109, 2, 0, 1, 116, 1, 0, 1, 103, 3, 0, 9, 13, 2, 0, 65, 1,
    11, 2, 1, 2, 0, 65, 1, 11, 0, 10, 91, 2, 86, 2, 1, 127, 2, 126, 32, 1, 4, 127, 65, 127, 5, 65,
    255, 255, 255, 255, 7, 11, 26, 2, 64, 3, 64, 12, 0, 65, 0, 13, 1, 11, 65, 0, 14, 2, 0, 0, 0,
    11, 65, 0, 44, 0, 4, 26, 65, 0, 41, 2, 0, 26, 65, 0, 41, 3, 0, 26, 65, 2, 17, 1, 0, 65, 0, 4,
    64, 1, 11, 66, 128, 128, 128, 128, 128, 128, 128, 128, 128, 127, 26, 63, 0, 64, 0, 0, 11, 2, 0,
    11, 11, 16, 1, 0, 65, 3, 11, 10, 97, 98, 0, 34, 32, 126, 127, 128, 255, 92,
];

/// What `wasm2wat` writes of it, without comments on labels, and without `func` in elements.
const EACH_FIELD_TEXT: &str = "(module
  (type (;0;) (func (param i64 i32) (result i32)))
  (type (;1;) (func))
  (type (;2;) (func (param i64)))
  (import \"env\" \"in\\22put\\5c \\c3\\a9 \\00\" (func (;0;) (type 2)))
  (func (;1;) (type 0) (param i64 i32) (result i32)
    (local i32 i64 i64)
    local.get 1
    if (result i32)
      i32.const -1
    else
      i32.const 2147483647
    end
    drop
    block
      loop
        br 0
        i32.const 0
        br_if 1
      end
      i32.const 0
      br_table 0 0 0
    end
    i32.const 0
    i32.load8_s offset=4
    drop
    i32.const 0
    i64.load align=4
    drop
    i32.const 0
    i64.load
    drop
    i32.const 2
    call_indirect (type 1)
    i32.const 0
    if
      nop
    end
    i64.const -9223372036854775808
    drop
    memory.size
    memory.grow
    unreachable)
  (func (;2;) (type 1))
  (table (;0;) 3 8 funcref)
  (memory (;0;) 1)
  (global (;0;) i32 (i32.const 5))
  (global (;1;) (mut i64) (i64.const -5))
  (export \"a b\" (func 1))
  (export \"m\" (memory 0))
  (export \"t\" (table 0))
  (export \"g\" (global 0))
  (elem (;0;) (i32.const 1) 1 2)
  (elem (;1;) (i32.const 1))
  (data (;0;) (i32.const 3) \"ab\\00\\22 ~\\7f\\80\\ff\\5c\"))
";

/// What no contract has: imports that aren't functions, an alignment that the text format lacks, other tables
/// and memories than the first, a function without a type.
const LOST: [u8; 125] = [
    0, 97, 115, 109, 1, 0, 0, 0, 1, 6, 1, 96, 1, 127, 1, 126, 2, 50, 5, 3, 101, 110, 118, 6, 116,
    97, 98, 32, 108, 101, 1, 112, 0, 1, 3, 101, 110, 118, 1, 102, 0, 0, 3, 101, 110, 118, 1, 109,
    2, 0, 1, 3, 101, 110, 118, 1, 103, 3, 127, 0, 3, 101, 110, 118, 1, 104, 0, 0, 3, 3, 2, 0, 9, 9,
    9, 1, 1, 35, 0, 11, 2, 0, 128, 1, 10, 24, 2, 19, 0, 40, 31, 0, 40, 32, 5, 54, 255, 1, 0, 41, 3,
    128, 128, 128, 128, 8, 11, 2, 0, 11, 11, 13, 1, 2, 66, 127, 11, 7, 0, 34, 92, 32, 126, 127,
    255,
];

/// Its text, by hand.
const LOST_TEXT: &str = "(module
  (type (;0;) (func (param i32) (result i64)))
  (import \"env\" \"tab le\" (table (;its type isn't kept;)))
  (import \"env\" \"f\" (func (;0;) (type 0)))
  (import \"env\" \"m\" (memory (;its type isn't kept;)))
  (import \"env\" \"g\" (global (;its type isn't kept;)))
  (import \"env\" \"h\" (func (;1;) (type 0)))
  (func (;2;) (type 0) (param i32) (result i64)
    i32.load align=2147483648
    i32.load offset=5 align=(;above 2147483648;)
    i32.store align=(;above 2147483648;)
    i64.load offset=2147483648)
  (func (;3;) (type 9))
  (elem (;0;) 1 (global.get 0) 0 128)
  (data (;0;) 2 (i64.const -1) \"\\00\\22\\5c ~\\7f\\ff\"))
";

/// Whether the text of the module that these bytes are is this one.
fn is_text(alloc: Global, bytes: &[u8], text: &str) -> Result<bool, Fail> {
    match decode(alloc, bytes, &Config::free()) {
        Ok(module) => Ok(write_text(alloc, &module)?.as_str() == text),
        Err(_) => Ok(false),
    }
}

#[test]
fn each_instruction_has_its_name(rt: HostRuntime) -> Result<(), Fail> {
    assert!(rt; is_text(rt.alloc(), &EACH_NAME, EACH_NAME_TEXT)?);
    Ok(())
}

#[test]
fn each_field_has_its_line(rt: HostRuntime) -> Result<(), Fail> {
    assert!(rt; is_text(rt.alloc(), &EACH_FIELD, EACH_FIELD_TEXT)?);
    assert!(rt; is_text(rt.alloc(), b"\0asm\x01\0\0\0", "(module)\n")?);
    Ok(())
}

#[test]
fn what_a_module_lacks_is_a_comment(rt: HostRuntime) -> Result<(), Fail> {
    assert!(rt; is_text(rt.alloc(), &LOST, LOST_TEXT)?);
    Ok(())
}
