//! The contract of a generated chain, as the bytes of a WebAssembly module.

ghost use Rattle.std.specs.Prelude.{◌≡◌, ◌<◌, ◌≤◌, ◌++◌, IfOk, OnOk};
ghost use Rattle.nr_gen.specs.Code.{code_section, contract_code, filler_body, front, function_section, i64_add};
ghost use Rattle.nr_gen.specs.Code.{i64_const};
ghost use Rattle.nr_gen.specs.Turns.{joined_below};

use nr_bytes::Blob;
use std::alloc::{AllocError, Global};

/// The magic word and the version.
const MAGIC: [u8; 8] = *b"\0asm\x01\0\0\0";

/// The section of types, from no parameters to nine.
const TYPES: [u8; 67] = *b"\
    \x01A\x09`\0\0`\x01~\0`\x02~~\0`\x01~\x01~`\x02~~\x01~`\x03~~~\x01~`\x05~~~~~\x01~\
    `\x08~~~~~~~~\x01~`\x09~~~~~~~~~\x01~\
";

/// The section of the functions of the host that are called.
const IMPORTS: [u8; 180] = *b"\
    \x02\xb1\x01\x09\x03env\x05input\0\x01\x03env\x0dread_register\0\x02\
    \x03env\x12current_account_id\0\x01\x03env\x0cvalue_return\0\x02\
    \x03env\x0epromise_result\0\x04\x03env\x0cstorage_read\0\x05\
    \x03env\x0dstorage_write\0\x06\x03env\x0epromise_create\0\x07\x03env\x0cpromise_then\0\x08\
";

/// The section of functions up to the types of the fillers: its size, how many functions there are,
/// and the types of `send`, `recv` and `done`.
const FUNCTIONS: [u8; 8] = *b"\x03\xc1\x05\xbf\x05\0\0\0";

/// The section of memories.
const MEMORY: [u8; 5] = *b"\x05\x03\x01\0\x01";

/// The section of exports.
const EXPORTS: [u8; 24] = *b"\x07\x16\x03\x04send\0\x09\x04recv\0\x0a\x04done\0\x0b";

/// The begin of the section of bodies: its size, and how many there are.
const BODIES: [u8; 6] = *b"\x0a\xea\xd1\x03\xbf\x05";

/// The body of `send`.
const SEND: [u8; 54] = *b"\
    5\0B\0\x10\0B\x7fB\0B\x04B\0B\0B\0B\xc0\0B\xa0\xc2\x1e\x10\x07B\x01\x10\x02B\x7fB\x01B\x04\
    B\x08B\0B\0B\xc0\0B\xa0\xc2\x1e\x10\x08\x1a\x0b\
";

/// The body of `recv`.
const RECV: [u8; 54] = *b"\
    5\0B\x01B\x10B\x02\x10\x05P\x04@\x05B\x02B \x10\x01\x0bA A )\x03\0B\x01|7\x03\0B\x01B\x10B\x08\
    B B\x03\x10\x06\x1aB\x08B \x10\x03\x0b\
";

/// The body of `done`.
const DONE: [u8; 16] = *b"\x0f\0B\0B\x04\x10\x04B\x01R\x04@\0\x0b\x0b";

/// The section of what stands in memory at first.
const DATA: [u8; 25] = *b"\x0b\x17\x01\0A\0\x0b\x11recv\0\0\0\0done\0\0\0\0n";

/// How many fillers there are.
const FILLERS: u32 = 700;

/// Adds the sections before the bodies.
fn put_front(code: &mut Vec<u8>) -> Result<(), AllocError>
    ensures { OnOk result (code.new.items ≡ code.old.items ++ front) }
{
    code.extend_from_slice(&MAGIC)?;
    code.extend_from_slice(&TYPES)?;
    code.extend_from_slice(&IMPORTS)?;
    put_functions(code)?;
    code.extend_from_slice(&MEMORY)?;
    code.extend_from_slice(&EXPORTS)?;
    Ok(())
}

fn put_functions(code: &mut Vec<u8>) -> Result<(), AllocError>
    ensures { OnOk result (code.new.items ≡ code.old.items ++ function_section) }
{
    code.extend_from_slice(&FUNCTIONS)?;
    for _ in 0..FILLERS {
        code.push(3)?;
    }
    Ok(())
}

/// Adds the addition of a constant whose spelling takes two bytes.
#[tactic(auto, using(crate::proofs::Modules::two_bytes))]
fn put_addition(code: &mut Vec<u8>, number: u32) -> Result<(), AllocError>
    requires low { 64 ≤ number }
    requires high { number < 8192 }
    ensures { OnOk result (code.new.items ≡ code.old.items ++ (i64_const number ++ i64_add)) }
{
    let low = (number % 128 + 128) as u8;
    let high = (number / 128) as u8;
    code.extend_from_slice(&[0x42, low, high, 0x7c])
}

/// Adds the body of a filler, by its number.
fn put_filler(code: &mut Vec<u8>, filler: u32) -> Result<(), AllocError>
    requires { filler < 700 }
    ensures { OnOk result (code.new.items ≡ code.old.items ++ filler_body filler) }
{
    code.extend_from_slice(b"\x54\0\x20\0")?;
    for step in 0..20 {
        put_addition(code, 64 + filler + step)?;
    }
    Ok(code.push(0x0b)?)
}

/// Adds the section of bodies.
fn put_bodies(code: &mut Vec<u8>) -> Result<(), AllocError>
    ensures { OnOk result (code.new.items ≡ code.old.items ++ code_section) }
{
    code.extend_from_slice(&BODIES)?;
    code.extend_from_slice(&SEND)?;
    code.extend_from_slice(&RECV)?;
    code.extend_from_slice(&DONE)?;
    put_fillers(code)?;
    Ok(())
}

fn put_fillers(code: &mut Vec<u8>) -> Result<(), AllocError>
    ensures { OnOk result (code.new.items ≡ code.old.items ++ joined_below 700 filler_body) }
{
    for filler in 0..FILLERS {
        put_filler(code, filler)?;
    }
    Ok(())
}

/// The contract: 60,647 bytes.
#[tactic(auto, using(crate::proofs::Modules::data_is), unfolding(crate::specs::Code::contract_code))]
pub(crate) fn contract_code(alloc: Global) -> Result<Blob, AllocError>
    ensures { IfOk result (λ code. code ≡ contract_code) }
{
    let mut code = Vec::new(alloc);
    put_front(&mut code)?;
    put_bodies(&mut code)?;
    code.extend_from_slice(&DATA)?;
    Ok(Blob::of(code))
}
