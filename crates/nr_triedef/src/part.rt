//! Keys as nibbles, and the parts of nodes.

ghost use Rattle.std.specs.Prelude.{◌≡◌, ◌+◌, ◌*◌, ◌%◌, ◌/◌, ◌++◌, ◌∷◌, length, drop, IfOk, OnOk};
ghost use Rattle.nr_triedef.specs.Node.{IsNibbles, nibbles, paired, key_part};

use nr_bytes::{Blob, Writer};
use std::alloc::{AllocError, Global};

/// The nibbles of a key, the high one of each byte first. Each is below 16.
///
/// # Errors
///
/// Where memory ran out.
pub fn nibbles(alloc: Global, key: &[u8]) -> Result<Blob, AllocError>
    ensures value { IfOk result (λ all. all ≡ nibbles key.now) }
    ensures small { IfOk result IsNibbles }
{
    let mut all = Vec::new(alloc);
    for byte in key {
        all.push(byte / 16)?;
        all.push(byte % 16)?;
    }
    Ok(Blob::of(all))
}

// A part's first byte, with the first nibble of an odd count.
fn first_byte(nibbles: &[u8], leaf: bool) -> u8
    requires { IsNibbles nibbles.now }
    ensures { key_part nibbles.now leaf ≡ result ∷ paired (drop (length nibbles.now % 2) nibbles.now) }
{
    let flag = if leaf { 32 } else { 0 };
    if nibbles.len() % 2 == 1 {
        flag + 16 + nibbles[0]
    } else {
        flag
    }
}

fn put_pairs(part: &mut Writer, nibbles: &[u8]) -> Result<(), AllocError>
    requires small { IsNibbles nibbles.now }
    requires even { length nibbles.now % 2 ≡ 0 }
    ensures { OnOk result (part.new ≡ part.old ++ paired nibbles.now) }
{
    for i in 0..nibbles.len() / 2 {
        part.put_u8(16 * nibbles[2 * i] + nibbles[2 * i + 1])?;
    }
    Ok(())
}

/// As [`key_part`], in a writer that is used again, in place of what it had written.
///
/// # Errors
///
/// As of [`key_part`]. The writer may then hold the front of the part.
pub(crate) fn key_part_in(part: &mut Writer, nibbles: &[u8], leaf: bool) -> Result<(), AllocError>
    requires { IsNibbles nibbles.now }
    ensures { OnOk result (part.new ≡ key_part nibbles.now leaf) }
{
    part.clear();
    part.put_u8(first_byte(nibbles, leaf))?;
    put_pairs(part, &nibbles[nibbles.len() % 2..])?;
    Ok(())
}

/// The part of a leaf or an extension that stands for these nibbles, each below 16.
///
/// Its first byte is `20` for a leaf or `00`, in hexadecimal, and each further byte is two nibbles,
/// the first one high. For an odd count the first byte is `30` or `10` plus the first nibble.
///
/// # Errors
///
/// Where memory ran out.
pub fn key_part(alloc: Global, nibbles: &[u8], leaf: bool) -> Result<Blob, AllocError>
    requires { IsNibbles nibbles.now }
    ensures { IfOk result (λ part. part ≡ key_part nibbles.now leaf) }
{
    let mut part = Writer::with_room(alloc, nibbles.len() / 2 + 1)?;
    key_part_in(&mut part, nibbles, leaf)?;
    Ok(part.finish())
}
