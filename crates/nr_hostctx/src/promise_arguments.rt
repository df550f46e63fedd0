//! What the arguments of promises spell.

ghost use Rattle.std.specs.Prelude.{◌≡◌, ◌*◌, length, map, IfOk};
ghost use Rattle.std.specs.List.{slice_split};
ghost use Rattle.nr_bytes.specs.Numbers.{number};
ghost use Rattle.nr_hostctx.specs.Acts.{Copies};
ghost use Rattle.nr_hostctx.specs.PromiseActions.{is_comma, methods_in, MakesNames};
ghost use Rattle.nr_hostctx.specs.Promises.{numbers_in, MakesNumbers};

use byteorder::{ByteOrder, LittleEndian};
use nr_bytes::{List, Text};
use nr_ids::AccountId;
use nr_wasmmem::HostStop;
use std::alloc::{AllocError, Global};

/// The number of 8 bytes, the lowest first.
#[tactic(auto, using(nr_bytes::proofs::Numbers::number_8))]
fn number_of(bytes: &[u8]) -> u64
    requires { length bytes.now ≡ 8 }
    ensures { result ≡ number bytes.now }
{
    LittleEndian::read_u64(bytes)
}

#[tactic(auto, using(crate::proofs::Indices::one_more))]
fn collect_numbers(alloc: Global, count: u64, bytes: &[u8]) -> Result<Vec<u64>, AllocError>
    requires { length bytes.now ≡ 8 * count }
    ensures { IfOk result (λ numbers. numbers.items ≡ numbers_in count bytes.now) }
{
    let mut numbers = Vec::new(alloc);
    for i in 0..count as usize {
        numbers.push(number_of(&bytes[8 * i..8 * i + 8]))?;
    }
    Ok(numbers)
}

/// So many numbers of 8 bytes each.
pub(crate) fn numbers_in(alloc: Global, count: u64, bytes: &[u8]) -> Result<List<u64>, HostStop>
    requires { length bytes.now ≡ 8 * count }
    ensures { MakesNumbers result (numbers_in count bytes.now) }
{
    match collect_numbers(alloc, count, bytes) {
        Ok(numbers) => Ok(List::of(numbers)),
        Err(_) => Err(HostStop::Memory),
    }
}

/// An account id as a text.
pub(crate) fn text_of(alloc: Global, id: &AccountId) -> Result<Text, HostStop>
    ensures { Copies result id.now }
{
    match str::from_utf8(id.bytes()) {
        Ok(text) => match String::from_str(alloc, text) {
            Ok(text) => Ok(Text::of(text)),
            Err(_) => Err(HostStop::Memory),
        },
        Err(_) => Err(HostStop::Memory),
    }
}

/// The parts between commas.
fn parts_of(alloc: Global, text: &str) -> Result<Vec<&str>, AllocError>
    ensures { IfOk result (λ parts. map (λ part. part.now) parts.items ≡ slice_split is_comma text.now) }
{
    text.split(',').collect(alloc)
}

fn copy_texts(alloc: Global, parts: &[&str]) -> Result<Vec<Text>, AllocError>
    ensures { IfOk result (λ texts. texts.items ≡ map (λ part. part.now) parts.now) }
{
    let mut texts = Vec::new(alloc);
    for part in parts {
        let text = String::from_str(alloc, part)?;
        texts.push(Text::of(text))?;
    }
    Ok(texts)
}

fn split_names(alloc: Global, text: &str) -> Result<Vec<Text>, AllocError>
    ensures { IfOk result (λ names. names.items ≡ methods_in text.now) }
{
    if text.is_empty() {
        return Ok(Vec::new(alloc));
    }
    let parts = parts_of(alloc, text)?;
    copy_texts(alloc, &parts)
}

/// The names that are parted by commas.
pub(crate) fn methods_in(alloc: Global, text: &Text) -> Result<List<Text>, HostStop>
    ensures { MakesNames result (methods_in text.now) }
{
    match split_names(alloc, text.inner()) {
        Ok(names) => Ok(List::of(names)),
        Err(_) => Err(HostStop::Memory),
    }
}
