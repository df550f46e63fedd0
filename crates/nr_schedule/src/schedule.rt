//! Schedules: the lines of a file, each a step of a shard, the change of boundaries or the run to the end.

ghost use Rattle.std.specs.Prelude.{◌≡◌, ◌∷◌, [], ◌<◌, MatchOption};
ghost use Rattle.nr_bytes.specs.Answers.{GivesAs};
ghost use Rattle.nr_schedule.specs.Schedule.{pieces, step_of, one_word, one_shard, taken, shard_in, height_in};
ghost use Rattle.nr_schedule.specs.Schedule.{line_of, schedule_read};
ghost use Rattle.nr_schedule.specs.declared.schedule.ScheduleFault.TheVariants as fault;

use nr_ids::{Height, ShardId};
use nr_overlap::Event;
use nr_words::{cut, number_in};
use std::alloc::{AllocFailed, Global};

/// A line of a schedule.
#[derive(Clone, Copy, Debug)]
pub enum Line {
    /// One step, whether it is enabled or not. The height of a Take counts from the genesis.
    Step(Event),
    /// The next step that is enabled, again and again to the end of the run, and the change of boundaries between.
    Rest,
    /// The change of boundaries, whether it may come or not.
    Reshard,
}

/// Why a schedule can't be had.
#[derive(Clone, Copy, Debug)]
pub enum ScheduleFault {
    /// The line of this number, from 1, has none of the forms or names a shard that isn't there.
    NoLine { line: u64 },
    /// There is no memory for the lines.
    Memory,
}

impl From<AllocFailed<Line>> for ScheduleFault {
    ghost from_gives = { λ _ e. e ≡ fault.Memory };

    fn from(_fault: AllocFailed<Line>) -> ScheduleFault {
        ScheduleFault::Memory
    }
}

/// The number of one of so many shards.
fn shard_in(shards: u32, word: &[u8]) -> Option<ShardId>
    requires { 0 < shards }
    ensures { MatchOption result (shard_in shards word.now ≡ None) (λ shard. shard_in shards word.now ≡ Some shard.0) }
{
    let number = number_in(0, u64::from(shards - 1), word)?;
    Some(ShardId(number as u32))
}

fn height_in(word: &[u8]) -> Option<u64>
    ensures { result ≡ height_in word.now }
{
    number_in(0, u64::MAX, word)
}

fn step_of(verb: &[u8], shard: ShardId) -> Option<Line>
    ensures { result ≡ step_of verb.now shard.0 }
{
    if verb == b"open".as_slice() {
        Some(Line::Step(Event::OpenChunk(shard)))
    } else if verb == b"seal".as_slice() {
        Some(Line::Step(Event::SealChunk(shard)))
    } else if verb == b"publish".as_slice() {
        Some(Line::Step(Event::PublishLists(shard)))
    } else {
        None
    }
}

/// A line of one word.
fn one_word(verb: &[u8]) -> Option<Line>
    ensures { result ≡ one_word verb.now }
{
    if verb == b"rest".as_slice() {
        Some(Line::Rest)
    } else if verb == b"reshard".as_slice() {
        Some(Line::Reshard)
    } else {
        None
    }
}

/// A line of two words.
fn one_shard(shards: u32, verb: &[u8], word: &[u8]) -> Option<Line>
    requires { 0 < shards }
    ensures { result ≡ one_shard verb.now (shard_in shards word.now) }
{
    let shard = shard_in(shards, word)?;
    step_of(verb, shard)
}

/// The words of a line behind `take`.
fn taken(shards: u32, dest: &[u8], source: &[u8], height: &[u8]) -> Option<Line>
    requires { 0 < shards }
    ensures { result ≡ taken (shard_in shards dest.now) (shard_in shards source.now) (height_in height.now) }
{
    let dest = shard_in(shards, dest)?;
    let source = shard_in(shards, source)?;
    let height = height_in(height)?;
    Some(Line::Step(Event::TakeList(dest, source, Height(height))))
}

/// A line of four words.
fn four_words(shards: u32, verb: &[u8], dest: &[u8], source: &[u8], height: &[u8]) -> Option<Line>
    requires { 0 < shards }
    ensures { result ≡ line_of shards (verb.now ∷ dest.now ∷ source.now ∷ height.now ∷ []) }
{
    if verb == b"take".as_slice() {
        taken(shards, dest, source, height)
    } else {
        None
    }
}

/// A line by its words.
fn line_of(shards: u32, line: &[u8]) -> Option<Line>
    requires { 0 < shards }
    ensures { result ≡ line_of shards (pieces 32 line.now) }
{
    let Some((verb, words)) = cut(line, b' ') else {
        return one_word(line);
    };
    let Some((dest, words)) = cut(words, b' ') else {
        return one_shard(shards, verb, words);
    };
    let (source, height) = cut(words, b' ')?;
    match cut(height, b' ') {
        None => four_words(shards, verb, dest, source, height),
        Some(_) => None,
    }
}

/// The lines of a schedule for so many shards: `open S`, `take S SOURCE HEIGHT`, `seal S`, `publish S`, `rest` and
/// `reshard`, each ended by a line feed, with decimal numbers without leading zeros.
///
/// # Errors
///
/// `NoLine` with the first that has none of these forms, or names a shard that isn't there. What
/// stands behind the last line feed is such a line. `Memory`.
pub fn read_schedule(alloc: Global, shards: u32, bytes: &[u8]) -> Result<Vec<Line>, ScheduleFault>
    requires { 0 < shards }
    ensures { GivesAs fault.Memory (λ lines. lines.items) result (schedule_read shards bytes.now) }
{
    let mut lines = Vec::new(alloc);
    let mut rest = bytes;
    let mut number = 1;
    while let Some((line, more)) = cut(rest, b'\n') {
        match line_of(shards, line) {
            Some(line) => lines.push(line)?,
            None => return Err(ScheduleFault::NoLine { line: number }),
        }
        rest = more;
        number += 1;
    }
    if rest.is_empty() {
        Ok(lines)
    } else {
        Err(ScheduleFault::NoLine { line: number })
    }
}
