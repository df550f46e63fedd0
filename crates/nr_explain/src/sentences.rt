//! One sentence for the numbers that a program prints on standard error.

ghost use Rattle.std.specs.Prelude.{◌≡◌, ◌++◌, map, option_map, IfOk, OnOk};
ghost use Rattle.nr_explain.specs.Words.{pieces};
ghost use Rattle.nr_explain.specs.Sentences.{programs, items, configurations, geneses, chains, schedules, proofs};
ghost use Rattle.nr_explain.specs.Sentences.{gathered_chunks, state_parts, said, phrase, sentence, sentence_by};
ghost use Rattle.nr_explain.specs.Coded.{kind_of, field_of, form_in};

use crate::entries::put_entry;
use crate::form::{Field, Kind, fields};
use nr_bytes::Blob;
use nr_words::cut;
use std::alloc::{AllocError, Global};

// What is said behind each number that a program prints, by its status.
static PROGRAMS: [&[Field]; 4] = [
    fields![Figure("1"): "The words are no command."],
    fields![Figure("5"): "A file could not be read."],
    fields![Figure("6"): "The output could not be written whole."],
    fields![Figure("7"): "Memory ran out."],
];

static ITEMS: [&[Field]; 2] = [
    fields![
        Figure("11"): "There is no such chunk, or it has no item of the kind.", Figure("0"): ""
    ],
    fields![
        Figure("11"): "There is no item at that place: the chunk has only ", Number: " of the kind."
    ],
];

static CONFIGURATIONS: [&[Field]; 6] = [
    fields![
        Figure("2"): "The configuration is refused: ",
        Figure("0"): "its file is longer than 1048576 bytes.", Figure("0"): ""
    ],
    fields![
        Figure("2"): "The configuration is refused: ", Figure("1"): "its text is no JSON object.",
        Figure("0"): ""
    ],
    fields![
        Figure("2"): "The configuration is refused: ", Figure("2"): "entry ", Entry: " is missing."
    ],
    fields![
        Figure("2"): "The configuration is refused: ", Figure("3"): "entry ",
        Entry: " is no whole number from 0 to 18446744073709551615."
    ],
    fields![
        Figure("2"): "The configuration is refused: ", Figure("4"): "entry ",
        Figure("11"): "11, reward_numerator (0 to 1000000), is out of bounds, or above entry 12, reward_denominator."
    ],
    fields![
        Figure("2"): "The configuration is refused: ", Figure("4"): "entry ",
        Entry: " is out of its bounds."
    ],
];

static GENESES: [&[Field]; 7] = [
    fields![
        Figure("3"): "The genesis is refused: ",
        Figure("0"): "its file is longer than 67108864 bytes.", Figure("0"): "", Figure("0"): "",
        Figure("0"): ""
    ],
    fields![
        Figure("3"): "The genesis is refused: ", Figure("1"): "the field at byte ",
        Number: " (from 0) can't be read.", Figure("0"): "", Figure("0"): ""
    ],
    fields![
        Figure("3"): "The genesis is refused: ", Figure("2"): "entry ",
        Number: " (from 0) has the trie key of an earlier one.", Figure("0"): "", Figure("0"): ""
    ],
    fields![
        Figure("3"): "The genesis is refused: ", Figure("3"): "entry ",
        Number: " (from 0) belongs to no account of the file, or to `system`.", Figure("0"): "",
        Figure("0"): ""
    ],
    fields![
        Figure("3"): "The genesis is refused: ", Figure("4"): "entry ",
        Number: " (from 0) states a storage usage of ", Number: " bytes, but ",
        Number: " are counted."
    ],
    fields![
        Figure("3"): "The genesis is refused: ",
        Figure("5"): "its amounts and locked amounts are together above 2^127.", Figure("0"): "",
        Figure("0"): "", Figure("0"): ""
    ],
    fields![
        Figure("3"): "The genesis is refused: ", Figure("6"): "entry ",
        Number: " (from 0) states a code hash that is not the SHA-256 of its code, or zeros without code.",
        Figure("0"): "", Figure("0"): ""
    ],
];

static CHAINS: [&[Field]; 7] = [
    fields![
        Figure("4"): "The blocks are refused: ",
        Figure("0"): "their file is longer than 268435456 bytes.", Figure("0"): ""
    ],
    fields![
        Figure("4"): "The blocks are refused: ", Figure("1"): "the field at byte ",
        Number: " (from 0) can't be read."
    ],
    fields![
        Figure("4"): "The blocks are refused: ", Figure("2"): "the block of height ",
        Number: " has not one chunk for each shard."
    ],
    fields![
        Figure("4"): "The blocks are refused: ", Figure("3"): "a block has the height ",
        Number: ", which is not its number, counted from 1."
    ],
    fields![
        Figure("4"): "The blocks are refused: ", Figure("4"): "there are more than 100,000.",
        Figure("0"): ""
    ],
    fields![
        Figure("4"): "The blocks are refused: ", Figure("5"): "the action at byte ",
        Number: " (from 0) is one of staking."
    ],
    fields![
        Figure("4"): "The blocks are refused: ", Figure("6"): "they change their shards at height ",
        Number: ", but there or just before a block or a chunk is missing."
    ],
];

static SCHEDULES: [&[Field]; 2] = [
    fields![
        Figure("8"): "The schedule is refused: ",
        Figure("0"): "its file is longer than 1048576 bytes.", Figure("0"): ""
    ],
    fields![
        Figure("8"): "The schedule is refused: ", Figure("1"): "line ",
        Number: " (from 1) is no step, or names a shard that is not there."
    ],
];

static PROOFS: [&[Field]; 2] = [
    fields![
        Figure("10"): "The proof is refused: ",
        Figure("0"): "its file is longer than 268435456 bytes.", Figure("0"): ""
    ],
    fields![
        Figure("10"): "The proof is refused: ", Figure("1"): "line ",
        Number: " (from 1) has not the form that a proof has there."
    ],
];

static GATHERED_CHUNKS: [&[Field]; 9] = [
    fields![
        Figure("12"): "The gathered chunk is refused: ",
        Figure("0"): "its file is longer than 268435456 bytes.", Figure("0"): ""
    ],
    fields![
        Figure("12"): "The gathered chunk is refused: ", Figure("1"): "the field at byte ",
        Number: " (from 0) can't be read."
    ],
    fields![
        Figure("12"): "The gathered chunk is refused: ",
        Figure("2"): "a node or a value that it needs is missing.", Figure("0"): ""
    ],
    fields![
        Figure("12"): "The gathered chunk is refused: ",
        Figure("3"): "the text of a node has not its form or doesn't fit its place or its children, or a \
        value has another length than its node tells.", Figure("0"): ""
    ],
    fields![
        Figure("12"): "The gathered chunk is refused: ", Figure("4"): "its entries are no state.",
        Figure("0"): ""
    ],
    fields![
        Figure("12"): "The gathered chunk is refused: ", Figure("5"): "the action at byte ",
        Number: " (from 0) is one of staking."
    ],
    fields![
        Figure("12"): "The gathered chunk is refused: ",
        Figure("6"): "a gas price, gas, the tokens or the delayed receipts pass their limit.",
        Figure("0"): ""
    ],
    fields![
        Figure("12"): "The gathered chunk is refused: ",
        Figure("7"): "its height is 0, or its shard is not there.", Figure("0"): ""
    ],
    fields![
        Figure("12"): "The gathered chunk is refused: ",
        Figure("8"): "it needs more than 2^28 nodes.", Figure("0"): ""
    ],
];

static STATE_PARTS: [&[Field]; 10] = [
    fields![
        Figure("13"): "The state parts are refused: ", Figure("0"): "the file of part ",
        Number: " (from 0) is longer than 268435456 bytes."
    ],
    fields![
        Figure("13"): "The state parts are refused: ", Figure("1"): "the field at byte ",
        Number: " (from 0) can't be read."
    ],
    fields![
        Figure("13"): "The state parts are refused: ", Figure("2"): "part ",
        Number: " (from 0) has a number or a count that no part has."
    ],
    fields![
        Figure("13"): "The state parts are refused: ", Figure("3"): "part ",
        Number: " (from 0) has another root than the one asked for."
    ],
    fields![
        Figure("13"): "The state parts are refused: ", Figure("4"): "part ",
        Number: " (from 0) lacks a node that it needs."
    ],
    fields![
        Figure("13"): "The state parts are refused: ", Figure("5"): "part ",
        Number: " (from 0) has the text of a node that has not its form, or doesn't fit its place or its \
        children."
    ],
    fields![
        Figure("13"): "The state parts are refused: ", Figure("6"): "entry ",
        Number: " (from 0) of a part is not the one that its nodes have."
    ],
    fields![
        Figure("13"): "The state parts are refused: ", Figure("7"): "part ",
        Number: " (from 0) has another number, or another count of parts."
    ],
    fields![
        Figure("13"): "The state parts are refused: ",
        Figure("8"): "together they have another root than the one asked for.", Figure("0"): ""
    ],
    fields![
        Figure("13"): "The state parts are refused: ", Figure("9"): "part ",
        Number: " (from 0) needs more than 2^28 nodes."
    ],
];

/// Statuses of all programs.
#[tactic(auto, unfolding(crate::specs::Sentences::programs))]
pub(crate) fn programs() -> &'static [&'static [Field]; 4]
    ensures { map (λ f. form_in f.now) result.now ≡ programs }
{
    &PROGRAMS
}

/// Chunks and items that are not there.
#[tactic(auto, unfolding(crate::specs::Sentences::items))]
pub(crate) fn items() -> &'static [&'static [Field]; 2]
    ensures { map (λ f. form_in f.now) result.now ≡ items }
{
    &ITEMS
}

/// Configurations that are refused.
#[tactic(auto, unfolding(crate::specs::Sentences::configurations))]
pub(crate) fn configurations() -> &'static [&'static [Field]; 6]
    ensures { map (λ f. form_in f.now) result.now ≡ configurations }
{
    &CONFIGURATIONS
}

/// Geneses that are refused.
#[tactic(auto, unfolding(crate::specs::Sentences::geneses))]
pub(crate) fn geneses() -> &'static [&'static [Field]; 7]
    ensures { map (λ f. form_in f.now) result.now ≡ geneses }
{
    &GENESES
}

/// Blocks that are refused.
#[tactic(auto, unfolding(crate::specs::Sentences::chains))]
pub(crate) fn chains() -> &'static [&'static [Field]; 7]
    ensures { map (λ f. form_in f.now) result.now ≡ chains }
{
    &CHAINS
}

/// Schedules that are refused.
#[tactic(auto, unfolding(crate::specs::Sentences::schedules))]
pub(crate) fn schedules() -> &'static [&'static [Field]; 2]
    ensures { map (λ f. form_in f.now) result.now ≡ schedules }
{
    &SCHEDULES
}

/// Proofs that are refused.
#[tactic(auto, unfolding(crate::specs::Sentences::proofs))]
pub(crate) fn proofs() -> &'static [&'static [Field]; 2]
    ensures { map (λ f. form_in f.now) result.now ≡ proofs }
{
    &PROOFS
}

/// Gathered chunks that are refused.
#[tactic(auto, unfolding(crate::specs::Sentences::gathered_chunks))]
pub(crate) fn gathered_chunks() -> &'static [&'static [Field]; 9]
    ensures { map (λ f. form_in f.now) result.now ≡ gathered_chunks }
{
    &GATHERED_CHUNKS
}

/// Parts of a state that are refused.
#[tactic(auto, unfolding(crate::specs::Sentences::state_parts))]
pub(crate) fn state_parts() -> &'static [&'static [Field]; 10]
    ensures { map (λ f. form_in f.now) result.now ≡ state_parts }
{
    &STATE_PARTS
}

/// Numbers that the form fixes are not repeated.
fn put_said(alloc: Global, kind: &Kind, word: &[u8], out: &mut Vec<u8>) -> Result<(), AllocError>
    ensures { OnOk result (out.new.items ≡ out.old.items ++ said (kind_of kind.now) word.now) }
{
    match kind {
        Kind::Word(_) => Ok(()),
        Kind::Figure(_) => Ok(()),
        Kind::Number => out.extend_from_slice(word),
        Kind::Amount => out.extend_from_slice(word),
        Kind::Hash => out.extend_from_slice(word),
        Kind::Bytes => out.extend_from_slice(word),
        Kind::Entry => {
            out.extend_from_slice(word)?;
            put_entry(alloc, word, out)
        }
        Kind::Name => out.extend_from_slice(word),
    }
}

fn put_phrase(
    alloc: Global,
    field: &Field,
    word: &[u8],
    out: &mut Vec<u8>,
) -> Result<(), AllocError>
    ensures { OnOk result (out.new.items ≡ out.old.items ++ phrase (field_of field.now) word.now) }
{
    put_said(alloc, &field.kind, word, out)?;
    out.extend_from_slice(field.text.as_bytes())
}

fn put_sentence(
    alloc: Global,
    form: &[Field],
    line: &[u8],
    out: &mut Vec<u8>,
) -> Result<(), AllocError>
    ensures { OnOk result (out.new.items ≡ out.old.items ++ sentence (form_in form.now) (pieces 32 line.now)) }
{
    match form {
        [] => Ok(()),
        [field, fields @ ..] => match cut(line, b' ') {
            None => put_phrase(alloc, field, line, out),
            Some((word, words)) => {
                put_phrase(alloc, field, word, out)?;
                put_sentence(alloc, fields, words, out)
            }
        },
    }
}

/// The sentence of a line by its form, where it has one.
pub(crate) fn sentence_by(
    alloc: Global,
    form: Option<&'static [Field]>,
    line: &[u8],
) -> Result<Option<Blob>, AllocError>
    ensures { IfOk result (λ told. told ≡ sentence_by (option_map (λ f. form_in f.now) form.entry)
        (pieces 32 line.now)) }
{
    match form {
        None => Ok(None),
        Some(form) => {
            let mut out = Vec::new(alloc);
            put_sentence(alloc, form, line, &mut out)?;
            Ok(Some(Blob::of(out)))
        }
    }
}
