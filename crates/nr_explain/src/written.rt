//! What is said of a line that tells what was done.

ghost use Rattle.std.specs.Prelude.{◌≡◌, map};
ghost use Rattle.nr_explain.specs.Coded.{form_in};
ghost use Rattle.nr_explain.specs.Written.{answers, reported};

use crate::form::{Field, Kind, fields};

static REPORTED: [&[Field]; 21] = [
    fields![
        Word("chunk"): "The chunk of height ", Number: " and shard ",
        Number: " is sealed. The root of its state is ", Hash: ". For it ", Number: " gas and ",
        Amount: " tokens were burnt."
    ],
    fields![Word("tx"): "Transaction ", Hash: " became receipt ", Word("ok"): "", Hash: "."],
    fields![
        Word("run"): "Receipt ", Hash: " ran to its end. ", Word("value"): "It gave ",
        Word("-"): "no bytes. ", Number: " gas and ", Amount: " tokens were burnt."
    ],
    fields![
        Word("run"): "Receipt ", Hash: " ran to its end. ", Word("value"): "It gave the bytes ",
        Bytes: ". ", Number: " gas and ", Amount: " tokens were burnt."
    ],
    fields![
        Word("run"): "Receipt ", Hash: " ran to its end. ",
        Word("promise"): "Its value will be that of receipt ", Hash: ". ", Number: " gas and ",
        Amount: " tokens were burnt."
    ],
    fields![
        Word("run"): "Receipt ",
        Hash: " didn't run, since two of its inputs are equal, or a receipt that is postponed at its receiver \
        has one of them or its id. ",
        Word("clash"): "", Figure("0"): "No gas and ", Amount: " tokens were burnt."
    ],
    fields![Word("log"): "The receipt logged ", Word("-"): "no bytes."],
    fields![Word("log"): "The receipt logged the bytes ", Bytes: "."],
    fields![Word("post"): "Receipt ", Hash: " is postponed, since it waits for data."],
    fields![Word("data"): "Receipt ", Hash: " brought data, which are stored or used."],
    fields![
        Word("lost"): "Receipt ",
        Hash: " brought data that clash with those that stand, and they are lost."
    ],
    fields![Word("late"): "Receipt ", Hash: " is delayed: it stands behind all that are."],
    fields![
        Word("out"): "A receipt goes out to shard ", Number: ": ",
        Hash: ", and the SHA-256 of its bytes is ", Hash: "."
    ],
    fields![Word("total"): "", Word("supply"): "The genesis has ", Amount: " tokens."],
    fields![Word("total"): "", Word("accounts"): "The accounts have ", Amount: " tokens."],
    fields![
        Word("total"): "", Word("receipts"): "The receipts that are under way have ",
        Amount: " tokens."
    ],
    fields![Word("total"): "", Word("burnt"): "", Amount: " tokens were burnt."],
    fields![
        Word("total"): "", Word("places"): "Of the receipts ", Number: " were routed and ",
        Number: " executed, ", Number: " wait for data, ", Number: " are delayed, and ",
        Number: " are in flight."
    ],
    fields![
        Word("gen"): "The chain is generated from the number ", Number: " for ",
        Number: " shards and ", Number: " blocks."
    ],
    fields![Word("chunks"): "So many chunks were sealed: ", Number: "."],
    fields![Word("digest"): "The SHA-256 of the report is ", Hash: "."],
];

static ANSWERS: [&[Field]; 10] = [
    fields![
        Word("roots"): "Of the chunk of height ", Number: " and shard ",
        Number: " the root of its outcomes is ", Hash: ", and that of the receipts that left it ",
        Hash: "."
    ],
    fields![
        Word("proof"): "", Word("outcome"): "The proof is of an outcome of the chunk of height ",
        Number: " and shard ", Number: ", the one at place ", Number: " (from 0) of ", Number: "."
    ],
    fields![
        Word("proof"): "",
        Word("receipt"): "The proof is of a receipt that left the chunk of height ",
        Number: " and shard ", Number: ", the one at place ", Number: " (from 0) of ", Number: "."
    ],
    fields![Word("item"): "The item has ", Word("-"): "no bytes."],
    fields![Word("item"): "The bytes of the item are ", Bytes: "."],
    fields![Word("path"): "The next hash beside the way from the item upward is ", Hash: "."],
    fields![Word("valid"): "The proof leads to the root."],
    fields![Word("invalid"): "The proof doesn't lead to the root."],
    fields![
        Word("part"): "Part ", Number: " (from 0) of ", Number: " belongs to the root. It has ",
        Word("entries"): "", Number: " of the entries."
    ],
    fields![
        Word("root"): "The parts are together the state of the root ", Hash: ". It has so many ",
        Word("entries"): "entries: ", Number: "."
    ],
];

/// Lines of a report, and of a chain that numbers generate.
#[tactic(auto, unfolding(crate::specs::Written::reported))]
pub(crate) fn reported() -> &'static [&'static [Field]; 21]
    ensures { map (λ f. form_in f.now) result.now ≡ reported }
{
    &REPORTED
}

/// Lines about roots, proofs and parts of a state.
#[tactic(auto, unfolding(crate::specs::Written::answers))]
pub(crate) fn answers() -> &'static [&'static [Field]; 10]
    ensures { map (λ f. form_in f.now) result.now ≡ answers }
{
    &ANSWERS
}
