//! What is said of a line that tells how a call of `near_module` ended, and what it did.

ghost use Rattle.std.specs.Prelude.{◌≡◌, map};
ghost use Rattle.nr_explain.specs.Coded.{form_in};
ghost use Rattle.nr_explain.specs.CallSentences.{call_codes, call_ends, call_faults, call_traps};

use crate::form::{Field, Kind, fields};

static CALL_ENDS: [&[Field]; 14] = [
    fields![
        Word("value"): "The call came to its end. It gave ", Word("-"): "no bytes. It burnt ",
        Number: " gas."
    ],
    fields![
        Word("value"): "The call came to its end. It gave the bytes ", Bytes: ". It burnt ",
        Number: " gas."
    ],
    fields![
        Word("promise"): "The call came to its end. Its value will be that of receipt ",
        Hash: ". It burnt ", Number: " gas."
    ],
    fields![
        Word("failure"): "The call failed: ", Figure("14"): "the code has no such method. ",
        Figure("0"): "It burnt ", Number: " gas."
    ],
    fields![
        Word("failure"): "The call failed: ", Figure("17"): "it used up its gas. ",
        Figure("0"): "It burnt ", Number: " gas."
    ],
    fields![Word("log"): "The call logged ", Word("-"): "no bytes."],
    fields![Word("log"): "The call logged the bytes ", Bytes: "."],
    fields![
        Word("store"): "The storage has the empty key, ", Word("-"): "with ",
        Word("-"): "no bytes."
    ],
    fields![
        Word("store"): "The storage has the empty key, ", Word("-"): "with the bytes ", Bytes: "."
    ],
    fields![Word("store"): "The storage has the key ", Bytes: ", with ", Word("-"): "no bytes."],
    fields![Word("store"): "The storage has the key ", Bytes: ", with the bytes ", Bytes: "."],
    fields![Word("receipt"): "The call made receipt ", Hash: " for ", Name: "."],
    fields![Word("wait"): "The receipt waits for datum ", Hash: "."],
    fields![Word("give"): "The receipt gives its result as datum ", Hash: " to ", Name: "."],
];

static CALL_CODES: [&[Field]; 13] = [
    fields![
        Word("failure"): "The call failed: ", Figure("13"): "the code is no valid module: ",
        Figure("1"): "a field is too short. It burnt ", Number: " gas."
    ],
    fields![
        Word("failure"): "The call failed: ", Figure("13"): "the code is no valid module: ",
        Figure("2"): "a LEB128 is too long or has wrong bits. It burnt ", Number: " gas."
    ],
    fields![
        Word("failure"): "The call failed: ", Figure("13"): "the code is no valid module: ",
        Figure("3"): "the magic number, the version, or the id, order, size or count of a section or a \
        body is wrong. It burnt ",
        Number: " gas."
    ],
    fields![
        Word("failure"): "The call failed: ", Figure("13"): "the code is no valid module: ",
        Figure("4"): "a byte is no opcode, type, kind or flag that may stand there. It burnt ",
        Number: " gas."
    ],
    fields![
        Word("failure"): "The call failed: ", Figure("13"): "the code is no valid module: ",
        Figure("5"): "it has a float. It burnt ", Number: " gas."
    ],
    fields![
        Word("failure"): "The call failed: ", Figure("13"): "the code is no valid module: ",
        Figure("6"): "a name isn't UTF-8. It burnt ", Number: " gas."
    ],
    fields![
        Word("failure"): "The call failed: ", Figure("13"): "the code is no valid module: ",
        Figure("7"): "it has too many bytes of code, entries of a list, locals, blocks in one another \
        or results of a type. It burnt ",
        Number: " gas."
    ],
    fields![
        Word("failure"): "The call failed: ", Figure("13"): "the code is no valid module: ",
        Figure("11"): "an operand, a result or a constant has another type. It burnt ",
        Number: " gas."
    ],
    fields![
        Word("failure"): "The call failed: ", Figure("13"): "the code is no valid module: ",
        Figure("12"): "a type, function, table, memory, global or local isn't there, an export's name \
        stands twice, or a constant global is assigned. It burnt ",
        Number: " gas."
    ],
    fields![
        Word("failure"): "The call failed: ", Figure("13"): "the code is no valid module: ",
        Figure("13"): "a branch leads past the open blocks, or to labels of unequal type. It burnt ",
        Number: " gas."
    ],
    fields![
        Word("failure"): "The call failed: ", Figure("13"): "the code is no valid module: ",
        Figure("14"): "a limit is passed. It burnt ", Number: " gas."
    ],
    fields![
        Word("failure"): "The call failed: ", Figure("13"): "the code is no valid module: ",
        Figure("15"): "an import is no function that a contract may have. It burnt ",
        Number: " gas."
    ],
    fields![
        Word("failure"): "The call failed: ", Figure("13"): "the code is no valid module: ",
        Figure("21"): "an element or a segment doesn't fit. It burnt ", Number: " gas."
    ],
];

static CALL_TRAPS: [&[Field]; 8] = [
    fields![
        Word("failure"): "The call failed: ", Figure("15"): "it trapped: ",
        Figure("1"): "`unreachable`. It burnt ", Number: " gas."
    ],
    fields![
        Word("failure"): "The call failed: ", Figure("15"): "it trapped: ",
        Figure("2"): "an access outside of memory. It burnt ", Number: " gas."
    ],
    fields![
        Word("failure"): "The call failed: ", Figure("15"): "it trapped: ",
        Figure("3"): "a division by zero. It burnt ", Number: " gas."
    ],
    fields![
        Word("failure"): "The call failed: ", Figure("15"): "it trapped: ",
        Figure("4"): "a quotient that its type can't hold. It burnt ", Number: " gas."
    ],
    fields![
        Word("failure"): "The call failed: ", Figure("15"): "it trapped: ",
        Figure("5"): "a call outside of the table. It burnt ", Number: " gas."
    ],
    fields![
        Word("failure"): "The call failed: ", Figure("15"): "it trapped: ",
        Figure("6"): "a call of a place that holds no function. It burnt ", Number: " gas."
    ],
    fields![
        Word("failure"): "The call failed: ", Figure("15"): "it trapped: ",
        Figure("7"): "a call of a function of another type. It burnt ", Number: " gas."
    ],
    fields![
        Word("failure"): "The call failed: ", Figure("15"): "it trapped: ",
        Figure("8"): "too many frames, or operands and locals. It burnt ", Number: " gas."
    ],
];

static CALL_FAULTS: [&[Field]; 19] = [
    fields![
        Word("failure"): "The call failed: ", Figure("16"): "it asked for what it can't have: ",
        Figure("1"): "the register is absent. It burnt ", Number: " gas."
    ],
    fields![
        Word("failure"): "The call failed: ", Figure("16"): "it asked for what it can't have: ",
        Figure("2"): "a range isn't inside the memory. It burnt ", Number: " gas."
    ],
    fields![
        Word("failure"): "The call failed: ", Figure("16"): "it asked for what it can't have: ",
        Figure("3"): "the registers would hold too much. It burnt ", Number: " gas."
    ],
    fields![
        Word("failure"): "The call failed: ", Figure("16"): "it asked for what it can't have: ",
        Figure("4"): "a text isn't UTF-8. It burnt ", Number: " gas."
    ],
    fields![
        Word("failure"): "The call failed: ", Figure("16"): "it asked for what it can't have: ",
        Figure("5"): "the bytes are no account id. It burnt ", Number: " gas."
    ],
    fields![
        Word("failure"): "The call failed: ", Figure("16"): "it asked for what it can't have: ",
        Figure("6"): "there is no promise of this index. It burnt ", Number: " gas."
    ],
    fields![
        Word("failure"): "The call failed: ", Figure("16"): "it asked for what it can't have: ",
        Figure("7"): "the method's name is empty. It burnt ", Number: " gas."
    ],
    fields![
        Word("failure"): "The call failed: ", Figure("16"): "it asked for what it can't have: ",
        Figure("8"): "the deposit is above the account's amount. It burnt ", Number: " gas."
    ],
    fields![
        Word("failure"): "The call failed: ", Figure("16"): "it asked for what it can't have: ",
        Figure("9"): "the key is longer than max_key_bytes. It burnt ", Number: " gas."
    ],
    fields![
        Word("failure"): "The call failed: ", Figure("16"): "it asked for what it can't have: ",
        Figure("10"): "the value is longer than max_value_bytes. It burnt ", Number: " gas."
    ],
    fields![
        Word("failure"): "The call failed: ", Figure("16"): "it asked for what it can't have: ",
        Figure("11"): "there are too many logs, or too long ones. It burnt ", Number: " gas."
    ],
    fields![
        Word("failure"): "The call failed: ", Figure("16"): "it asked for what it can't have: ",
        Figure("12"): "there are max_promises promises. It burnt ", Number: " gas."
    ],
    fields![
        Word("failure"): "The call failed: ", Figure("16"): "it asked for what it can't have: ",
        Figure("13"): "there is no result of this index. It burnt ", Number: " gas."
    ],
    fields![
        Word("failure"): "The call failed: ", Figure("16"): "it asked for what it can't have: ",
        Figure("14"): "the contract gave up. It burnt ", Number: " gas."
    ],
    fields![
        Word("failure"): "The call failed: ", Figure("16"): "it asked for what it can't have: ",
        Figure("15"): "the value is longer than max_return_bytes. It burnt ", Number: " gas."
    ],
    fields![
        Word("failure"): "The call failed: ", Figure("16"): "it asked for what it can't have: ",
        Figure("16"): "the bytes aren't exactly one public key. It burnt ", Number: " gas."
    ],
    fields![
        Word("failure"): "The call failed: ", Figure("16"): "it asked for what it can't have: ",
        Figure("17"): "the promise is a joint one. It burnt ", Number: " gas."
    ],
    fields![
        Word("failure"): "The call failed: ", Figure("16"): "it asked for what it can't have: ",
        Figure("18"): "the receipt has max_actions actions. It burnt ", Number: " gas."
    ],
    fields![
        Word("failure"): "The call failed: ", Figure("16"): "it asked for what it can't have: ",
        Figure("19"): "more than 128 receipts would be joined. It burnt ", Number: " gas."
    ],
];

/// How a call ended, and what it did.
#[tactic(auto, unfolding(crate::specs::CallSentences::call_ends))]
pub(crate) fn call_ends() -> &'static [&'static [Field]; 14]
    ensures { map (λ f. form_in f.now) result.now ≡ call_ends }
{
    &CALL_ENDS
}

/// Calls of code that is no module.
#[tactic(auto, unfolding(crate::specs::CallSentences::call_codes))]
pub(crate) fn call_codes() -> &'static [&'static [Field]; 13]
    ensures { map (λ f. form_in f.now) result.now ≡ call_codes }
{
    &CALL_CODES
}

/// Calls that trapped.
#[tactic(auto, unfolding(crate::specs::CallSentences::call_traps))]
pub(crate) fn call_traps() -> &'static [&'static [Field]; 8]
    ensures { map (λ f. form_in f.now) result.now ≡ call_traps }
{
    &CALL_TRAPS
}

/// Calls that asked for what they can't have.
#[tactic(auto, unfolding(crate::specs::CallSentences::call_faults))]
pub(crate) fn call_faults() -> &'static [&'static [Field]; 19]
    ensures { map (λ f. form_in f.now) result.now ≡ call_faults }
{
    &CALL_FAULTS
}
