//! What is said of a line that a program writes.

ghost use Rattle.std.specs.Prelude.{◌≡◌, map};
ghost use Rattle.nr_explain.specs.Coded.{form_in};
ghost use Rattle.nr_explain.specs.LineSentences.{steps, refusals, failures, bad_codes, traps, faults, modules};
ghost use Rattle.nr_explain.specs.LineSentences.{invalid_modules, module_traps, listings};

use crate::form::{Field, Kind, fields};

static STEPS: [&[Field]; 15] = [
    fields![Word("ok"): "The step was made."],
    fields![
        Word("no"): "The step was not made: ",
        Figure("1"): "it doesn't fit the shard's stage, which is ", Figure("0"): "between chunks.",
        Figure("0"): ""
    ],
    fields![
        Word("no"): "The step was not made: ",
        Figure("1"): "it doesn't fit the shard's stage, which is ",
        Figure("1"): "in an open chunk.", Figure("0"): ""
    ],
    fields![
        Word("no"): "The step was not made: ",
        Figure("1"): "it doesn't fit the shard's stage, which is ", Figure("2"): "behind a seal.",
        Figure("0"): ""
    ],
    fields![
        Word("no"): "The step was not made: ", Figure("2"): "no list is left to take.",
        Figure("0"): "", Figure("0"): ""
    ],
    fields![
        Word("no"): "The step was not made: ",
        Figure("2"): "the next list that is due is that of height ", Number: " and shard ",
        Number: "."
    ],
    fields![
        Word("no"): "The step was not made: ", Figure("3"): "the list isn't published, and ",
        Figure("0"): "its source has published no height.", Figure("0"): ""
    ],
    fields![
        Word("no"): "The step was not made: ",
        Figure("3"): "the list isn't published, and the last height that its source has published is ",
        Number: ".", Figure("0"): ""
    ],
    fields![
        Word("no"): "The step was not made: ",
        Figure("4"): "the shard has no height to publish, since ",
        Figure("0"): "there are no blocks.", Figure("0"): ""
    ],
    fields![
        Word("no"): "The step was not made: ",
        Figure("4"): "the shard has published all its heights. The last height is ", Number: ".",
        Figure("0"): ""
    ],
    fields![
        Word("no"): "The step was not made: ",
        Figure("5"): "the boundaries can't change yet, since shard ", Number: " has published ",
        Figure("0"): "no height."
    ],
    fields![
        Word("no"): "The step was not made: ",
        Figure("5"): "the boundaries can't change yet, since the last height that shard ",
        Number: " has published is ", Number: "."
    ],
    fields![
        Word("no"): "The step was not made: ", Figure("6"): "the boundaries don't change any more.",
        Figure("0"): "", Figure("0"): ""
    ],
    fields![
        Word("no"): "The step was not made: ",
        Figure("7"): "it names a shard that is not there, since there is ",
        Figure("1"): "shard 0 alone.", Figure("0"): ""
    ],
    fields![
        Word("no"): "The step was not made: ",
        Figure("7"): "it names a shard that is not there, since there are ",
        Number: " of them, counted from 0.", Figure("0"): ""
    ],
];

static REFUSALS: [&[Field]; 13] = [
    fields![
        Word("tx"): "Transaction ", Hash: " is refused: ", Word("refused"): "",
        Figure("1"): "the signer has no account in the shard.", Figure("0"): "", Figure("0"): ""
    ],
    fields![
        Word("tx"): "Transaction ", Hash: " is refused: ", Word("refused"): "",
        Figure("2"): "the signer has no such key.", Figure("0"): "", Figure("0"): ""
    ],
    fields![
        Word("tx"): "Transaction ", Hash: " is refused: ", Word("refused"): "",
        Figure("3"): "its nonce isn't above the key's. The key's nonce is ",
        Amount: ", the transaction's ", Amount: "."
    ],
    fields![
        Word("tx"): "Transaction ", Hash: " is refused: ", Word("refused"): "",
        Figure("4"): "it has more actions than max_actions.", Figure("0"): "", Figure("0"): ""
    ],
    fields![
        Word("tx"): "Transaction ", Hash: " is refused: ", Word("refused"): "",
        Figure("5"): "more gas is attached than max_prepaid_gas.", Figure("0"): "", Figure("0"): ""
    ],
    fields![
        Word("tx"): "Transaction ", Hash: " is refused: ", Word("refused"): "",
        Figure("6"): "a key for calls forbids it, since it ", Figure("1"): "isn't one call alone.",
        Figure("0"): ""
    ],
    fields![
        Word("tx"): "Transaction ", Hash: " is refused: ", Word("refused"): "",
        Figure("6"): "a key for calls forbids it, since it ", Figure("2"): "has a deposit.",
        Figure("0"): ""
    ],
    fields![
        Word("tx"): "Transaction ", Hash: " is refused: ", Word("refused"): "",
        Figure("6"): "a key for calls forbids it, since it ", Figure("3"): "has another receiver.",
        Figure("0"): ""
    ],
    fields![
        Word("tx"): "Transaction ", Hash: " is refused: ", Word("refused"): "",
        Figure("6"): "a key for calls forbids it, since it ",
        Figure("4"): "calls a method that the key doesn't name.", Figure("0"): ""
    ],
    fields![
        Word("tx"): "Transaction ", Hash: " is refused: ", Word("refused"): "",
        Figure("7"): "its gas or its whole cost passes the greatest number.", Figure("0"): "",
        Figure("0"): ""
    ],
    fields![
        Word("tx"): "Transaction ", Hash: " is refused: ", Word("refused"): "",
        Figure("8"): "of the key's allowance ", Amount: " is left, but its gas costs ", Amount: "."
    ],
    fields![
        Word("tx"): "Transaction ", Hash: " is refused: ", Word("refused"): "",
        Figure("9"): "the signer has ", Amount: ", but it costs ", Amount: "."
    ],
    fields![
        Word("tx"): "Transaction ", Hash: " is refused: ", Word("refused"): "",
        Figure("10"): "the signer would be left with ",
        Amount: ", locked tokens included, but its storage asks for ", Amount: "."
    ],
];

static FAILURES: [&[Field]; 14] = [
    fields![
        Word("run"): "Receipt ", Hash: " failed at action ", Word("failure"): "",
        Number: " (from 0): ", Figure("1"): "the account to be made stands. ", Figure("0"): "",
        Number: " gas and ", Amount: " tokens were burnt."
    ],
    fields![
        Word("run"): "Receipt ", Hash: " failed at action ", Word("failure"): "",
        Number: " (from 0): ", Figure("2"): "the receiver has no account. ", Figure("0"): "",
        Number: " gas and ", Amount: " tokens were burnt."
    ],
    fields![
        Word("run"): "Receipt ", Hash: " failed at action ", Word("failure"): "",
        Number: " (from 0): ",
        Figure("3"): "the id is `system`, or a short one without a dot that only `registrar` makes. ",
        Figure("0"): "", Number: " gas and ", Amount: " tokens were burnt."
    ],
    fields![
        Word("run"): "Receipt ", Hash: " failed at action ", Word("failure"): "",
        Number: " (from 0): ", Figure("4"): "the id isn't a name, a dot and the predecessor's id. ",
        Figure("0"): "", Number: " gas and ", Amount: " tokens were burnt."
    ],
    fields![
        Word("run"): "Receipt ", Hash: " failed at action ", Word("failure"): "",
        Number: " (from 0): ", Figure("5"): "only the receiver itself may do this. ",
        Figure("0"): "", Number: " gas and ", Amount: " tokens were burnt."
    ],
    fields![
        Word("run"): "Receipt ", Hash: " failed at action ", Word("failure"): "",
        Number: " (from 0): ", Figure("6"): "the key to be deleted doesn't stand. ",
        Figure("0"): "", Number: " gas and ", Amount: " tokens were burnt."
    ],
    fields![
        Word("run"): "Receipt ", Hash: " failed at action ", Word("failure"): "",
        Number: " (from 0): ", Figure("7"): "the key to be added stands. ", Figure("0"): "",
        Number: " gas and ", Amount: " tokens were burnt."
    ],
    fields![
        Word("run"): "Receipt ", Hash: " failed at action ", Word("failure"): "",
        Number: " (from 0): ", Figure("8"): "the account to be deleted has locked tokens. ",
        Figure("0"): "", Number: " gas and ", Amount: " tokens were burnt."
    ],
    fields![
        Word("run"): "Receipt ", Hash: " failed at action ", Word("failure"): "",
        Number: " (from 0): ", Figure("9"): "the account to be deleted has too much state. ",
        Figure("0"): "", Number: " gas and ", Amount: " tokens were burnt."
    ],
    fields![
        Word("run"): "Receipt ", Hash: " failed after its actions (", Word("failure"): "",
        Number: " in all): ", Figure("10"): "the receiver can't pay for its storage. ",
        Figure("0"): "", Number: " gas and ", Amount: " tokens were burnt."
    ],
    fields![
        Word("run"): "Receipt ", Hash: " failed at action ", Word("failure"): "",
        Number: " (from 0): ",
        Figure("11"): "only a transfer makes an account with an id of 64 hexadecimal digits. ",
        Figure("0"): "", Number: " gas and ", Amount: " tokens were burnt."
    ],
    fields![
        Word("run"): "Receipt ", Hash: " failed at action ", Word("failure"): "",
        Number: " (from 0): ", Figure("12"): "the called account has no code. ", Figure("0"): "",
        Number: " gas and ", Amount: " tokens were burnt."
    ],
    fields![
        Word("run"): "Receipt ", Hash: " failed at action ", Word("failure"): "",
        Number: " (from 0): ", Figure("14"): "its code has no such method. ", Figure("0"): "",
        Number: " gas and ", Amount: " tokens were burnt."
    ],
    fields![
        Word("run"): "Receipt ", Hash: " failed at action ", Word("failure"): "",
        Number: " (from 0): ", Figure("17"): "the call used up its gas. ", Figure("0"): "",
        Number: " gas and ", Amount: " tokens were burnt."
    ],
];

static BAD_CODES: [&[Field]; 13] = [
    fields![
        Word("run"): "Receipt ", Hash: " failed at action ", Word("failure"): "",
        Number: " (from 0): ", Figure("13"): "the code is no valid module: ",
        Figure("1"): "a field is too short. ", Number: " gas and ", Amount: " tokens were burnt."
    ],
    fields![
        Word("run"): "Receipt ", Hash: " failed at action ", Word("failure"): "",
        Number: " (from 0): ", Figure("13"): "the code is no valid module: ",
        Figure("2"): "a LEB128 is too long or has wrong bits. ", Number: " gas and ",
        Amount: " tokens were burnt."
    ],
    fields![
        Word("run"): "Receipt ", Hash: " failed at action ", Word("failure"): "",
        Number: " (from 0): ", Figure("13"): "the code is no valid module: ",
        Figure("3"): "the magic number, the version, or the id, order, size or count of a section or a body \
        is wrong. ",
        Number: " gas and ", Amount: " tokens were burnt."
    ],
    fields![
        Word("run"): "Receipt ", Hash: " failed at action ", Word("failure"): "",
        Number: " (from 0): ", Figure("13"): "the code is no valid module: ",
        Figure("4"): "a byte is no opcode, type, kind or flag that may stand there. ",
        Number: " gas and ", Amount: " tokens were burnt."
    ],
    fields![
        Word("run"): "Receipt ", Hash: " failed at action ", Word("failure"): "",
        Number: " (from 0): ", Figure("13"): "the code is no valid module: ",
        Figure("5"): "it has a float. ", Number: " gas and ", Amount: " tokens were burnt."
    ],
    fields![
        Word("run"): "Receipt ", Hash: " failed at action ", Word("failure"): "",
        Number: " (from 0): ", Figure("13"): "the code is no valid module: ",
        Figure("6"): "a name isn't UTF-8. ", Number: " gas and ", Amount: " tokens were burnt."
    ],
    fields![
        Word("run"): "Receipt ", Hash: " failed at action ", Word("failure"): "",
        Number: " (from 0): ", Figure("13"): "the code is no valid module: ",
        Figure("7"): "it has too many bytes of code, entries of a list, locals, blocks in one another or \
        results of a type. ", Number: " gas and ", Amount: " tokens were burnt."
    ],
    fields![
        Word("run"): "Receipt ", Hash: " failed at action ", Word("failure"): "",
        Number: " (from 0): ", Figure("13"): "the code is no valid module: ",
        Figure("11"): "an operand, a result or a constant has another type. ", Number: " gas and ",
        Amount: " tokens were burnt."
    ],
    fields![
        Word("run"): "Receipt ", Hash: " failed at action ", Word("failure"): "",
        Number: " (from 0): ", Figure("13"): "the code is no valid module: ",
        Figure("12"): "a type, function, table, memory, global or local isn't there, an export's name stands \
        twice, or a constant global is assigned. ", Number: " gas and ",
        Amount: " tokens were burnt."
    ],
    fields![
        Word("run"): "Receipt ", Hash: " failed at action ", Word("failure"): "",
        Number: " (from 0): ", Figure("13"): "the code is no valid module: ",
        Figure("13"): "a branch leads past the open blocks, or to labels of unequal type. ",
        Number: " gas and ", Amount: " tokens were burnt."
    ],
    fields![
        Word("run"): "Receipt ", Hash: " failed at action ", Word("failure"): "",
        Number: " (from 0): ", Figure("13"): "the code is no valid module: ",
        Figure("14"): "a limit is passed. ", Number: " gas and ", Amount: " tokens were burnt."
    ],
    fields![
        Word("run"): "Receipt ", Hash: " failed at action ", Word("failure"): "",
        Number: " (from 0): ", Figure("13"): "the code is no valid module: ",
        Figure("15"): "an import is no function that a contract may have. ", Number: " gas and ",
        Amount: " tokens were burnt."
    ],
    fields![
        Word("run"): "Receipt ", Hash: " failed at action ", Word("failure"): "",
        Number: " (from 0): ", Figure("13"): "the code is no valid module: ",
        Figure("21"): "an element or a segment doesn't fit. ", Number: " gas and ",
        Amount: " tokens were burnt."
    ],
];

static TRAPS: [&[Field]; 8] = [
    fields![
        Word("run"): "Receipt ", Hash: " failed at action ", Word("failure"): "",
        Number: " (from 0): ", Figure("15"): "the call trapped: ", Figure("1"): "`unreachable`. ",
        Number: " gas and ", Amount: " tokens were burnt."
    ],
    fields![
        Word("run"): "Receipt ", Hash: " failed at action ", Word("failure"): "",
        Number: " (from 0): ", Figure("15"): "the call trapped: ",
        Figure("2"): "an access outside of memory. ", Number: " gas and ",
        Amount: " tokens were burnt."
    ],
    fields![
        Word("run"): "Receipt ", Hash: " failed at action ", Word("failure"): "",
        Number: " (from 0): ", Figure("15"): "the call trapped: ",
        Figure("3"): "a division by zero. ", Number: " gas and ", Amount: " tokens were burnt."
    ],
    fields![
        Word("run"): "Receipt ", Hash: " failed at action ", Word("failure"): "",
        Number: " (from 0): ", Figure("15"): "the call trapped: ",
        Figure("4"): "a quotient that its type can't hold. ", Number: " gas and ",
        Amount: " tokens were burnt."
    ],
    fields![
        Word("run"): "Receipt ", Hash: " failed at action ", Word("failure"): "",
        Number: " (from 0): ", Figure("15"): "the call trapped: ",
        Figure("5"): "a call outside of the table. ", Number: " gas and ",
        Amount: " tokens were burnt."
    ],
    fields![
        Word("run"): "Receipt ", Hash: " failed at action ", Word("failure"): "",
        Number: " (from 0): ", Figure("15"): "the call trapped: ",
        Figure("6"): "a call of a place that holds no function. ", Number: " gas and ",
        Amount: " tokens were burnt."
    ],
    fields![
        Word("run"): "Receipt ", Hash: " failed at action ", Word("failure"): "",
        Number: " (from 0): ", Figure("15"): "the call trapped: ",
        Figure("7"): "a call of a function of another type. ", Number: " gas and ",
        Amount: " tokens were burnt."
    ],
    fields![
        Word("run"): "Receipt ", Hash: " failed at action ", Word("failure"): "",
        Number: " (from 0): ", Figure("15"): "the call trapped: ",
        Figure("8"): "too many frames, or operands and locals. ", Number: " gas and ",
        Amount: " tokens were burnt."
    ],
];

static FAULTS: [&[Field]; 19] = [
    fields![
        Word("run"): "Receipt ", Hash: " failed at action ", Word("failure"): "",
        Number: " (from 0): ", Figure("16"): "the call asked for what it can't have: ",
        Figure("1"): "the register is absent. ", Number: " gas and ", Amount: " tokens were burnt."
    ],
    fields![
        Word("run"): "Receipt ", Hash: " failed at action ", Word("failure"): "",
        Number: " (from 0): ", Figure("16"): "the call asked for what it can't have: ",
        Figure("2"): "a range isn't inside the memory. ", Number: " gas and ",
        Amount: " tokens were burnt."
    ],
    fields![
        Word("run"): "Receipt ", Hash: " failed at action ", Word("failure"): "",
        Number: " (from 0): ", Figure("16"): "the call asked for what it can't have: ",
        Figure("3"): "the registers would hold too much. ", Number: " gas and ",
        Amount: " tokens were burnt."
    ],
    fields![
        Word("run"): "Receipt ", Hash: " failed at action ", Word("failure"): "",
        Number: " (from 0): ", Figure("16"): "the call asked for what it can't have: ",
        Figure("4"): "a text isn't UTF-8. ", Number: " gas and ", Amount: " tokens were burnt."
    ],
    fields![
        Word("run"): "Receipt ", Hash: " failed at action ", Word("failure"): "",
        Number: " (from 0): ", Figure("16"): "the call asked for what it can't have: ",
        Figure("5"): "the bytes are no account id. ", Number: " gas and ",
        Amount: " tokens were burnt."
    ],
    fields![
        Word("run"): "Receipt ", Hash: " failed at action ", Word("failure"): "",
        Number: " (from 0): ", Figure("16"): "the call asked for what it can't have: ",
        Figure("6"): "there is no promise of this index. ", Number: " gas and ",
        Amount: " tokens were burnt."
    ],
    fields![
        Word("run"): "Receipt ", Hash: " failed at action ", Word("failure"): "",
        Number: " (from 0): ", Figure("16"): "the call asked for what it can't have: ",
        Figure("7"): "the method's name is empty. ", Number: " gas and ",
        Amount: " tokens were burnt."
    ],
    fields![
        Word("run"): "Receipt ", Hash: " failed at action ", Word("failure"): "",
        Number: " (from 0): ", Figure("16"): "the call asked for what it can't have: ",
        Figure("8"): "the deposit is above the account's amount. ", Number: " gas and ",
        Amount: " tokens were burnt."
    ],
    fields![
        Word("run"): "Receipt ", Hash: " failed at action ", Word("failure"): "",
        Number: " (from 0): ", Figure("16"): "the call asked for what it can't have: ",
        Figure("9"): "the key is longer than max_key_bytes. ", Number: " gas and ",
        Amount: " tokens were burnt."
    ],
    fields![
        Word("run"): "Receipt ", Hash: " failed at action ", Word("failure"): "",
        Number: " (from 0): ", Figure("16"): "the call asked for what it can't have: ",
        Figure("10"): "the value is longer than max_value_bytes. ", Number: " gas and ",
        Amount: " tokens were burnt."
    ],
    fields![
        Word("run"): "Receipt ", Hash: " failed at action ", Word("failure"): "",
        Number: " (from 0): ", Figure("16"): "the call asked for what it can't have: ",
        Figure("11"): "there are too many logs, or too long ones. ", Number: " gas and ",
        Amount: " tokens were burnt."
    ],
    fields![
        Word("run"): "Receipt ", Hash: " failed at action ", Word("failure"): "",
        Number: " (from 0): ", Figure("16"): "the call asked for what it can't have: ",
        Figure("12"): "there are max_promises promises. ", Number: " gas and ",
        Amount: " tokens were burnt."
    ],
    fields![
        Word("run"): "Receipt ", Hash: " failed at action ", Word("failure"): "",
        Number: " (from 0): ", Figure("16"): "the call asked for what it can't have: ",
        Figure("13"): "there is no result of this index. ", Number: " gas and ",
        Amount: " tokens were burnt."
    ],
    fields![
        Word("run"): "Receipt ", Hash: " failed at action ", Word("failure"): "",
        Number: " (from 0): ", Figure("16"): "the call asked for what it can't have: ",
        Figure("14"): "the contract gave up. ", Number: " gas and ", Amount: " tokens were burnt."
    ],
    fields![
        Word("run"): "Receipt ", Hash: " failed at action ", Word("failure"): "",
        Number: " (from 0): ", Figure("16"): "the call asked for what it can't have: ",
        Figure("15"): "the value is longer than max_return_bytes. ", Number: " gas and ",
        Amount: " tokens were burnt."
    ],
    fields![
        Word("run"): "Receipt ", Hash: " failed at action ", Word("failure"): "",
        Number: " (from 0): ", Figure("16"): "the call asked for what it can't have: ",
        Figure("16"): "the bytes aren't exactly one public key. ", Number: " gas and ",
        Amount: " tokens were burnt."
    ],
    fields![
        Word("run"): "Receipt ", Hash: " failed at action ", Word("failure"): "",
        Number: " (from 0): ", Figure("16"): "the call asked for what it can't have: ",
        Figure("17"): "the promise is a joint one. ", Number: " gas and ",
        Amount: " tokens were burnt."
    ],
    fields![
        Word("run"): "Receipt ", Hash: " failed at action ", Word("failure"): "",
        Number: " (from 0): ", Figure("16"): "the call asked for what it can't have: ",
        Figure("18"): "the receipt has max_actions actions. ", Number: " gas and ",
        Amount: " tokens were burnt."
    ],
    fields![
        Word("run"): "Receipt ", Hash: " failed at action ", Word("failure"): "",
        Number: " (from 0): ", Figure("16"): "the call asked for what it can't have: ",
        Figure("19"): "more than 128 receipts would be joined. ", Number: " gas and ",
        Amount: " tokens were burnt."
    ],
];

static MODULES: [&[Field]; 14] = [
    fields![Word("ok"): "The module decodes and is valid."],
    fields![Word("long"): "The file is longer than 67108864 bytes."],
    fields![Word("end"): "The run came to its end and burnt ", Amount: " gas."],
    fields![
        Word("fault"): "The run called a function of the host, and there is none here. ",
        Figure("20"): "It burnt ", Amount: " gas."
    ],
    fields![Word("gas"): "The gas wasn't enough. All was burnt, ", Amount: "."],
    fields![
        Word("make"): "Nothing was run: ", Figure("21"): "an element or a segment doesn't fit."
    ],
    fields![Word("method"): "The module has no such method."],
    fields![
        Word("decode"): "The module can't be read: ", Figure("1"): "a field is too short, at byte ",
        Number: " (from 0)."
    ],
    fields![
        Word("decode"): "The module can't be read: ",
        Figure("2"): "a LEB128 is too long or has wrong bits, at byte ", Number: " (from 0)."
    ],
    fields![
        Word("decode"): "The module can't be read: ",
        Figure("3"): "the magic number, the version, or the id, order, size or count of a section or a body \
        is wrong, at byte ",
        Number: " (from 0)."
    ],
    fields![
        Word("decode"): "The module can't be read: ",
        Figure("4"): "a byte is no opcode, type, kind or flag that may stand there, at byte ",
        Number: " (from 0)."
    ],
    fields![
        Word("decode"): "The module can't be read: ", Figure("5"): "it has a float, at byte ",
        Number: " (from 0)."
    ],
    fields![
        Word("decode"): "The module can't be read: ", Figure("6"): "a name isn't UTF-8, at byte ",
        Number: " (from 0)."
    ],
    fields![
        Word("decode"): "The module can't be read: ",
        Figure("7"): "it has too many bytes of code, entries of a list, locals, blocks in one another or \
        results of a type, at byte ",
        Number: " (from 0)."
    ],
];

static INVALID_MODULES: [&[Field]; 10] = [
    fields![
        Word("valid"): "The module isn't valid: ",
        Figure("11"): "an operand, a result or a constant has another type",
        Figure("4294967295"): ", outside of functions, at entry ", Number: " (from 0)."
    ],
    fields![
        Word("valid"): "The module isn't valid: ",
        Figure("11"): "an operand, a result or a constant has another type, in function ",
        Number: " at instruction ", Number: " (from 0)."
    ],
    fields![
        Word("valid"): "The module isn't valid: ",
        Figure("12"): "a type, function, table, memory, global or local isn't there, an export's name stands \
        twice, or a constant global is assigned",
        Figure("4294967295"): ", outside of functions, at entry ", Number: " (from 0)."
    ],
    fields![
        Word("valid"): "The module isn't valid: ",
        Figure("12"): "a type, function, table, memory, global or local isn't there, an export's name stands \
        twice, or a constant global is assigned, in function ", Number: " at instruction ",
        Number: " (from 0)."
    ],
    fields![
        Word("valid"): "The module isn't valid: ",
        Figure("13"): "a branch leads past the open blocks, or to labels of unequal type",
        Figure("4294967295"): ", outside of functions, at entry ", Number: " (from 0)."
    ],
    fields![
        Word("valid"): "The module isn't valid: ",
        Figure("13"): "a branch leads past the open blocks, or to labels of unequal type, in function ",
        Number: " at instruction ", Number: " (from 0)."
    ],
    fields![
        Word("valid"): "The module isn't valid: ", Figure("14"): "a limit is passed",
        Figure("4294967295"): ", outside of functions, at entry ", Number: " (from 0)."
    ],
    fields![
        Word("valid"): "The module isn't valid: ", Figure("14"): "a limit is passed, in function ",
        Number: " at instruction ", Number: " (from 0)."
    ],
    fields![
        Word("valid"): "The module isn't valid: ",
        Figure("15"): "an import is no function that a contract may have",
        Figure("4294967295"): ", outside of functions, at entry ", Number: " (from 0)."
    ],
    fields![
        Word("valid"): "The module isn't valid: ",
        Figure("15"): "an import is no function that a contract may have, in function ",
        Number: " at instruction ", Number: " (from 0)."
    ],
];

static MODULE_TRAPS: [&[Field]; 9] = [
    fields![
        Word("trap"): "The run stopped at a trap: ", Figure("1"): "`unreachable`. It burnt ",
        Amount: " gas."
    ],
    fields![
        Word("trap"): "The run stopped at a trap: ",
        Figure("2"): "an access outside of memory. It burnt ", Amount: " gas."
    ],
    fields![
        Word("trap"): "The run stopped at a trap: ", Figure("3"): "a division by zero. It burnt ",
        Amount: " gas."
    ],
    fields![
        Word("trap"): "The run stopped at a trap: ",
        Figure("4"): "a quotient that its type can't hold. It burnt ", Amount: " gas."
    ],
    fields![
        Word("trap"): "The run stopped at a trap: ",
        Figure("5"): "a call outside of the table. It burnt ", Amount: " gas."
    ],
    fields![
        Word("trap"): "The run stopped at a trap: ",
        Figure("6"): "a call of a place that holds no function. It burnt ", Amount: " gas."
    ],
    fields![
        Word("trap"): "The run stopped at a trap: ",
        Figure("7"): "a call of a function of another type. It burnt ", Amount: " gas."
    ],
    fields![
        Word("trap"): "The run stopped at a trap: ",
        Figure("8"): "too many frames, or operands and locals. It burnt ", Amount: " gas."
    ],
    fields![
        Word("at"): "The instruction that trapped stands in function ", Number: ", at byte ",
        Number: " (from 0) of the file."
    ],
];

static LISTINGS: [&[Field]; 15] = [
    fields![
        Word("import"): "The module imports ", Name: " ", Name: ": ", Word("ok"): "the host has it."
    ],
    fields![
        Word("import"): "The module imports ", Name: " ", Name: ": ",
        Word("kind"): "it is no function."
    ],
    fields![
        Word("import"): "The module imports ", Name: " ", Name: ": ",
        Word("module"): "the host has nothing but `env`."
    ],
    fields![
        Word("import"): "The module imports ", Name: " ", Name: ": ",
        Word("name"): "the host has no function of this name."
    ],
    fields![
        Word("import"): "The module imports ", Name: " ", Name: ": ",
        Word("type"): "the host's function of this name has another type."
    ],
    fields![Word("export"): "The module exports ", Word("method"): "a method: ", Name: "."],
    fields![
        Word("export"): "The module exports ", Word("function"): "a function that is no method: ",
        Name: "."
    ],
    fields![Word("export"): "The module exports ", Word("table"): "a table: ", Name: "."],
    fields![Word("export"): "The module exports ", Word("memory"): "a memory: ", Name: "."],
    fields![Word("export"): "The module exports ", Word("global"): "a global: ", Name: "."],
    fields![
        Word("table"): "The table has at least ", Number: " entries, ",
        Word("none"): "and no bound."
    ],
    fields![
        Word("table"): "The table has at least ", Number: " entries, and at most ", Number: "."
    ],
    fields![
        Word("memory"): "The memory has at least ", Number: " pages of 64 KiB, ",
        Word("none"): "and no bound."
    ],
    fields![
        Word("memory"): "The memory has at least ", Number: " pages of 64 KiB, and at most ",
        Number: "."
    ],
    fields![Word("size"): "So many bytes has the file: ", Number: "."],
];

/// Steps that were made or not.
#[tactic(auto, unfolding(crate::specs::LineSentences::steps))]
pub(crate) fn steps() -> &'static [&'static [Field]; 15]
    ensures { map (λ f. form_in f.now) result.now ≡ steps }
{
    &STEPS
}

/// Transactions that are refused.
#[tactic(auto, unfolding(crate::specs::LineSentences::refusals))]
pub(crate) fn refusals() -> &'static [&'static [Field]; 13]
    ensures { map (λ f. form_in f.now) result.now ≡ refusals }
{
    &REFUSALS
}

/// Receipts that failed.
#[tactic(auto, unfolding(crate::specs::LineSentences::failures))]
pub(crate) fn failures() -> &'static [&'static [Field]; 14]
    ensures { map (λ f. form_in f.now) result.now ≡ failures }
{
    &FAILURES
}

/// Calls of code that is no module.
#[tactic(auto, unfolding(crate::specs::LineSentences::bad_codes))]
pub(crate) fn bad_codes() -> &'static [&'static [Field]; 13]
    ensures { map (λ f. form_in f.now) result.now ≡ bad_codes }
{
    &BAD_CODES
}

/// Calls that trapped.
#[tactic(auto, unfolding(crate::specs::LineSentences::traps))]
pub(crate) fn traps() -> &'static [&'static [Field]; 8]
    ensures { map (λ f. form_in f.now) result.now ≡ traps }
{
    &TRAPS
}

/// Calls that asked for what they can't have.
#[tactic(auto, unfolding(crate::specs::LineSentences::faults))]
pub(crate) fn faults() -> &'static [&'static [Field]; 19]
    ensures { map (λ f. form_in f.now) result.now ≡ faults }
{
    &FAULTS
}

/// Modules, and runs of them.
#[tactic(auto, unfolding(crate::specs::LineSentences::modules))]
pub(crate) fn modules() -> &'static [&'static [Field]; 14]
    ensures { map (λ f. form_in f.now) result.now ≡ modules }
{
    &MODULES
}

/// Modules that aren't valid.
#[tactic(auto, unfolding(crate::specs::LineSentences::invalid_modules))]
pub(crate) fn invalid_modules() -> &'static [&'static [Field]; 10]
    ensures { map (λ f. form_in f.now) result.now ≡ invalid_modules }
{
    &INVALID_MODULES
}

/// Runs that trapped, and where.
#[tactic(auto, unfolding(crate::specs::LineSentences::module_traps))]
pub(crate) fn module_traps() -> &'static [&'static [Field]; 9]
    ensures { map (λ f. form_in f.now) result.now ≡ module_traps }
{
    &MODULE_TRAPS
}

/// What a module brings.
#[tactic(auto, unfolding(crate::specs::LineSentences::listings))]
pub(crate) fn listings() -> &'static [&'static [Field]; 15]
    ensures { map (λ f. form_in f.now) result.now ≡ listings }
{
    &LISTINGS
}
