//! Lines that programs write, each with its sentence, written out by hand. `ID` and `OTHER` stand for hashes.

/// Statuses.
pub(crate) const STATUSES: [(&str, &str); 12] = [
    ("1", "The words are no command."),
    (
        "2 4 4",
        "The configuration is refused: entry 4, regular_op_cost (1 to 1000000000), is out of its bounds.",
    ),
    (
        "2 2 73",
        "The configuration is refused: entry 73, delete_account_send_local (0 to 1000000000000000), is missing.",
    ),
    (
        "3 4 0 182 100",
        "The genesis is refused: entry 0 (from 0) states a storage usage of 182 bytes, but 100 are counted.",
    ),
    (
        "4 1 159",
        "The blocks are refused: the field at byte 159 (from 0) can't be read.",
    ),
    (
        "8 1 3",
        "The schedule is refused: line 3 (from 1) is no step, or names a shard that is not there.",
    ),
    (
        "10 1 3",
        "The proof is refused: line 3 (from 1) has not the form that a proof has there.",
    ),
    (
        "11 0",
        "There is no such chunk, or it has no item of the kind.",
    ),
    (
        "11 5",
        "There is no item at that place: the chunk has only 5 of the kind.",
    ),
    (
        "12 3 0",
        "The gathered chunk is refused: the text of a node has not its form or doesn't fit its place or \
        its children, or a value has another length than its node tells.",
    ),
    (
        "13 5 2",
        "The state parts are refused: part 2 (from 0) has the text of a node that has not its form, or \
        doesn't fit its place or its children.",
    ),
    (
        "13 7 1",
        "The state parts are refused: part 1 (from 0) has another number, or another count of parts.",
    ),
];

/// Refusals, failures and steps.
pub(crate) const REFUSALS: [(&str, &str); 16] = [
    (
        "tx ID refused 9 100 4005",
        "Transaction ID is refused: the signer has 100, but it costs 4005.",
    ),
    (
        "run ID failure 0 16 14 5 25",
        "Receipt ID failed at action 0 (from 0): the call asked for what it can't have: the \
        contract gave up. 5 gas and 25 tokens were burnt.",
    ),
    (
        "run ID failure 2 10 0 5 25",
        "Receipt ID failed after its actions (2 in all): the receiver can't pay for its storage. 5 gas \
        and 25 tokens were burnt.",
    ),
    (
        "run ID failure 0 13 3 5 25",
        "Receipt ID failed at action 0 (from 0): the code is no valid module: the magic number, the \
        version, or the id, order, size or count of a section or a body is wrong. 5 gas and 25 tokens \
        were burnt.",
    ),
    (
        "no 1 2 0",
        "The step was not made: it doesn't fit the shard's stage, which is behind a seal.",
    ),
    (
        "no 2 4 1",
        "The step was not made: the next list that is due is that of height 4 and shard 1.",
    ),
    (
        "no 3 0 0",
        "The step was not made: the list isn't published, and its source has published no \
        height.",
    ),
    (
        "no 3 5 0",
        "The step was not made: the list isn't published, and the last height that its source \
        has published is 5.",
    ),
    (
        "no 4 0 0",
        "The step was not made: the shard has no height to publish, since there are no \
        blocks.",
    ),
    (
        "no 4 7 0",
        "The step was not made: the shard has published all its heights. The last height is \
        7.",
    ),
    (
        "no 5 0 0",
        "The step was not made: the boundaries can't change yet, since shard 0 has published \
        no height.",
    ),
    (
        "no 5 1 3",
        "The step was not made: the boundaries can't change yet, since the last height that \
        shard 1 has published is 3.",
    ),
    (
        "no 6 0 0",
        "The step was not made: the boundaries don't change any more.",
    ),
    (
        "no 7 1 0",
        "The step was not made: it names a shard that is not there, since there is shard 0 \
        alone.",
    ),
    (
        "no 7 4 0",
        "The step was not made: it names a shard that is not there, since there are 4 of \
        them, counted from 0.",
    ),
    ("ok", "The step was made."),
];

/// Lines of modules.
pub(crate) const MODULES: [(&str, &str); 9] = [
    ("near_module ok", "The module decodes and is valid."),
    (
        "near_module decode 3 8",
        "The module can't be read: the magic number, the version, or the id, order, size or count of a \
        section or a body is wrong, at byte 8 (from 0).",
    ),
    (
        "decode 7 20",
        "The module can't be read: it has too many bytes of code, entries of a list, locals, blocks in \
        one another or results of a type, at byte 20 (from 0).",
    ),
    (
        "valid 11 4294967295 2",
        "The module isn't valid: an operand, a result or a constant has another type, outside \
        of functions, at entry 2 (from 0).",
    ),
    (
        "valid 12 4294967295 2",
        "The module isn't valid: a type, function, table, memory, global or local isn't there, an \
        export's name stands twice, or a constant global is assigned, outside of functions, at entry 2 \
        (from 0).",
    ),
    (
        "valid 12 7 3",
        "The module isn't valid: a type, function, table, memory, global or local isn't there, an \
        export's name stands twice, or a constant global is assigned, in function 7 at instruction 3 \
        (from 0).",
    ),
    (
        "valid 13 7 3",
        "The module isn't valid: a branch leads past the open blocks, or to labels of unequal type, in \
        function 7 at instruction 3 (from 0).",
    ),
    (
        "trap 3 12",
        "The run stopped at a trap: a division by zero. It burnt 12 gas.",
    ),
    (
        "at 3 117",
        "The instruction that trapped stands in function 3, at byte 117 (from 0) of the file.",
    ),
];

/// Lines of a listing.
pub(crate) const LISTING: [(&str, &str); 15] = [
    (
        "import env storage_write ok",
        "The module imports env storage_write: the host has it.",
    ),
    (
        "near_module import env memory kind",
        "The module imports env memory: it is no function.",
    ),
    (
        "import  a\\20b module",
        "The module imports  a\\20b: the host has nothing but `env`.",
    ),
    (
        "import env sleep name",
        "The module imports env sleep: the host has no function of this name.",
    ),
    (
        "import env log_utf8 type",
        "The module imports env log_utf8: the host's function of this name has another type.",
    ),
    ("export method go", "The module exports a method: go."),
    (
        "export function add",
        "The module exports a function that is no method: add.",
    ),
    ("export table t", "The module exports a table: t."),
    (
        "export memory memory",
        "The module exports a memory: memory.",
    ),
    ("export global ", "The module exports a global: ."),
    (
        "table 1 none",
        "The table has at least 1 entries, and no bound.",
    ),
    (
        "table 1 2",
        "The table has at least 1 entries, and at most 2.",
    ),
    (
        "memory 1 none",
        "The memory has at least 1 pages of 64 KiB, and no bound.",
    ),
    (
        "near_module memory 1 2",
        "The memory has at least 1 pages of 64 KiB, and at most 2.",
    ),
    ("size 40", "So many bytes has the file: 40."),
];

/// Lines of a call.
pub(crate) const CALL: [(&str, &str); 17] = [
    (
        "value - 5",
        "The call came to its end. It gave no bytes. It burnt 5 gas.",
    ),
    (
        "near_module value 00ff 5",
        "The call came to its end. It gave the bytes 00ff. It burnt 5 gas.",
    ),
    (
        "promise ID 5",
        "The call came to its end. Its value will be that of receipt ID. It burnt 5 gas.",
    ),
    (
        "failure 13 21 7",
        "The call failed: the code is no valid module: an element or a segment doesn't fit. It burnt 7 gas.",
    ),
    (
        "failure 14 0 7",
        "The call failed: the code has no such method. It burnt 7 gas.",
    ),
    (
        "failure 15 3 7",
        "The call failed: it trapped: a division by zero. It burnt 7 gas.",
    ),
    (
        "near_module failure 16 14 7",
        "The call failed: it asked for what it can't have: the contract gave up. It burnt 7 gas.",
    ),
    (
        "failure 17 0 7",
        "The call failed: it used up its gas. It burnt 7 gas.",
    ),
    ("near_module log -", "The call logged no bytes."),
    ("near_module log 6869", "The call logged the bytes 6869."),
    ("store - -", "The storage has the empty key, with no bytes."),
    (
        "store - 00",
        "The storage has the empty key, with the bytes 00.",
    ),
    ("store 6b -", "The storage has the key 6b, with no bytes."),
    (
        "store 6b 7676",
        "The storage has the key 6b, with the bytes 7676.",
    ),
    ("receipt ID bob", "The call made receipt ID for bob."),
    ("wait ID", "The receipt waits for datum ID."),
    (
        "give ID contract",
        "The receipt gives its result as datum ID to contract.",
    ),
];

/// Lines of a report.
pub(crate) const REPORT: [(&str, &str); 21] = [
    (
        "chunk 3 1 ID 12 34",
        "The chunk of height 3 and shard 1 is sealed. The root of its state is ID. For it 12 \
        gas and 34 tokens were burnt.",
    ),
    ("tx ID ok OTHER", "Transaction ID became receipt OTHER."),
    (
        "run ID value - 5 25",
        "Receipt ID ran to its end. It gave no bytes. 5 gas and 25 tokens were burnt.",
    ),
    (
        "run ID value 00ff 5 25",
        "Receipt ID ran to its end. It gave the bytes 00ff. 5 gas and 25 tokens were burnt.",
    ),
    (
        "run ID promise OTHER 5 25",
        "Receipt ID ran to its end. Its value will be that of receipt OTHER. 5 gas and 25 \
        tokens were burnt.",
    ),
    (
        "run ID clash 0 25",
        "Receipt ID didn't run, since two of its inputs are equal, or a receipt that is postponed at its \
        receiver has one of them or its id. No gas and 25 tokens were burnt.",
    ),
    ("log -", "The receipt logged no bytes."),
    ("log 00ff", "The receipt logged the bytes 00ff."),
    (
        "post ID",
        "Receipt ID is postponed, since it waits for data.",
    ),
    (
        "data ID",
        "Receipt ID brought data, which are stored or used.",
    ),
    (
        "lost ID",
        "Receipt ID brought data that clash with those that stand, and they are lost.",
    ),
    (
        "late ID",
        "Receipt ID is delayed: it stands behind all that are.",
    ),
    (
        "out 2 ID OTHER",
        "A receipt goes out to shard 2: ID, and the SHA-256 of its bytes is OTHER.",
    ),
    ("total supply 7", "The genesis has 7 tokens."),
    ("total accounts 7", "The accounts have 7 tokens."),
    (
        "total receipts 7",
        "The receipts that are under way have 7 tokens.",
    ),
    ("total burnt 7", "7 tokens were burnt."),
    (
        "total places 1 2 3 4 5",
        "Of the receipts 1 were routed and 2 executed, 3 wait for data, 4 are delayed, and 5 \
        are in flight.",
    ),
    (
        "gen 7 2 4",
        "The chain is generated from the number 7 for 2 shards and 4 blocks.",
    ),
    ("chunks 8", "So many chunks were sealed: 8."),
    ("digest ID", "The SHA-256 of the report is ID."),
];

/// Lines of other commands.
pub(crate) const OTHERS: [(&str, &str); 10] = [
    (
        "roots 1 0 ID OTHER",
        "Of the chunk of height 1 and shard 0 the root of its outcomes is ID, and that of the \
        receipts that left it OTHER.",
    ),
    (
        "proof outcome 1 0 2 3",
        "The proof is of an outcome of the chunk of height 1 and shard 0, the one at place 2 \
        (from 0) of 3.",
    ),
    (
        "proof receipt 1 0 2 3",
        "The proof is of a receipt that left the chunk of height 1 and shard 0, the one at \
        place 2 (from 0) of 3.",
    ),
    ("item -", "The item has no bytes."),
    ("item 00ff", "The bytes of the item are 00ff."),
    (
        "path ID",
        "The next hash beside the way from the item upward is ID.",
    ),
    ("valid", "The proof leads to the root."),
    ("invalid", "The proof doesn't lead to the root."),
    (
        "part 1 2 entries 3",
        "Part 1 (from 0) of 2 belongs to the root. It has 3 of the entries.",
    ),
    (
        "root ID entries 3",
        "The parts are together the state of the root ID. It has so many entries: 3.",
    ),
];

/// Lines behind the name of their program.
pub(crate) const BEHIND: [(&str, &str); 7] = [
    (
        "near_serial 8 1 3",
        "The schedule is refused: line 3 (from 1) is no step, or names a shard that is not \
        there.",
    ),
    ("near_serial ok", "The step was made."),
    (
        "near_replay 4 1 159",
        "The blocks are refused: the field at byte 159 (from 0) can't be read.",
    ),
    ("near_replay total burnt 7", "7 tokens were burnt."),
    (
        "near_audit 3 5 0 0 0",
        "The genesis is refused: its amounts and locked amounts are together above 2^127.",
    ),
    (
        "near_module 2 1 0",
        "The configuration is refused: its text is no JSON object.",
    ),
    ("near_files 7", "Memory ran out."),
];

/// The parts of a failure 13, and what they say.
pub(crate) const NO_MODULE: [(&str, &str); 12] = [
    ("1", "a field is too short"),
    ("2", "a LEB128 is too long or has wrong bits"),
    (
        "3",
        "the magic number, the version, or the id, order, size or count of a section or a body is wrong",
    ),
    (
        "4",
        "a byte is no opcode, type, kind or flag that may stand there",
    ),
    ("5", "it has a float"),
    ("6", "a name isn't UTF-8"),
    (
        "7",
        "it has too many bytes of code, entries of a list, locals, blocks in one another or results of a type",
    ),
    ("11", "an operand, a result or a constant has another type"),
    (
        "12",
        "a type, function, table, memory, global or local isn't there, an export's name stands twice, or a constant \
        global is assigned",
    ),
    (
        "13",
        "a branch leads past the open blocks, or to labels of unequal type",
    ),
    ("14", "a limit is passed"),
    ("15", "an import is no function that a contract may have"),
];

/// The parts of a failure 15, and what they say.
pub(crate) const TRAPS: [(&str, &str); 7] = [
    ("1", "`unreachable`"),
    ("2", "an access outside of memory"),
    ("4", "a quotient that its type can't hold"),
    ("5", "a call outside of the table"),
    ("6", "a call of a place that holds no function"),
    ("7", "a call of a function of another type"),
    ("8", "too many frames, or operands and locals"),
];

/// The parts of a failure 16, and what they say.
pub(crate) const CANNOT_HAVE: [(&str, &str); 18] = [
    ("1", "the register is absent"),
    ("2", "a range isn't inside the memory"),
    ("3", "the registers would hold too much"),
    ("4", "a text isn't UTF-8"),
    ("5", "the bytes are no account id"),
    ("6", "there is no promise of this index"),
    ("7", "the method's name is empty"),
    ("8", "the deposit is above the account's amount"),
    ("9", "the key is longer than max_key_bytes"),
    ("10", "the value is longer than max_value_bytes"),
    ("11", "there are too many logs, or too long ones"),
    ("12", "there are max_promises promises"),
    ("13", "there is no result of this index"),
    ("15", "the value is longer than max_return_bytes"),
    ("16", "the bytes aren't exactly one public key"),
    ("17", "the promise is a joint one"),
    ("18", "the receipt has max_actions actions"),
    ("19", "more than 128 receipts would be joined"),
];
