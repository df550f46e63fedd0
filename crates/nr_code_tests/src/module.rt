//! Small modules in memory, with ample memory. The bytes are written by the standard, by hand.

use crate::answering::answers;
use nr_module::Status;
use std::alloc::Global;
use std::test::Fail;

/// A function `go` that burns an instruction and calls `input`, a function of the host, with it.
const CALLS_HOST: [u8; 62] = [
    0, 97, 115, 109, 1, 0, 0, 0, 1, 8, 2, 96, 0, 0, 96, 1, 126, 0, 2, 13, 1, 3, 101, 110, 118, 5,
    105, 110, 112, 117, 116, 0, 1, 3, 2, 1, 0, 7, 13, 2, 2, 103, 111, 0, 1, 4, 104, 111, 115, 116,
    0, 0, 10, 8, 1, 6, 0, 66, 0, 16, 0, 11,
];

/// Nine imports, of which the host has two, eight exports, a table, a memory and a global.
const BRINGS_MUCH: [u8; 269] = [
    0, 97, 115, 109, 1, 0, 0, 0, 1, 18, 4, 96, 0, 0, 96, 1, 126, 0, 96, 2, 126, 126, 1, 126, 96, 0,
    1, 127, 2, 137, 1, 9, 3, 101, 110, 118, 5, 105, 110, 112, 117, 116, 0, 1, 3, 101, 110, 118, 15,
    115, 116, 111, 114, 97, 103, 101, 95, 104, 97, 115, 95, 107, 101, 121, 0, 2, 3, 101, 110, 118,
    12, 115, 116, 111, 114, 97, 103, 101, 95, 114, 101, 97, 100, 0, 2, 3, 101, 110, 118, 8, 98,
    117, 114, 110, 95, 103, 97, 115, 0, 1, 4, 119, 97, 115, 105, 5, 105, 110, 112, 117, 116, 0, 1,
    3, 101, 110, 118, 5, 105, 110, 112, 117, 116, 0, 9, 3, 101, 110, 118, 6, 109, 101, 109, 111,
    114, 121, 2, 0, 1, 3, 101, 110, 118, 6, 116, 97, 98, 32, 108, 101, 1, 112, 1, 1, 2, 3, 101,
    110, 118, 5, 103, 34, 92, 195, 169, 3, 127, 0, 3, 4, 3, 0, 1, 3, 4, 4, 1, 112, 0, 3, 5, 4, 1,
    1, 1, 16, 6, 6, 1, 127, 1, 65, 5, 11, 7, 59, 8, 5, 104, 101, 108, 108, 111, 0, 6, 3, 111, 110,
    101, 0, 7, 5, 103, 105, 118, 101, 115, 0, 8, 4, 104, 111, 115, 116, 0, 0, 6, 98, 101, 121, 111,
    110, 100, 0, 99, 5, 116, 97, 98, 108, 101, 1, 0, 6, 109, 101, 109, 111, 114, 121, 2, 0, 0, 3,
    0, 10, 12, 3, 2, 0, 11, 2, 0, 11, 4, 0, 65, 0, 11,
];

/// A function `go` that does nothing, a memory of one page, and a byte of data behind its end, at 65536.
const DATA_BEHIND: [u8; 48] = [
    0, 97, 115, 109, 1, 0, 0, 0, 1, 4, 1, 96, 0, 0, 3, 2, 1, 0, 5, 3, 1, 0, 1, 7, 6, 1, 2, 103,
    111, 0, 0, 10, 4, 1, 2, 0, 11, 11, 9, 1, 0, 65, 128, 128, 4, 11, 1, 42,
];

/// The same with the byte at 65535.
const DATA_LAST: [u8; 48] = [
    0, 97, 115, 109, 1, 0, 0, 0, 1, 4, 1, 96, 0, 0, 3, 2, 1, 0, 5, 3, 1, 0, 1, 7, 6, 1, 2, 103,
    111, 0, 0, 10, 4, 1, 2, 0, 11, 11, 9, 1, 0, 65, 255, 255, 3, 11, 1, 42,
];

/// A function `go` that does nothing, a table of one entry, and an element behind its end, at 1.
const ELEMENT_BEHIND: [u8; 47] = [
    0, 97, 115, 109, 1, 0, 0, 0, 1, 4, 1, 96, 0, 0, 3, 2, 1, 0, 4, 4, 1, 112, 0, 1, 7, 6, 1, 2,
    103, 111, 0, 0, 9, 7, 1, 0, 65, 1, 11, 1, 0, 10, 4, 1, 2, 0, 11,
];

/// The same with the element at 0.
const ELEMENT_LAST: [u8; 47] = [
    0, 97, 115, 109, 1, 0, 0, 0, 1, 4, 1, 96, 0, 0, 3, 2, 1, 0, 4, 4, 1, 112, 0, 1, 7, 6, 1, 2,
    103, 111, 0, 0, 9, 7, 1, 0, 65, 0, 11, 1, 0, 10, 4, 1, 2, 0, 11,
];

/// Methods that trap, one that ends and one that calls the host; the function 0 is imported, and 5 is called by the table.
/// A custom section stands before the code, and its locals and numbers take several bytes.
const TRAPS: [u8; 387] = [
    0, 97, 115, 109, 1, 0, 0, 0, 1, 12, 3, 96, 0, 0, 96, 1, 126, 0, 96, 0, 1, 127, 2, 13, 1, 3,
    101, 110, 118, 5, 105, 110, 112, 117, 116, 0, 1, 3, 16, 15, 0, 0, 0, 0, 0, 2, 0, 0, 0, 0, 0, 0,
    0, 0, 0, 4, 4, 1, 112, 0, 4, 5, 3, 1, 0, 1, 7, 110, 14, 3, 100, 105, 118, 0, 1, 4, 115, 105,
    100, 101, 0, 2, 5, 105, 110, 110, 101, 114, 0, 3, 5, 101, 113, 117, 97, 108, 0, 4, 8, 105, 110,
    100, 105, 114, 101, 99, 116, 0, 5, 6, 98, 101, 104, 105, 110, 100, 0, 7, 6, 98, 101, 121, 111,
    110, 100, 0, 8, 5, 101, 109, 112, 116, 121, 0, 9, 4, 116, 121, 112, 101, 0, 10, 4, 108, 111,
    97, 100, 0, 11, 4, 99, 97, 108, 108, 0, 12, 5, 118, 97, 108, 117, 101, 0, 13, 4, 104, 111, 115,
    116, 0, 14, 4, 101, 110, 100, 115, 0, 15, 9, 14, 2, 0, 65, 0, 11, 2, 3, 4, 0, 65, 3, 11, 1, 6,
    0, 8, 4, 110, 111, 116, 101, 11, 0, 5, 10, 180, 1, 15, 29, 1, 1, 127, 2, 64, 3, 64, 32, 0, 4,
    64, 65, 7, 65, 0, 109, 26, 5, 1, 11, 65, 1, 33, 0, 12, 0, 11, 11, 11, 10, 0, 65, 0, 4, 64, 0,
    5, 0, 11, 11, 9, 0, 2, 64, 12, 0, 0, 11, 0, 11, 9, 0, 2, 64, 12, 0, 0, 11, 0, 11, 8, 0, 1, 65,
    1, 17, 0, 0, 11, 12, 0, 2, 64, 2, 64, 65, 5, 15, 11, 11, 0, 11, 23, 0, 16, 6, 26, 2, 64, 2, 64,
    2, 64, 65, 1, 14, 2, 0, 1, 2, 11, 0, 11, 0, 11, 11, 7, 0, 65, 9, 17, 0, 0, 11, 7, 0, 65, 2, 17,
    0, 0, 11, 7, 0, 65, 3, 17, 0, 0, 11, 15, 0, 66, 127, 26, 65, 240, 162, 4, 40, 2, 128, 128, 64,
    26, 11, 8, 0, 2, 64, 11, 16, 12, 0, 11, 11, 1, 208, 134, 3, 127, 65, 0, 26, 16, 13, 11, 6, 0,
    66, 0, 16, 0, 11, 3, 0, 1, 11,
];

/// What `help` writes.
const HELP: &str = "near_module check CONFIG FILE\n\
    near_module run CONFIG FILE METHOD GAS\n\
    near_module trap CONFIG FILE METHOD GAS\n\
    near_module list FILE\n\
    near_module text FILE\n\
    near_module help\n\
    near_module version\n\
    near_module call CONFIG FILE METHOD ARGS GAS\n\
    near_module call CONFIG FILE METHOD ARGS GAS DEPOSIT\n\
    CONFIG is free or the name of a file, and GAS a number from 0 to 18446744073709551615.\n\
    ARGS is a text, or hex: and two digits for each byte, and DEPOSIT a number below 2^128.\n";

/// What is listed of a module.
const CALLS_HOST_LISTED: &str =
    "import env input ok\nexport method go\nexport function host\nsize 62\n";

const BRINGS_MUCH_LISTED: &str = "import env input ok\n\
    import env storage_has_key ok\n\
    import env storage_read type\n\
    import env burn_gas name\n\
    import wasi input module\n\
    import env input type\n\
    import env memory kind\n\
    import env tab\\20le kind\n\
    import env g\\22\\5c\\c3\\a9 kind\n\
    export method hello\n\
    export function one\n\
    export function gives\n\
    export function host\n\
    export function beyond\n\
    export table table\n\
    export memory memory\n\
    export global \n\
    table 3 none\n\
    memory 1 16\n\
    size 269\n";

/// What `wasm2wat` writes of a module.
const CALLS_HOST_TEXT: &str = "(module\n\
    \x20 (type (;0;) (func))\n\
    \x20 (type (;1;) (func (param i64)))\n\
    \x20 (import \"env\" \"input\" (func (;0;) (type 1)))\n\
    \x20 (func (;1;) (type 0)\n\
    \x20   i64.const 0\n\
    \x20   call 0)\n\
    \x20 (export \"go\" (func 1))\n\
    \x20 (export \"host\" (func 0)))\n";

/// Words over a file `M`, and what they are answered.
struct Row {
    words: &'static [&'static str],
    module: &'static [u8],
    status: Status,
    lines: &'static str,
}

const RUN: &[&str] = &["run", "free", "M", "go", "100"];

const CHECK: &[&str] = &["check", "free", "M"];

const LIST: &[&str] = &["list", "M"];

const TEXT: &[&str] = &["text", "M"];

/// Functions of the host that a run has none of, what fits, gas with a leading zero, what loads nothing, what is
/// listed, and what is written as a text.
const ROWS: [Row; 20] = [
    Row {
        words: RUN,
        module: &CALLS_HOST,
        status: Status::Faulty,
        lines: "fault 20 2\n",
    },
    Row {
        words: &["run", "free", "M", "host", "100"],
        module: &CALLS_HOST,
        status: Status::Faulty,
        lines: "method\n",
    },
    Row {
        words: CHECK,
        module: &CALLS_HOST,
        status: Status::Sound,
        lines: "ok\n",
    },
    Row {
        words: CHECK,
        module: &DATA_BEHIND,
        status: Status::Unfit,
        lines: "ok\n",
    },
    Row {
        words: CHECK,
        module: &DATA_LAST,
        status: Status::Sound,
        lines: "ok\n",
    },
    Row {
        words: CHECK,
        module: &ELEMENT_BEHIND,
        status: Status::Unfit,
        lines: "ok\n",
    },
    Row {
        words: CHECK,
        module: &ELEMENT_LAST,
        status: Status::Sound,
        lines: "ok\n",
    },
    Row {
        words: &["run", "free", "M", "go", "0100"],
        module: &CALLS_HOST,
        status: Status::Usage,
        lines: "",
    },
    Row {
        words: &["help"],
        module: &[],
        status: Status::Sound,
        lines: HELP,
    },
    Row {
        words: &["version"],
        module: &[],
        status: Status::Sound,
        lines: "near_module 0.1.0\n",
    },
    Row {
        words: &["help", "run"],
        module: &[],
        status: Status::Usage,
        lines: "",
    },
    Row {
        words: LIST,
        module: &CALLS_HOST,
        status: Status::Sound,
        lines: CALLS_HOST_LISTED,
    },
    Row {
        words: LIST,
        module: &BRINGS_MUCH,
        status: Status::Sound,
        lines: BRINGS_MUCH_LISTED,
    },
    Row {
        words: LIST,
        module: b"\0asm",
        status: Status::Faulty,
        lines: "decode 1 4\n",
    },
    Row {
        words: &["list", "N"],
        module: b"",
        status: Status::ReadFault,
        lines: "",
    },
    Row {
        words: &["list"],
        module: b"",
        status: Status::Usage,
        lines: "",
    },
    Row {
        words: TEXT,
        module: &CALLS_HOST,
        status: Status::Sound,
        lines: CALLS_HOST_TEXT,
    },
    Row {
        words: TEXT,
        module: b"\0asm",
        status: Status::Faulty,
        lines: "decode 1 4\n",
    },
    Row {
        words: &["text", "N"],
        module: b"",
        status: Status::ReadFault,
        lines: "",
    },
    Row {
        words: &["text"],
        module: b"",
        status: Status::Usage,
        lines: "",
    },
];

/// A run of an absent method.
const ABSENT: &[&str] = &["run", "free", "M", "gone", "100"];

/// Runs of modules whose data or elements fit or do not, by a method that is there or not.
const RUNS: [Row; 7] = [
    Row {
        words: RUN,
        module: &DATA_BEHIND,
        status: Status::Faulty,
        lines: "make 21\n",
    },
    Row {
        words: RUN,
        module: &DATA_LAST,
        status: Status::Sound,
        lines: "end 0\n",
    },
    Row {
        words: RUN,
        module: &ELEMENT_BEHIND,
        status: Status::Faulty,
        lines: "make 21\n",
    },
    Row {
        words: RUN,
        module: &ELEMENT_LAST,
        status: Status::Sound,
        lines: "end 0\n",
    },
    Row {
        words: ABSENT,
        module: &DATA_BEHIND,
        status: Status::Faulty,
        lines: "method\n",
    },
    Row {
        words: ABSENT,
        module: &DATA_LAST,
        status: Status::Faulty,
        lines: "method\n",
    },
    Row {
        words: ABSENT,
        module: &ELEMENT_BEHIND,
        status: Status::Faulty,
        lines: "method\n",
    },
];

/// Methods that trap, and what is written. The functions and the places are those of the bytes, which were written with
/// them; for all but the last two V8 names the same.
const TRAPPING: [(&str, &str); 12] = [
    ("div", "trap 3 14\nat 1 224\n"),
    ("side", "trap 1 3\nat 2 246\n"),
    ("inner", "trap 1 3\nat 3 257\n"),
    ("equal", "trap 1 3\nat 4 267\n"),
    ("indirect", "trap 1 6\nat 4 267\n"),
    ("behind", "trap 1 12\nat 7 312\n"),
    ("beyond", "trap 5 2\nat 8 319\n"),
    ("empty", "trap 6 2\nat 9 327\n"),
    ("type", "trap 7 2\nat 10 335\n"),
    ("load", "trap 2 4\nat 11 348\n"),
    ("call", "trap 8 2000\nat 12 360\n"),
    ("value", "trap 8 4\nat 13 370\n"),
];

/// What ends, calls the host, burns too much, isn't there, or is run without a place.
const NO_PLACES: [Row; 5] = [
    Row {
        words: &["trap", "free", "M", "ends", "10000"],
        module: &TRAPS,
        status: Status::Sound,
        lines: "end 1\n",
    },
    Row {
        words: &["trap", "free", "M", "host", "10000"],
        module: &TRAPS,
        status: Status::Faulty,
        lines: "fault 20 2\n",
    },
    Row {
        words: &["trap", "free", "M", "call", "5"],
        module: &TRAPS,
        status: Status::Faulty,
        lines: "gas 5\n",
    },
    Row {
        words: &["trap", "free", "M", "five", "10000"],
        module: &TRAPS,
        status: Status::Faulty,
        lines: "method\n",
    },
    Row {
        words: &["run", "free", "M", "div", "10000"],
        module: &TRAPS,
        status: Status::Faulty,
        lines: "trap 3 14\n",
    },
];

fn is_answered(alloc: Global, row: &Row) -> Result<bool, Fail> {
    answers(
        alloc,
        row.words,
        &[("M", row.module)],
        row.status,
        row.lines,
    )
}

#[test]
fn words_over_a_module_are_answered(rt: HostRuntime) -> Result<(), Fail> {
    for (place, row) in ROWS.iter().enumerate() {
        assert!(rt; is_answered(rt.alloc(), row)?, "row {place}");
    }
    Ok(())
}

#[test]
fn a_method_is_looked_up_before_anything_is_put_in(rt: HostRuntime) -> Result<(), Fail> {
    for (place, row) in RUNS.iter().enumerate() {
        assert!(rt; is_answered(rt.alloc(), row)?, "row {place}");
    }
    Ok(())
}

#[test]
fn a_trap_says_where(rt: HostRuntime) -> Result<(), Fail> {
    for (method, lines) in TRAPPING {
        let words = ["trap", "free", "M", method, "10000"];
        assert!(rt;
            answers(rt.alloc(), &words, &[("M", &TRAPS)], Status::Faulty, lines)?,
            "{method}"
        );
    }
    Ok(())
}

#[test]
fn what_does_not_trap_has_no_place(rt: HostRuntime) -> Result<(), Fail> {
    for (place, row) in NO_PLACES.iter().enumerate() {
        assert!(rt; is_answered(rt.alloc(), row)?, "row {place}");
    }
    Ok(())
}
