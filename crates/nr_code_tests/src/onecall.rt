//! Calls over the real bindings, of a module in memory. Its bytes are written by the standard, by hand; what is
//! written of a call is worked out of the tables of costs, and ids by a SHA-256 that isn't this program's.

use crate::answering::answers;
use nr_module::Status;
use std::alloc::Global;
use std::test::Fail;

/// `save` logs `hi`, stores `vv` under `k` and returns `ok`. `echo` returns its arguments. `send` calls `go` of `bob`
/// with 3 tokens and 100 gas, and returns that promise. `both` calls `go` of `bob`, and `on` of itself behind it.
/// `paid` returns what came with it and what the account has, 16 bytes each. `fail` logs, stores and gives up. `trap`
/// comes to `unreachable`.
const CONTRACT: [u8; 533] = [
    0, 97, 115, 109, 1, 0, 0, 0, 1, 47, 6, 96, 0, 0, 96, 2, 126, 126, 0, 96, 5, 126, 126, 126, 126,
    126, 1, 126, 96, 1, 126, 0, 96, 8, 126, 126, 126, 126, 126, 126, 126, 126, 1, 126, 96, 9, 126,
    126, 126, 126, 126, 126, 126, 126, 126, 1, 126, 2, 190, 1, 10, 3, 101, 110, 118, 8, 108, 111,
    103, 95, 117, 116, 102, 56, 0, 1, 3, 101, 110, 118, 13, 115, 116, 111, 114, 97, 103, 101, 95,
    119, 114, 105, 116, 101, 0, 2, 3, 101, 110, 118, 12, 118, 97, 108, 117, 101, 95, 114, 101, 116,
    117, 114, 110, 0, 1, 3, 101, 110, 118, 5, 105, 110, 112, 117, 116, 0, 3, 3, 101, 110, 118, 14,
    112, 114, 111, 109, 105, 115, 101, 95, 99, 114, 101, 97, 116, 101, 0, 4, 3, 101, 110, 118, 12,
    112, 114, 111, 109, 105, 115, 101, 95, 116, 104, 101, 110, 0, 5, 3, 101, 110, 118, 14, 112,
    114, 111, 109, 105, 115, 101, 95, 114, 101, 116, 117, 114, 110, 0, 3, 3, 101, 110, 118, 16, 97,
    116, 116, 97, 99, 104, 101, 100, 95, 100, 101, 112, 111, 115, 105, 116, 0, 3, 3, 101, 110, 118,
    15, 97, 99, 99, 111, 117, 110, 116, 95, 98, 97, 108, 97, 110, 99, 101, 0, 3, 3, 101, 110, 118,
    10, 112, 97, 110, 105, 99, 95, 117, 116, 102, 56, 0, 1, 3, 8, 7, 0, 0, 0, 0, 0, 0, 0, 5, 3, 1,
    0, 1, 7, 50, 7, 4, 115, 97, 118, 101, 0, 10, 4, 101, 99, 104, 111, 0, 11, 4, 115, 101, 110,
    100, 0, 12, 4, 98, 111, 116, 104, 0, 13, 4, 112, 97, 105, 100, 0, 14, 4, 102, 97, 105, 108, 0,
    15, 4, 116, 114, 97, 112, 0, 16, 10, 165, 1, 7, 27, 0, 66, 2, 66, 0, 16, 0, 66, 1, 66, 2, 66,
    2, 66, 3, 66, 0, 16, 1, 26, 66, 2, 66, 5, 16, 2, 11, 12, 0, 66, 0, 16, 3, 66, 127, 66, 0, 16,
    2, 11, 23, 0, 66, 3, 66, 7, 66, 2, 66, 10, 66, 0, 66, 0, 66, 24, 66, 228, 0, 16, 4, 16, 6, 11,
    40, 0, 66, 3, 66, 7, 66, 2, 66, 10, 66, 2, 66, 0, 66, 40, 66, 228, 0, 16, 4, 66, 8, 66, 12, 66,
    2, 66, 20, 66, 0, 66, 0, 66, 40, 66, 7, 16, 5, 26, 11, 19, 0, 66, 192, 0, 16, 7, 66, 208, 0,
    16, 8, 66, 32, 66, 192, 0, 16, 2, 11, 27, 0, 66, 2, 66, 0, 16, 0, 66, 1, 66, 2, 66, 2, 66, 3,
    66, 0, 16, 1, 26, 66, 2, 66, 0, 16, 9, 11, 9, 0, 66, 1, 66, 2, 26, 26, 0, 11, 11, 46, 1, 0, 65,
    0, 11, 40, 104, 105, 107, 118, 118, 111, 107, 98, 111, 98, 103, 111, 99, 111, 110, 116, 114,
    97, 99, 116, 111, 110, 0, 0, 3, 0, 0, 0, 0, 0, 0, 0, 0, 0, 0, 0, 0, 0, 0, 0,
];

/// The built-in configuration of generated chains, as a file.
const PRICED: &str = "{\"gas_price\":100,\"storage_price\":1000,\"chunk_gas_limit\":500000,\
    \"regular_op_cost\":1,\"max_actions\":100,\"max_prepaid_gas\":1000000000000,\
    \"account_bytes\":100,\"extra_record_bytes\":40,\"top_level_min_len\":0,\
    \"delete_state_limit\":10000,\"reward_numerator\":30,\"reward_denominator\":100,\
    \"max_code\":4194304,\"max_pages\":64,\"max_call_depth\":1000,\
    \"max_stack_values\":100000,\"max_registers\":100,\"max_register_bytes\":4194304,\
    \"max_all_register_bytes\":16777216,\"max_logs\":100,\"max_log_bytes\":16384,\
    \"max_key_bytes\":2048,\"max_value_bytes\":4194304,\"max_return_bytes\":4194304,\
    \"max_promises\":1024,\"load_base\":100,\"load_byte\":1,\"host_base\":10,\
    \"host_byte\":1,\"storage_base\":50,\"storage_byte\":2,\"sha_base\":20,\"sha_byte\":1,\
    \"action_receipt_send_local\":10,\"action_receipt_send_remote\":10,\
    \"action_receipt_exec\":10,\"data_base_send_local\":10,\"data_base_send_remote\":10,\
    \"data_base_exec\":10,\"data_byte_send_local\":1,\"data_byte_send_remote\":1,\
    \"data_byte_exec\":1,\"create_account_send_local\":10,\"create_account_send_remote\":10,\
    \"create_account_exec\":10,\"deploy_base_send_local\":10,\"deploy_base_send_remote\":10,\
    \"deploy_base_exec\":10,\"deploy_byte_send_local\":1,\"deploy_byte_send_remote\":1,\
    \"deploy_byte_exec\":1,\"call_base_send_local\":10,\"call_base_send_remote\":10,\
    \"call_base_exec\":10,\"call_byte_send_local\":1,\"call_byte_send_remote\":1,\
    \"call_byte_exec\":1,\"transfer_send_local\":10,\"transfer_send_remote\":10,\
    \"transfer_exec\":10,\"add_full_key_send_local\":10,\"add_full_key_send_remote\":10,\
    \"add_full_key_exec\":10,\"add_call_key_base_send_local\":10,\
    \"add_call_key_base_send_remote\":10,\"add_call_key_base_exec\":10,\
    \"add_call_key_byte_send_local\":1,\"add_call_key_byte_send_remote\":1,\
    \"add_call_key_byte_exec\":1,\"delete_key_send_local\":10,\"delete_key_send_remote\":10,\
    \"delete_key_exec\":10,\"delete_account_send_local\":10,\
    \"delete_account_send_remote\":10,\"delete_account_exec\":10}";

/// A call, and what is written of it.
struct Row {
    words: &'static [&'static str],
    status: Status,
    lines: &'static str,
}

/// Where an instruction costs 1 and all else nothing.
const UNPRICED_CALLS: [Row; 15] = [
    Row {
        words: &["call", "free", "M", "save", "x", "1000"],
        status: Status::Sound,
        lines: "value 6f6b 13\n\
            log 6869\n\
            store 6b 7676\n",
    },
    Row {
        words: &["call", "free", "M", "echo", "{}", "1000"],
        status: Status::Sound,
        lines: "value 7b7d 5\n",
    },
    Row {
        words: &["call", "free", "M", "echo", "hex:00ff", "1000"],
        status: Status::Sound,
        lines: "value 00ff 5\n",
    },
    Row {
        words: &["call", "free", "M", "echo", "hex:A0fF", "1000", "5"],
        status: Status::Sound,
        lines: "value a0ff 5\n",
    },
    Row {
        words: &["call", "free", "M", "echo", "hex:", "1000"],
        status: Status::Sound,
        lines: "value - 5\n",
    },
    Row {
        words: &["call", "free", "M", "paid", "x", "1000", "5"],
        status: Status::Sound,
        lines: "value 05000000000000000000000000000000050000e4d20cc8dcd2b7520000000000 7\n",
    },
    Row {
        words: &["call", "free", "M", "paid", "x", "1000"],
        status: Status::Sound,
        lines: "value 00000000000000000000000000000000000000e4d20cc8dcd2b7520000000000 7\n",
    },
    Row {
        words: &[
            "call",
            "free",
            "M",
            "paid",
            "x",
            "1000",
            "340282366920938463463374607431768211455",
        ],
        status: Status::Sound,
        lines: "value ffffffffffffffffffffffffffffffffffffffffffffffffffffffffffffffff 7\n",
    },
    Row {
        words: &["call", "free", "M", "send", "x", "1000"],
        status: Status::Sound,
        lines: "promise d7e9312aec58e7d22f7ff21ecca282c5b1cbd64763526652b5543fa0b103e765 10\n\
            receipt d7e9312aec58e7d22f7ff21ecca282c5b1cbd64763526652b5543fa0b103e765 bob\n\
            action {\"FunctionCall\":{\"args\":\"\",\"deposit\":\"3\",\"gas\":100,\"method_name\":\"go\"}}\n",
    },
    Row {
        words: &["call", "free", "M", "both", "x", "1000"],
        status: Status::Sound,
        lines: "value - 19\n\
            receipt d7e9312aec58e7d22f7ff21ecca282c5b1cbd64763526652b5543fa0b103e765 bob\n\
            give 46df2c1aa650afa24b674228dbd7f6df4e61f86e5f06182cc98237ccb8a52840 contract\n\
            action {\"FunctionCall\":{\"args\":\"6869\",\"deposit\":\"0\",\"gas\":100,\"method_name\":\"go\"}}\n\
            receipt bc46af79e96bc03a3b5a1a88aeab5079b0dd4c6dfc5f9c14e318fec7de310f6b contract\n\
            wait 46df2c1aa650afa24b674228dbd7f6df4e61f86e5f06182cc98237ccb8a52840\n\
            action {\"FunctionCall\":{\"args\":\"\",\"deposit\":\"0\",\"gas\":7,\"method_name\":\"on\"}}\n",
    },
    Row {
        words: &["call", "free", "M", "fail", "x", "1000"],
        status: Status::Faulty,
        lines: "failure 16 14 13\n",
    },
    Row {
        words: &["call", "free", "M", "trap", "x", "1000"],
        status: Status::Faulty,
        lines: "failure 15 1 5\n",
    },
    Row {
        words: &["call", "free", "M", "save", "x", "12"],
        status: Status::Faulty,
        lines: "failure 17 0 12\n",
    },
    Row {
        words: &["call", "free", "M", "gone", "x", "1000"],
        status: Status::Faulty,
        lines: "failure 14 0 0\n",
    },
    Row {
        words: &["call", "free", "C", "save", "x", "1000"],
        status: Status::Faulty,
        lines: "failure 13 3 0\n",
    },
];

/// Where all costs something: the loading 100 and 1 for each of 533 bytes.
const PRICED_CALLS: [Row; 6] = [
    Row {
        words: &["call", "C", "M", "save", "x", "1000"],
        status: Status::Sound,
        lines: "value 6f6b 739\n\
            log 6869\n\
            store 6b 7676\n",
    },
    Row {
        words: &["call", "C", "M", "gone", "x", "1000"],
        status: Status::Faulty,
        lines: "failure 14 0 633\n",
    },
    Row {
        words: &["call", "C", "E", "save", "x", "1000"],
        status: Status::Faulty,
        lines: "failure 13 1 102\n",
    },
    Row {
        words: &["call", "C", "M", "save", "x", "632"],
        status: Status::Faulty,
        lines: "failure 17 0 632\n",
    },
    Row {
        words: &["call", "C", "M", "send", "x", "828"],
        status: Status::Sound,
        lines: "promise d7e9312aec58e7d22f7ff21ecca282c5b1cbd64763526652b5543fa0b103e765 706\n\
            receipt d7e9312aec58e7d22f7ff21ecca282c5b1cbd64763526652b5543fa0b103e765 bob\n\
            action {\"FunctionCall\":{\"args\":\"\",\"deposit\":\"3\",\"gas\":100,\"method_name\":\"go\"}}\n",
    },
    Row {
        words: &["call", "C", "M", "send", "x", "827"],
        status: Status::Faulty,
        lines: "failure 17 0 705\n",
    },
];

/// What is no call: digits that are odd or none, leading zeros, too few or too many words, 2^64 gas, 2^128 tokens, an
/// empty word and a dash.
const OTHER_WORDS: [Row; 11] = [
    Row {
        words: &["call", "free", "M", "save", "hex:0", "1"],
        status: Status::Usage,
        lines: "",
    },
    Row {
        words: &["call", "free", "M", "save", "hex:zz", "1"],
        status: Status::Usage,
        lines: "",
    },
    Row {
        words: &["call", "free", "M", "save", "hex:0", "1", "5"],
        status: Status::Usage,
        lines: "",
    },
    Row {
        words: &["call", "free", "M", "save", "x", "01"],
        status: Status::Usage,
        lines: "",
    },
    Row {
        words: &["call", "free", "M", "save", "x", "1", "05"],
        status: Status::Usage,
        lines: "",
    },
    Row {
        words: &["call", "free", "M", "save", "x"],
        status: Status::Usage,
        lines: "",
    },
    Row {
        words: &["call", "free", "M", "save", "x", "1", "5", "6"],
        status: Status::Usage,
        lines: "",
    },
    Row {
        words: &["call", "free", "M", "save", "x", "18446744073709551616"],
        status: Status::Usage,
        lines: "",
    },
    Row {
        words: &[
            "call",
            "free",
            "M",
            "save",
            "x",
            "1",
            "340282366920938463463374607431768211456",
        ],
        status: Status::Usage,
        lines: "",
    },
    Row {
        words: &["call", "free", "M", "save", "", "1"],
        status: Status::Usage,
        lines: "",
    },
    Row {
        words: &["call", "free", "M", "save", "-", "1"],
        status: Status::Usage,
        lines: "",
    },
];

/// A configuration without entries, one that is no JSON, and a contract that isn't there.
const REFUSED_FILES: [Row; 3] = [
    Row {
        words: &["call", "E", "M", "save", "x", "1"],
        status: Status::Config { kind: 2, entry: 1 },
        lines: "",
    },
    Row {
        words: &["call", "M", "M", "save", "x", "1"],
        status: Status::Config { kind: 1, entry: 0 },
        lines: "",
    },
    Row {
        words: &["call", "free", "N", "save", "x", "1"],
        status: Status::ReadFault,
        lines: "",
    },
];

/// Whether a call, over the files `M`, `C` and `E`, is answered so.
fn is_answered(alloc: Global, row: &Row) -> Result<bool, Fail> {
    let files: [(&str, &[u8]); 3] = [("M", &CONTRACT), ("C", PRICED.as_bytes()), ("E", b"{}")];
    answers(alloc, row.words, &files, row.status, row.lines)
}

/// The place of the first row that is answered otherwise.
fn wrong_row(alloc: Global, rows: &[Row]) -> Result<Option<usize>, Fail> {
    for place in 0..rows.len() {
        if !is_answered(alloc, &rows[place])? {
            return Ok(Some(place));
        }
    }
    Ok(None)
}

#[test]
fn a_call_burns_its_instructions(rt: HostRuntime) -> Result<(), Fail> {
    assert_eq!(rt; wrong_row(rt.alloc(), &UNPRICED_CALLS)?, None);
    Ok(())
}

#[test]
fn a_call_pays_for_its_loading(rt: HostRuntime) -> Result<(), Fail> {
    assert_eq!(rt; wrong_row(rt.alloc(), &PRICED_CALLS)?, None);
    Ok(())
}

#[test]
fn words_may_be_no_call(rt: HostRuntime) -> Result<(), Fail> {
    assert_eq!(rt; wrong_row(rt.alloc(), &OTHER_WORDS)?, None);
    Ok(())
}

#[test]
fn files_of_a_call_may_be_refused(rt: HostRuntime) -> Result<(), Fail> {
    assert_eq!(rt; wrong_row(rt.alloc(), &REFUSED_FILES)?, None);
    Ok(())
}
