//! Sentences and objects, written out by hand.

use crate::sentences::{
    BEHIND, CALL, CANNOT_HAVE, LISTING, MODULES, NO_MODULE, OTHERS, REFUSALS, REPORT, STATUSES,
    TRAPS,
};
use nr_explain::{ReportFault, explain, show_report};
use std::alloc::Global;
use std::test::Fail;

// The sentence of a line, and nothing where it has none.
fn told(alloc: Global, line: &str) -> Result<Vec<u8>, Fail> {
    let mut words = Vec::new(alloc);
    for word in line.split(' ') {
        words.push(String::from_str(alloc, word)?)?;
    }
    match explain(alloc, &words)? {
        Some(sentence) => Ok(sentence.into_inner()),
        None => Ok(Vec::new(alloc)),
    }
}

/// What stands for `ID` and `OTHER` in the tables.
const ID: &str = "0b0b0b0b0b0b0b0b0b0b0b0b0b0b0b0b0b0b0b0b0b0b0b0b0b0b0b0b0b0b0b0b";

const OTHER: &str = "0c0c0c0c0c0c0c0c0c0c0c0c0c0c0c0c0c0c0c0c0c0c0c0c0c0c0c0c0c0c0c0c";

// A row with its hashes written out.
fn written_out(alloc: Global, row: &str) -> Result<String, Fail> {
    let row = row.replace(alloc, "OTHER", OTHER)?;
    Ok(row.replace(alloc, "ID", ID)?)
}

// Whether a line has this sentence, both with their hashes written out.
fn is_told(alloc: Global, line: &str, sentence: &str) -> Result<bool, Fail> {
    let line = written_out(alloc, line)?;
    let mut want = written_out(alloc, sentence)?;
    want.push('\n')?;
    Ok(told(alloc, line.as_str())?.as_slice() == want.as_bytes())
}

#[test]
fn lines_have_sentences(rt: HostRuntime) -> Result<(), Fail> {
    let tables: [&[(&str, &str)]; 8] = [
        &STATUSES, &REFUSALS, &MODULES, &LISTING, &CALL, &REPORT, &OTHERS, &BEHIND,
    ];
    for table in tables {
        for (line, sentence) in table {
            assert!(rt; is_told(rt.alloc(), line, sentence)?, "{line}");
        }
    }
    Ok(())
}

// Whether each of these parts of a failed call of this kind has its sentence.
fn are_told(alloc: Global, kind: &str, how: &str, rows: &[(&str, &str)]) -> Result<bool, Fail> {
    for (part, why) in rows {
        let line = format!(in alloc; "failure {kind} {part} 7")?;
        let sentence = format!(in alloc; "The call failed: {how}: {why}. It burnt 7 gas.")?;
        if !is_told(alloc, line.as_str(), sentence.as_str())? {
            return Ok(false);
        }
    }
    Ok(true)
}

#[test]
fn each_failure_of_a_call_has_a_sentence(rt: HostRuntime) -> Result<(), Fail> {
    let alloc = rt.alloc();
    assert!(rt; are_told(alloc, "13", "the code is no valid module", &NO_MODULE)?);
    assert!(rt; are_told(alloc, "15", "it trapped", &TRAPS)?);
    assert!(rt; are_told(alloc, "16", "it asked for what it can't have", &CANNOT_HAVE)?);
    Ok(())
}

#[test]
fn other_numbers_have_none(rt: HostRuntime) -> Result<(), Fail> {
    for line in [
        "",
        "0",
        "9 1",
        "01",
        "3 4 0 182",
        "3 4 0 182 100 0",
        "3 7 0 0 0",
        "3 1 5 7 0",
        "2 2 0",
        "2 2 76",
        "2 4 011",
        "4 1 18446744073709551616",
        "8 1 -3",
        "10 0 1",
        "11",
        "13 8 1",
        "13 10 0",
        "near_module",
        "near_module 3 5 0 0 0",
        "near_module no 6 0 0",
        "near_serial decode 3 8",
        "near_replay 8 1 3",
        "near_replay valid",
        "near_audit total burnt 7",
        "near_files 4 4 0",
        "near_modules ok",
        "no 1 3 0",
        "no 3 5 1",
        "import env a\"b ok",
        "import env go maybe",
        "table none 1",
        "near_serial size 40",
        "failure 13 8 1",
        "failure 14 1 5",
        "near_serial value - 5",
        "near_module action {\"Transfer\":{\"deposit\":\"3\"}}",
        "no 8 0 0",
        "trap 9 12",
        "tx 0b refused 1 0 0",
    ] {
        assert_eq!(rt; told(rt.alloc(), line)?.len(), 0);
    }
    Ok(())
}

#[test]
fn a_report_is_shown(rt: HostRuntime) -> Result<(), Fail> {
    let text = b"chunk 1 0 0b0b0b0b0b0b0b0b0b0b0b0b0b0b0b0b0b0b0b0b0b0b0b0b0b0b0b0b0b0b0b0b 12 3
run a1a1a1a1a1a1a1a1a1a1a1a1a1a1a1a1a1a1a1a1a1a1a1a1a1a1a1a1a1a1a1a1 value - 0 340282366920938463463374607431768211455
total burnt 3
total places 1 2 3 4 18446744073709551615
no 2 5 1
";
    let json =
        b"{\"line\":\"chunk\",\"height\":1,\"shard\":0,\"state_root\":\"0b0b0b0b0b0b0b0b0b0b0b0b0b0b0b0b0b0b0b0b0b0b0b0b0b0b0b0b0b0b0b0b\",\"gas\":12,\"burnt\":\"3\"}
{\"line\":\"run\",\"receipt_id\":\"a1a1a1a1a1a1a1a1a1a1a1a1a1a1a1a1a1a1a1a1a1a1a1a1a1a1a1a1a1a1a1a1\",\"status\":\"value\",\"value\":\"\",\"gas\":0,\"burnt\":\"340282366920938463463374607431768211455\"}
{\"line\":\"total\",\"total\":\"burnt\",\"tokens\":\"3\"}
{\"line\":\"total\",\"total\":\"places\",\"routed\":1,\"executed\":2,\"postponed\":3,\"delayed\":4,\"in_flight\":18446744073709551615}
{\"line\":\"no\",\"number\":2,\"first\":5,\"second\":1}
";
    assert_eq!(rt; show_report(rt.alloc(), text)?.inner(), json.as_slice());
    Ok(())
}

#[test]
fn bytes_that_people_can_read_are_shown_as_a_text(rt: HostRuntime) -> Result<(), Fail> {
    let id = "a1a1a1a1a1a1a1a1a1a1a1a1a1a1a1a1a1a1a1a1a1a1a1a1a1a1a1a1a1a1a1a1";
    for (bytes, shown) in [
        ("-", "\"\""),
        ("6869", "\"6869\",\"text\":\"hi\""),
        ("20", "\"20\",\"text\":\" \""),
        (
            "7b22c3a9223a5c0a090d7d",
            "\"7b22c3a9223a5c0a090d7d\",\"text\":\"{\\\"\u{e9}\\\":\\\\\\n\\t\\r}\"",
        ),
        ("68ff", "\"68ff\""),
        ("6800", "\"6800\""),
        ("1b5b", "\"1b5b\""),
        ("7f", "\"7f\""),
        ("e282", "\"e282\""),
    ] {
        let text = format!(in rt.alloc();
            "log {bytes}\nrun {id} value {bytes} 1 2\nitem {bytes}\n"
        )?;
        let json = format!(in rt.alloc();
            "{{\"line\":\"log\",\"bytes\":{shown}}}\n\
            {{\"line\":\"run\",\"receipt_id\":\"{id}\",\"status\":\"value\",\"value\":{shown},\"gas\":1,\
            \"burnt\":\"2\"}}\n\
            {{\"line\":\"item\",\"bytes\":{shown}}}\n"
        )?;
        assert!(rt;
            show_report(rt.alloc(), text.as_bytes())?.inner() == json.as_bytes(),
            "{bytes}"
        );
    }
    Ok(())
}

#[test]
fn what_other_commands_write_is_shown(rt: HostRuntime) -> Result<(), Fail> {
    let text =
        b"roots 1 2 0b0b0b0b0b0b0b0b0b0b0b0b0b0b0b0b0b0b0b0b0b0b0b0b0b0b0b0b0b0b0b0b 0c0c0c0c0c0c0c0c0c0c0c0c0c0c0c0c0c0c0c0c0c0c0c0c0c0c0c0c0c0c0c0c
proof receipt 1 2 3 18446744073709551615
item -
path 0b0b0b0b0b0b0b0b0b0b0b0b0b0b0b0b0b0b0b0b0b0b0b0b0b0b0b0b0b0b0b0b
valid
invalid
part 3 10000 entries 7
root 0b0b0b0b0b0b0b0b0b0b0b0b0b0b0b0b0b0b0b0b0b0b0b0b0b0b0b0b0b0b0b0b entries 0
";
    let json =
        b"{\"line\":\"roots\",\"height\":1,\"shard\":2,\"outcome_root\":\"0b0b0b0b0b0b0b0b0b0b0b0b0b0b0b0b0b0b0b0b0b0b0b0b0b0b0b0b0b0b0b0b\",\"receipt_root\":\"0c0c0c0c0c0c0c0c0c0c0c0c0c0c0c0c0c0c0c0c0c0c0c0c0c0c0c0c0c0c0c0c\"}
{\"line\":\"proof\",\"kind\":\"receipt\",\"height\":1,\"shard\":2,\"place\":3,\"count\":18446744073709551615}
{\"line\":\"item\",\"bytes\":\"\"}
{\"line\":\"path\",\"hash\":\"0b0b0b0b0b0b0b0b0b0b0b0b0b0b0b0b0b0b0b0b0b0b0b0b0b0b0b0b0b0b0b0b\"}
{\"line\":\"valid\"}
{\"line\":\"invalid\"}
{\"line\":\"part\",\"number\":3,\"count\":10000,\"holds\":\"entries\",\"entries\":7}
{\"line\":\"root\",\"root\":\"0b0b0b0b0b0b0b0b0b0b0b0b0b0b0b0b0b0b0b0b0b0b0b0b0b0b0b0b0b0b0b0b\",\"holds\":\"entries\",\"entries\":0}
";
    assert_eq!(rt; show_report(rt.alloc(), text)?.inner(), json.as_slice());
    Ok(())
}

#[test]
fn the_first_faulty_line_is_named(rt: HostRuntime) -> Result<(), Fail> {
    for (text, line) in [
        (b"ok\nok\nno 8 0 0\nok\n".as_slice(), 3),
        (b"ok\n\nok\n".as_slice(), 2),
        (b"ok\nok".as_slice(), 2),
        (
            b"total supply 340282366920938463463374607431768211456\n".as_slice(),
            1,
        ),
        (b"log abc\n".as_slice(), 1),
        (b"valid\nproof outcomes 1 0 0 1\n".as_slice(), 2),
    ] {
        match show_report(rt.alloc(), text) {
            Ok(_) => assert!(rt; false),
            Err(fault) => assert_eq!(rt; fault, ReportFault::NoLine { line }),
        }
    }
    Ok(())
}
