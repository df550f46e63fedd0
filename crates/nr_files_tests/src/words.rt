//! What the words of the command line are answered, with ample memory. The texts are written by hand from the forms.

use crate::files::{BLOCKS_HEX, GENESIS_HEX, PART, ended};
use std::test::Fail;

/// The words of all commands.
const WORDS: &str = "near_files genesis CONFIG JSON
near_files blocks JSON
near_files hex FILE
near_files replay CONFIG GENESIS.json BLOCKS.json
near_files check CONFIG GENESIS.json BLOCKS.json SCHEDULE
near_files show genesis CONFIG FILE
near_files show blocks FILE
near_files show report FILE
near_files show part FILE
near_files show proof FILE
near_files show gathered FILE
near_files show --compact ..
near_files explain WORDS..
near_files help
near_files help COMMAND
near_files version
CONFIG is free or the name of a file. COMMAND is genesis, blocks, hex, replay, check, show, explain, help or \
version, or the program near_serial, near_replay, near_audit or near_module.";

/// How what `show` writes of a command begins.
const SHOW: &str = "near_files show genesis CONFIG FILE
near_files show blocks FILE
near_files show report FILE
near_files show part FILE
near_files show proof FILE
near_files show gathered FILE
near_files show --compact ..
Writes FILE as JSON: a genesis and blocks so that the same bytes can be made of the text, and of a report an object \
for each line. With --compact a text has no spaces between its parts and stands on one line.
";

/// The words of `near_serial`.
const SERIAL: &str = "near_serial run CONFIG GENESIS BLOCKS
near_serial check CONFIG GENESIS BLOCKS SCHEDULE
near_serial gen NUMBER SHARDS BLOCKS
near_serial roots CONFIG GENESIS BLOCKS
near_serial prove CONFIG GENESIS BLOCKS HEIGHT SHARD KIND PLACE
near_serial verify ROOT PROOF
near_serial part CONFIG GENESIS BLOCKS HEIGHT SHARD COUNT NUMBER
near_serial checkpart ROOT FILE
near_serial joinparts ROOT COUNT PREFIX
near_serial gather CONFIG GENESIS BLOCKS HEIGHT SHARD
near_serial recheck CONFIG FILE
CONFIG is free or the name of a file.
";

#[test]
fn commands_are_told(rt: HostRuntime) -> Result<(), Fail> {
    let alloc = rt.alloc();
    let all = format!(in alloc; "{WORDS}\n")?;
    let rows: [(&[&str], &str); 16] = [
        (&["version"], "near_files 0.1.0\n"),
        (&["help"], all.as_str()),
        (
            &["help", "genesis"],
            "near_files genesis CONFIG JSON\nWrites the genesis file that the JSON text describes, counted under \
            CONFIG. An account may leave out storage_usage and code_hash.\n",
        ),
        (
            &["help", "blocks"],
            "near_files blocks JSON\nWrites the blocks file that the JSON text describes.\n",
        ),
        (
            &["help", "hex"],
            "near_files hex FILE\nWrites the bytes of FILE as a JSON text of hexadecimal digits, as code and args \
            have them.\n",
        ),
        (
            &["help", "replay"],
            "near_files replay CONFIG GENESIS.json BLOCKS.json\nMakes both files as genesis and blocks do, replays \
            them as near_serial run does, and writes the report as show report does. A refusal is told in words, one \
            of CONFIG in numbers.\n",
        ),
        (
            &["help", "check"],
            "near_files check CONFIG GENESIS.json BLOCKS.json SCHEDULE\nMakes both files as genesis and blocks do, \
            drives them by the lines of SCHEDULE as near_serial check does, and writes its lines as show report \
            does. A refusal is told in words, one of CONFIG in numbers.\n",
        ),
        (&["help", "show"], SHOW),
        (
            &["help", "explain"],
            "near_files explain WORDS..\nWrites in one sentence what a line says that a program wrote, on standard \
            output or standard error. WORDS are the whole line, and may stand behind the program's name.\n",
        ),
        (
            &["help", "help"],
            "near_files help\nnear_files help COMMAND\nWrites the words of all commands, or those of one and what \
            it does, or those of another program.\n",
        ),
        (
            &["help", "version"],
            "near_files version\nWrites the program's name and its version.\n",
        ),
        (&["help", "near_serial"], SERIAL),
        (
            &["help", "near_replay"],
            "near_replay replay CONFIG GENESIS BLOCKS\nnear_replay gen NUMBER SHARDS BLOCKS\nCONFIG is free or the \
            name of a file.\n",
        ),
        (
            &["help", "near_audit"],
            "near_audit help\nWrites the words of near_audit.\n",
        ),
        (
            &["help", "near_module"],
            "near_module help\nWrites the words of near_module.\n",
        ),
        (&["explain", "7"], "Memory ran out.\n"),
    ];
    for (words, want) in rows {
        let (status, text) = ended(alloc, words, b"")?;
        assert_eq!(rt; status.exit_status(), 0);
        assert!(rt; text.as_slice() == want.as_bytes(), "{want}");
    }
    Ok(())
}

#[test]
fn other_words_are_told_the_commands(rt: HostRuntime) -> Result<(), Fail> {
    let alloc = rt.alloc();
    let line = format!(in alloc; "The words are no command. These are:\n{WORDS}")?;
    let rows: [&[&str]; 10] = [
        &[],
        &["gen"],
        &["help", "gen"],
        &["help", "show", "blocks"],
        &["version", "1"],
        &["blocks", "-F"],
        &["blocks", "--compact", "F"],
        &["genesis", "", "F"],
        &["show", "--compact"],
        &["show", "blocks", "--compact", "F"],
    ];
    for words in rows {
        let (status, written) = ended(alloc, words, b"")?;
        assert_eq!(rt; status.exit_status(), 1);
        assert_eq!(rt; format!(in alloc; "{status}")?.as_str(), line.as_str());
        assert!(rt; written.is_empty());
    }
    Ok(())
}

#[test]
fn files_are_refused_in_order(rt: HostRuntime) -> Result<(), Fail> {
    let alloc = rt.alloc();
    let rows: [(&[&str], u8, &str); 6] = [
        (&["genesis", "C", "F"], 5, "the file C can't be read"),
        (&["genesis", "C", "G"], 5, "the file C can't be read"),
        (&["genesis", "F", "G"], 2, "2 1 0"),
        (&["genesis", "free", "G"], 5, "the file G can't be read"),
        (&["show", "report", "G"], 5, "the file G can't be read"),
        (
            &["show", "--compact", "part", "a b"],
            5,
            "the file a b can't be read",
        ),
    ];
    for (words, number, line) in rows {
        let (status, written) = ended(alloc, words, b"")?;
        assert_eq!(rt; status.exit_status(), number);
        assert_eq!(rt; format!(in alloc; "{status}")?.as_str(), line);
        assert!(rt; written.is_empty());
    }
    Ok(())
}

#[test]
fn a_text_may_stand_on_one_line(rt: HostRuntime) -> Result<(), Fail> {
    let alloc = rt.alloc();
    let (shown, text) = ended(alloc, &["show", "--compact", "part", "F"], PART)?;
    assert_eq!(rt; shown.exit_status(), 0);
    assert_eq!(rt;
        text.as_slice(),
        b"{\"count\":2,\"entries\":[{\"key\":\"6b\",\"value\":\"7600\"}],\"number\":1,\"root\":\
        \"3131313131313131313131313131313131313131313131313131313131313131\",\"texts\":[\"ff\"]}\n"
            .as_slice()
    );
    let (_, report) = ended(alloc, &["show", "--compact", "report", "F"], b"ok\n")?;
    assert_eq!(rt; report.as_slice(), b"{\"line\":\"ok\"}\n".as_slice());
    let blocks = hex::decode(alloc, BLOCKS_HEX)?;
    let genesis = hex::decode(alloc, GENESIS_HEX)?;
    let rows: [(&[&str], &[&str], &[u8]); 2] = [
        (
            &["show", "--compact", "blocks", "F"],
            &["blocks", "F"],
            blocks.as_slice(),
        ),
        (
            &["show", "--compact", "genesis", "free", "F"],
            &["genesis", "free", "F"],
            genesis.as_slice(),
        ),
    ];
    for (show, make, file) in rows {
        let (_, line) = ended(alloc, show, file)?;
        match line.as_slice() {
            [front @ .., b'\n'] => {
                assert!(rt; !front.contains(&b'\n') && !front.contains(&b' '));
            }
            _ => assert!(rt; false),
        }
        let (made, again) = ended(alloc, make, &line)?;
        assert_eq!(rt; made.exit_status(), 0);
        assert!(rt; again.as_slice() == file);
    }
    Ok(())
}
