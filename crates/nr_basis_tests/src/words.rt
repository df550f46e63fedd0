//! Which words have a form, and what they are.

use nr_words::{
    FileNames, Form, Found, Place, Value, Words, read_words, replay_command, serial_command,
};
use std::alloc::{AllocError, Global};
use std::test::Fail;

const ROOT: &str = "00112233445566778899aabbccddeeff00112233445566778899aabbccddeeff";

const FORMS: &[Form] = &[
    Form {
        verb: "roots",
        places: &[Place::File("BLOCKS")],
    },
    Form {
        verb: "proof",
        places: &[
            Place::Digits("ROOT"),
            Place::OneOf {
                name: "KIND",
                words: &["outcome", "receipt"],
            },
            Place::Number {
                name: "PLACE",
                least: 1,
                most: 9,
            },
        ],
    },
];

fn words_of(alloc: Global, texts: &[&str]) -> Result<Vec<String>, AllocError> {
    let mut words = Vec::new(alloc);
    for text in texts {
        words.push(String::from_str(alloc, text)?)?;
    }
    Ok(words)
}

// The choice and the place of a proof that is found.
fn proof_in(found: Option<Found<'_>>) -> Option<(usize, u64)> {
    let found = found?;
    match found.values.as_slice() {
        [Value::Digits(_), Value::Choice(kind), Value::Number(place)] => Some((*kind, *place)),
        _ => None,
    }
}

fn proof(alloc: Global, texts: &[&str]) -> Result<Option<(usize, u64)>, AllocError> {
    let words = words_of(alloc, texts)?;
    Ok(proof_in(read_words(alloc, "near", FORMS, words.as_slice())?))
}

fn generated(words: Option<Words<'_>>) -> Option<(u64, u32, u64)> {
    match words {
        Some(
            Words::GenerateInput {
                start,
                shards,
                blocks,
            },
        ) => Some((start, shards, blocks)),
        _ => None,
    }
}

fn serial(alloc: Global, texts: &[&str]) -> Result<Option<(u64, u32, u64)>, AllocError> {
    let words = words_of(alloc, texts)?;
    Ok(generated(serial_command(alloc, words.as_slice())?))
}

fn words_in(alloc: Global, line: &str) -> Result<Vec<String>, AllocError> {
    let mut words = Vec::new(alloc);
    for word in line.split(' ') {
        words.push(String::from_str(alloc, word)?)?;
    }
    Ok(words)
}

fn chain(alloc: Global, files: &FileNames<'_>) -> Result<String, AllocError> {
    let config = files.config;
    let genesis = files.genesis;
    let blocks = files.blocks;
    format!(in alloc; "{config} {genesis} {blocks}")
}

// The line that a command is read from.
fn line_of(alloc: Global, words: &Words<'_>) -> Result<String, AllocError> {
    match words {
        Words::ChunkRoots(files) => {
            let chain = chain(alloc, files)?;
            format!(in alloc; "roots {chain}")
        }
        Words::ProveItem { files, item } => {
            let chain = chain(alloc, files)?;
            let height = item.height;
            let shard = item.shard;
            let kind = item.kind.word();
            let place = item.place;
            format!(in alloc; "prove {chain} {height} {shard} {kind} {place}")
        }
        Words::VerifyProof { root, proof } => format!(in alloc; "verify {root} {proof}"),
        Words::CutPart { files, part } => {
            let chain = chain(alloc, files)?;
            let height = part.height;
            let shard = part.shard;
            let count = part.count;
            let number = part.number;
            format!(in alloc; "part {chain} {height} {shard} {count} {number}")
        }
        Words::CheckPartFile { root, file } => format!(in alloc; "checkpart {root} {file}"),
        Words::JoinPartFiles {
            root,
            count,
            prefix,
        } => format!(in alloc; "joinparts {root} {count} {prefix}"),
        Words::GatherChunk { files, chunk } => {
            let chain = chain(alloc, files)?;
            let height = chunk.height;
            let shard = chunk.shard;
            format!(in alloc; "gather {chain} {height} {shard}")
        }
        Words::RecheckChunk { config, file } => format!(in alloc; "recheck {config} {file}"),
        _ => String::from_str(alloc, "another command"),
    }
}

fn read_back(alloc: Global, line: &str) -> Result<String, AllocError> {
    let words = words_in(alloc, line)?;
    match serial_command(alloc, words.as_slice())? {
        Some(command) => line_of(alloc, &command),
        None => String::from_str(alloc, "no command"),
    }
}

fn is_replay(alloc: Global, texts: &[&str]) -> Result<bool, AllocError> {
    let words = words_of(alloc, texts)?;
    Ok(replay_command(alloc, words.as_slice())?.is_some())
}

#[test]
fn numbers_have_bounds(rt: HostRuntime) -> Result<(), Fail> {
    let rows: [(&[&str], Option<(u64, u32, u64)>); 7] = [
        (&["gen", "0", "1", "1"], Some((0, 1, 1))),
        (
            &["gen", "18446744073709551615", "16", "256"],
            Some((u64::MAX, 16, 256)),
        ),
        (&["gen", "18446744073709551616", "1", "1"], None),
        (&["gen", "0", "17", "1"], None),
        (&["gen", "0", "1", "257"], None),
        (&["gen", "07", "1", "1"], None),
        (&["gen", "0", "0", "1"], None),
    ];
    for (place, (words, want)) in rows.iter().enumerate() {
        assert_eq!(rt; serial(rt.alloc(), *words)?, *want, "row {place}");
    }
    Ok(())
}

#[test]
fn words_have_one_form(rt: HostRuntime) -> Result<(), Fail> {
    let rows: [(&[&str], bool); 10] = [
        (&["replay", "free", "G", "B"], true),
        (&["gen", "7", "4", "50"], true),
        (&["run", "free", "G", "B"], false),
        (&["replay", "free", "G"], false),
        (&["replay", "free", "G", "B", "B"], false),
        (&["replay", "free", "G", ""], false),
        (&["replay", "free", "-h", "B"], false),
        (&["roots", "free", "G", "B"], false),
        (&["help"], false),
        (&[], false),
    ];
    for (place, (words, want)) in rows.iter().enumerate() {
        assert_eq!(rt; is_replay(rt.alloc(), *words)?, *want, "row {place}");
    }
    Ok(())
}

#[test]
fn digits_and_choices(rt: HostRuntime) -> Result<(), Fail> {
    let rows: [(&[&str], Option<(usize, u64)>); 5] = [
        (&["proof", ROOT, "outcome", "1"], Some((0, 1))),
        (&["proof", ROOT, "receipt", "9"], Some((1, 9))),
        (&["proof", ROOT, "Receipt", "9"], None),
        (&["proof", "0f", "receipt", "9"], None),
        (&["roots", ROOT, "receipt", "9"], None),
    ];
    for (place, (words, want)) in rows.iter().enumerate() {
        assert_eq!(rt; proof(rt.alloc(), *words)?, *want, "row {place}");
    }
    Ok(())
}

#[test]
fn each_form_says_what_it_asks_for(rt: HostRuntime) -> Result<(), Fail> {
    let alloc = rt.alloc();
    let lines = [
        "roots free G B",
        "prove free G B 1 2 outcome 3",
        "prove C G B 18446744073709551615 4294967295 receipt 18446744073709551615",
        "verify 00112233445566778899aabbccddeeff00112233445566778899aabbccddeeff P",
        "part free G B 2 3 10000 9999",
        "part C G B 0 0 1 0",
        "checkpart 00112233445566778899aabbccddeeff00112233445566778899aabbccddeeff F",
        "joinparts 00112233445566778899aabbccddeeff00112233445566778899aabbccddeeff 10000 P",
        "gather free G B 2 0",
        "gather C G B 18446744073709551615 4294967295",
        "recheck free F",
    ];
    for line in lines {
        assert_eq!(rt; read_back(alloc, line)?.as_str(), line);
    }
    Ok(())
}

#[test]
fn other_words_are_no_command(rt: HostRuntime) -> Result<(), Fail> {
    let alloc = rt.alloc();
    let lines = [
        "roots free G",
        "roots free G B B",
        "prove free G B 1 0 receipt",
        "prove free G B 01 0 outcome 0",
        "prove free G B 18446744073709551616 0 outcome 0",
        "prove free G B 1 4294967296 outcome 0",
        "prove free G B 1 0 Outcome 0",
        "prove free G B 1 0 receipt 18446744073709551616",
        "verify 00112233445566778899aabbccddeeff00112233445566778899aabbccddeeff",
        "verify 0112233445566778899aabbccddeeff00112233445566778899aabbccddeeff P",
        "verify 00112233445566778899AABBCCDDEEFF00112233445566778899aabbccddeeff P",
        "part free G B 2 0 0 0",
        "part free G B 2 0 10001 0",
        "part free G B 2 0 4 4",
        "part free G B 2 0 4 03",
        "checkpart 0000112233445566778899aabbccddeeff00112233445566778899aabbccddeeff F",
        "joinparts 00112233445566778899aabbccddeeff00112233445566778899aabbccddeeff 0 P",
        "joinparts 00112233445566778899aabbccddeeff00112233445566778899aabbccddeeff 10001 P",
        "gather free G B 2",
        "gather free G B 2 0 0",
        "gather free G B 18446744073709551616 0",
        "gather free G B 2 4294967296",
        "recheck free",
        "recheck free F F",
    ];
    for line in lines {
        assert_eq!(rt; read_back(alloc, line)?.as_str(), "no command");
    }
    Ok(())
}
