//! The members of a genesis in other orders and spellings, with ample memory. What is expected is written by hand.

use crate::files::{GENESIS_HEX, ended, refuses, refuses_bytes};
use nr_jsonstream::{Unread, genesis_in_text};
use std::alloc::Global;
use std::test::Fail;

/// The entries of a genesis with alice, who has a key, and bob.
const ENTRIES: &str = "[\
    {\"kind\": \"account\", \"account_id\": \"alice\", \"amount\": \"100\", \"locked\": \"0\"},\
    {\"kind\": \"account\", \"account_id\": \"bob\", \"amount\": \"20\", \"locked\": \"0\"},\
    {\"kind\": \"key\", \"account_id\": \"alice\",\
    \"public_key\": \"ed25519:0101010101010101010101010101010101010101010101010101010101010101\",\
    \"access_key\": {\"nonce\": 0, \"permission\": \"FullAccess\"}}]";

/// The same with escapes, members in another order, doubled ones and further ones.
const OTHER_ENTRIES: &str = "[\
    {\"locked\": \"0\", \"amount\": \"7\", \"account_id\": \"\\u0061lice\", \"amount\": \"100\",\
    \"kind\": \"account\"},\
    {\"k\\u0069nd\": \"acc\\u006funt\", \"account_id\": \"bob\", \"amount\": \"20\", \"locked\": \"0\", \"note\": 1},\
    {\"access_key\": {\"permission\": \"Full\\u0041ccess\", \"nonce\": 0}, \"kind\": \"code\",\
    \"public_key\": \"ed25519:0101010101010101010101010101010101010101010101010101010101010101\",\
    \"kind\": \"key\", \"account_id\": \"alice\", \"code\": null}]";

/// Faulty texts, and the line of the fault that is told.
const FIRST_FAULTS: [(&str, &str); 7] = [
    // of the boundaries, before that of an entry
    (
        "{\"entries\": [7], \"boundaries\": 7}",
        ".boundaries is no list",
    ),
    (
        "{\"entries\": [7], \"boundaries\": [\"ab\", 7]}",
        ".boundaries[1] is no account id: 2 to 64 characters, of `a` to `z` and `0` to `9`, and single `-`, `_` \
        or `.` between these",
    ),
    ("{\"entries\": [7]}", ".boundaries is missing"),
    ("{\"boundaries\": []}", ".entries is missing"),
    // of the last of doubled members
    (
        "{\"boundaries\": [], \"entries\": [], \"entries\": [[]]}",
        ".entries[0] is no object",
    ),
    // of the first faulty entry, by the order of its members
    (
        "{\"boundaries\": [], \"entries\": [{\"kind\": \"account\", \"locked\": 1, \"amount\": 1,\
        \"account_id\": \"alice\"}, 7]}",
        ".entries[0].amount is no amount: a text of decimal digits, at most \
        340282366920938463463374607431768211455",
    ),
    (
        "{\"boundaries\": [], \"entries\": [{\"kind\": \"key\", \"account_id\": \"alice\",\
        \"public_key\": \"ed25519:0101010101010101010101010101010101010101010101010101010101010101\",\
        \"access_key\": {\"nonce\": 1.0, \"permission\": 7}}, 7]}",
        ".entries[0].access_key.nonce is no whole number from 0 to 18446744073709551615",
    ),
];

/// A text in this many lists.
fn nested(alloc: Global, depth: usize, text: &str) -> Result<String, Fail> {
    let mut whole = String::new(alloc);
    for _ in 0..depth {
        whole.push('[')?;
    }
    whole.push_str(text)?;
    for _ in 0..depth {
        whole.push(']')?;
    }
    Ok(whole)
}

/// The bytes, in hexadecimal, of the genesis that a text states.
fn made(alloc: Global, text: &str) -> Result<String, Fail> {
    let (_made, bytes) = ended(alloc, &["genesis", "free", "F"], text.as_bytes())?;
    Ok(hex::encode(alloc, bytes.as_slice())?)
}

/// Texts of an object with a member that is any value.
fn texts_with(alloc: Global, value: &str) -> Result<Vec<String>, Fail> {
    let mut texts = Vec::new(alloc);
    texts.push(format!(in alloc;
        "{{\"boundaries\": [], \"entries\": {ENTRIES}, \"note\": {value}}}"
    )?)?;
    texts.push(format!(in alloc;
        "{{\"note\": {value}, \"boundaries\": [], \"entries\": {ENTRIES}}}"
    )?)?;
    texts.push(format!(in alloc;
        "{{\"entries\": {value}, \"boundaries\": [], \"entries\": {ENTRIES}}}"
    )?)?;
    texts.push(format!(in alloc;
        "{{\"boundaries\": {value}, \"entries\": {ENTRIES}, \"boundaries\": []}}"
    )?)?;
    Ok(texts)
}

#[test]
fn members_may_stand_in_any_order_and_spelling(rt: HostRuntime) -> Result<(), Fail> {
    let alloc = rt.alloc();
    let texts = [
        format!(in alloc; "{{\"boundaries\": [], \"entries\": {ENTRIES}}}")?,
        format!(in alloc; "{{\"boundaries\": [], \"entries\": {ENTRIES}}}\n")?,
        format!(in alloc; " {{\"entries\" : {ENTRIES} ,\"boundaries\":[ ]}}\t\n")?,
        format!(in alloc; "{{\"boundaries\": [], \"entries\": {OTHER_ENTRIES}}}")?,
        format!(in alloc; "{{\"\\u0065ntries\": {OTHER_ENTRIES}, \"bound\\u0061ries\": []}}")?,
    ];
    for text in &texts {
        let bytes = made(alloc, text.as_str())?;
        assert_eq!(rt; bytes.as_str(), GENESIS_HEX, "{text}");
    }
    Ok(())
}

#[test]
fn the_last_of_doubled_members_counts(rt: HostRuntime) -> Result<(), Fail> {
    let alloc = rt.alloc();
    for value in [
        "0",
        "-1",
        "2.5",
        "18446744073709551616",
        "null",
        "true",
        "\"a\\nb\"",
        "[]",
        "[{\"kind\": \"coin\"}]",
        "{\"entries\": [1], \"entries\": []}",
    ] {
        for text in &texts_with(alloc, value)? {
            let bytes = made(alloc, text.as_str())?;
            assert_eq!(rt; bytes.as_str(), GENESIS_HEX, "{text}");
        }
    }
    Ok(())
}

#[test]
fn a_genesis_is_read_entry_by_entry(rt: HostRuntime) -> Result<(), Fail> {
    let alloc = rt.alloc();
    for entries in [ENTRIES, OTHER_ENTRIES] {
        let text = format!(in alloc; "{{\"boundaries\": [], \"entries\": {entries}}}")?;
        let genesis = genesis_in_text(alloc, text.as_bytes()).ok();
        assert!(rt; genesis.is_some(), "{text}");
        if let Some(genesis) = genesis {
            assert_eq!(rt; genesis.boundaries.inner().len(), 0);
            assert_eq!(rt; genesis.entries.inner().len(), 3);
        }
    }
    // numbers for which the tree of the whole text is read
    for value in ["-1", "2.5", "1e3", "18446744073709551616"] {
        for text in &texts_with(alloc, value)? {
            let unread = genesis_in_text(alloc, text.as_bytes()).err();
            assert_eq!(rt; unread, Some(Unread::Other), "{text}");
        }
    }
    Ok(())
}

#[test]
fn values_nest_127_deep(rt: HostRuntime) -> Result<(), Fail> {
    let alloc = rt.alloc();
    let deepest = nested(alloc, 126, "1")?;
    for text in &texts_with(alloc, deepest.as_str())? {
        let bytes = made(alloc, text.as_str())?;
        assert_eq!(rt; bytes.as_str(), GENESIS_HEX, "{text}");
    }
    let deeper = nested(alloc, 127, "")?;
    for text in &texts_with(alloc, deeper.as_str())? {
        assert!(rt;
            refuses(
                alloc,
                &["genesis", "free", "F"],
                text.as_str(),
                "the text is no JSON"
            )?,
            "{text}"
        );
    }
    Ok(())
}

#[test]
fn what_is_no_genesis_is_told(rt: HostRuntime) -> Result<(), Fail> {
    let alloc = rt.alloc();
    let rows: [(&[u8], &str); 8] = [
        (b"", "the text is no JSON"),
        (
            b"{\"entries\": [7], \"boundaries\": [7]",
            "the text is no JSON",
        ),
        (
            b"{\"boundaries\": [], \"entries\": [7]} {}",
            "the text is no JSON",
        ),
        (
            b"{\"boundaries\": [], \"entries\": []},",
            "the text is no JSON",
        ),
        (
            b"{\"boundaries\": [], \"entries\": [7], \"note\": 1e999}",
            "the text is no JSON",
        ),
        (
            b"{\"boundaries\": [], \"entries\": [7], \"\\ud800\": 0}",
            "the text is no JSON",
        ),
        (
            b"{\"boundaries\": [], \"entries\": [7], \"\xff\": 0}",
            "the text is no JSON",
        ),
        (b"[{\"entries\": [7]}]", "the text is no object"),
    ];
    for (text, line) in rows {
        assert!(rt;
            refuses_bytes(alloc, &["genesis", "free", "F"], text, line)?,
            "{line}"
        );
    }
    Ok(())
}

#[test]
fn the_first_fault_is_told(rt: HostRuntime) -> Result<(), Fail> {
    let alloc = rt.alloc();
    for (text, line) in FIRST_FAULTS {
        assert!(rt;
            refuses(alloc, &["genesis", "free", "F"], text, line)?,
            "{text}"
        );
    }
    Ok(())
}
