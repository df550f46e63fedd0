//! Small files in memory, with ample memory. The bytes and the lines are written by hand from the formats.

use nr_bytes::{MemoryShelf, MemorySink};
use nr_files::{Status, serve_files};
use std::alloc::Global;
use std::test::Fail;

/// One block with a transfer of 5 from alice to bob, and one whose chunk is missing.
const BLOCKS: &str = "{\"blocks\": [\
    {\"height\": 1, \"timestamp\": 0, \"chunks\": [[{\"signer_id\": \"alice\",\
    \"public_key\": \"ed25519:0101010101010101010101010101010101010101010101010101010101010101\",\
    \"nonce\": 1, \"receiver_id\": \"bob\",\
    \"block_hash\": \"0000000000000000000000000000000000000000000000000000000000000000\",\
    \"actions\": [{\"Transfer\": {\"deposit\": \"5\"}}, \"CreateAccount\"]}]]},\
    {\"height\": 2, \"timestamp\": 7, \"chunks\": [null]}]}";

/// The bytes of these blocks.
pub(crate) const BLOCKS_HEX: &str =
    "4e524231020000000100000000000000000000000000000001000000010100000005000000616c696365000101\
    010101010101010101010101010101010101010101010101010101010101010000000000000003000000626f62\
    000000000000000000000000000000000000000000000000000000000000000002000000030500000000000000\
    000000000000000000020000000000000007000000000000000100000000";

/// The same transfer at price 5, and the block whose chunk is missing at the greatest price.
const PRICED: &str = "{\"blocks\": [\
    {\"height\": 1, \"timestamp\": 0, \"price\": 5, \"chunks\": [[{\"signer_id\": \"alice\",\
    \"public_key\": \"ed25519:0101010101010101010101010101010101010101010101010101010101010101\",\
    \"nonce\": 1, \"receiver_id\": \"bob\",\
    \"block_hash\": \"0000000000000000000000000000000000000000000000000000000000000000\",\
    \"actions\": [{\"Transfer\": {\"deposit\": \"5\"}}]}]]},\
    {\"height\": 2, \"timestamp\": 7, \"price\": 18446744073709551615, \"chunks\": [null]}]}";

/// The bytes of these blocks.
const PRICED_HEX: &str =
    "4e5242320200000001000000000000000000000000000000050000000000000001000000010100000005000000\
    616c69636500010101010101010101010101010101010101010101010101010101010101010101000000000000\
    0003000000626f6200000000000000000000000000000000000000000000000000000000000000000100000003\
    0500000000000000000000000000000002000000000000000700000000000000ffffffffffffffff0100000000";

/// An empty block at each of two heights, and other boundaries from the second one on.
const RESHARDED: &str =
    "{\"version\": 3, \"reshard\": {\"height\": 2, \"boundaries\": [\"mm\"]}, \"blocks\": [\
    {\"height\": 1, \"timestamp\": 9, \"price\": 5, \"chunks\": [[]]},\
    {\"height\": 2, \"timestamp\": 9, \"price\": 7, \"chunks\": [[], null]}]}";

/// The bytes of these blocks.
const RESHARDED_BYTES: &[u8] = b"\
    NRB3\x01\x02\0\0\0\0\0\0\0\x01\0\0\0\x02\0\0\0mm\x02\0\0\0\
    \x01\0\0\0\0\0\0\0\x09\0\0\0\0\0\0\0\x05\0\0\0\0\0\0\0\x01\0\0\0\x01\0\0\0\0\
    \x02\0\0\0\0\0\0\0\x09\0\0\0\0\0\0\0\x07\0\0\0\0\0\0\0\x02\0\0\0\x01\0\0\0\0\0";

/// A genesis with alice, who has a key, and bob. What may be left out is left out.
const GENESIS: &str = "{\"boundaries\": [], \"entries\": [\
    {\"kind\": \"account\", \"account_id\": \"alice\", \"amount\": \"100\", \"locked\": \"0\"},\
    {\"kind\": \"account\", \"account_id\": \"bob\", \"amount\": \"20\", \"locked\": \"0\"},\
    {\"kind\": \"key\", \"account_id\": \"alice\",\
    \"public_key\": \"ed25519:0101010101010101010101010101010101010101010101010101010101010101\",\
    \"access_key\": {\"nonce\": 0, \"permission\": \"FullAccess\"}}]}";

/// The bytes of this genesis, with the usage 182 of alice and 100 of bob.
pub(crate) const GENESIS_HEX: &str =
    "4e52473100000000030000000005000000616c6963656400000000000000000000000000000000000000000000\
    0000000000000000000000000000000000000000000000000000000000000000000000000000000000b6000000\
    000000000003000000626f62140000000000000000000000000000000000000000000000000000000000000000\
    000000000000000000000000000000000000000000000000000000000000006400000000000000020500000061\
    6c6963650001010101010101010101010101010101010101010101010101010101010101010000000000000000\
    01";

/// A part of two, with one entry and one text.
pub(crate) const PART: &[u8] = b"NRP111111111111111111111111111111111\x02\0\0\0\x01\0\0\0\
    \x01\0\0\0\x01\0\0\0k\x02\0\0\0v\0\x01\0\0\0\x01\0\0\0\xff";

/// This part as it is shown.
const PART_JSON: &str = "{
  \"count\": 2,
  \"entries\": [
    {
      \"key\": \"6b\",
      \"value\": \"7600\"
    }
  ],
  \"number\": 1,
  \"root\": \"3131313131313131313131313131313131313131313131313131313131313131\",
  \"texts\": [
    \"ff\"
  ]
}
";

/// The proof of an item.
const PROOF: &str = "proof receipt 1 2 3 4
item 00ff
path 2222222222222222222222222222222222222222222222222222222222222222
";

/// This proof as it is shown.
const PROOF_JSON: &str = "{
  \"count\": 4,
  \"height\": 1,
  \"item\": \"00ff\",
  \"kind\": \"receipt\",
  \"path\": [
    \"2222222222222222222222222222222222222222222222222222222222222222\"
  ],
  \"place\": 3,
  \"shard\": 2
}
";

/// How a command over one file ends, and what is written.
pub(crate) fn ended(alloc: Global, words: &[&str], file: &[u8]) -> Result<(Status, Vec<u8>), Fail> {
    let mut texts = Vec::new(alloc);
    for word in words {
        texts.push(String::from_str(alloc, word)?)?;
    }
    let mut files = Vec::new(alloc);
    files.push((String::from_str(alloc, "F")?, Vec::from_slice(alloc, file)?))?;
    let mut shelf = MemoryShelf::new(files, Vec::new(alloc));
    let mut sink = MemorySink::new(alloc, 100, Vec::new(alloc), 4096)?;
    let status = serve_files(alloc, &texts, &mut shelf, &mut sink);
    Ok((status, Vec::from_slice(alloc, sink.bytes())?))
}

/// The bytes with another byte at a place.
pub(crate) fn with_byte(alloc: Global, bytes: &[u8], at: usize, byte: u8) -> Result<Vec<u8>, Fail> {
    let mut other = Vec::from_slice(alloc, bytes)?;
    if let Some(place) = other.get_mut(at) {
        *place = byte;
    }
    Ok(other)
}

/// The bytes with a zero behind them.
pub(crate) fn with_rest(alloc: Global, bytes: &[u8]) -> Result<Vec<u8>, Fail> {
    let mut other = Vec::from_slice(alloc, bytes)?;
    other.push(0)?;
    Ok(other)
}

/// Whether a file is refused with this line, and nothing is written.
pub(crate) fn refuses_bytes(
    alloc: Global,
    words: &[&str],
    bytes: &[u8],
    line: &str,
) -> Result<bool, Fail> {
    let (status, written) = ended(alloc, words, bytes)?;
    let told = format!(in alloc; "{status}")?;
    Ok(status.exit_status() == 20 && told.as_str() == line && written.is_empty())
}

/// The same of a text.
pub(crate) fn refuses(alloc: Global, words: &[&str], text: &str, line: &str) -> Result<bool, Fail> {
    refuses_bytes(alloc, words, text.as_bytes(), line)
}

#[test]
fn a_part_and_a_proof_are_shown(rt: HostRuntime) -> Result<(), Fail> {
    let alloc = rt.alloc();
    let rows: [(&str, &[u8], &str); 2] = [
        ("part", PART, PART_JSON),
        ("proof", PROOF.as_bytes(), PROOF_JSON),
    ];
    for (what, file, json) in rows {
        let (shown, text) = ended(alloc, &["show", what, "F"], file)?;
        assert_eq!(rt; shown.exit_status(), 0);
        assert_eq!(rt; text.as_slice(), json.as_bytes());
    }
    Ok(())
}

#[test]
fn other_proofs_are_refused(rt: HostRuntime) -> Result<(), Fail> {
    let alloc = rt.alloc();
    let rows: [(&str, &str, &str); 2] = [
        ("proof", "", "line 1 is not what a proof has there"),
        (
            "proof",
            "proof receipt 1 2 3 4\nitem\n",
            "line 2 is not what a proof has there",
        ),
    ];
    for (what, text, line) in rows {
        assert!(rt; refuses(alloc, &["show", what, "F"], text, line)?, "{text}");
    }
    let (unknown, _) = ended(alloc, &["show", "parts", "F"], PART)?;
    assert_eq!(rt; unknown.exit_status(), 1);
    Ok(())
}

/// Whether a text is made into these bytes, and they are shown as a text that is made into them again.
fn comes_back(
    alloc: Global,
    make: &[&str],
    show: &[&str],
    text: &str,
    want: &[u8],
) -> Result<bool, Fail> {
    let (made, bytes) = ended(alloc, make, text.as_bytes())?;
    let (shown, told) = ended(alloc, show, want)?;
    let (again, same) = ended(alloc, make, &told)?;
    let exits = [made.exit_status(), shown.exit_status(), again.exit_status()];
    Ok(exits == [0; 3] && bytes.as_slice() == want && same.as_slice() == want)
}

/// The same of blocks.
fn blocks_come_back(alloc: Global, text: &str, want: &[u8]) -> Result<bool, Fail> {
    comes_back(
        alloc,
        &["blocks", "F"],
        &["show", "blocks", "F"],
        text,
        want,
    )
}

#[test]
fn files_are_made_and_shown(rt: HostRuntime) -> Result<(), Fail> {
    let alloc = rt.alloc();
    for (text, digits) in [(BLOCKS, BLOCKS_HEX), (PRICED, PRICED_HEX)] {
        let want = hex::decode(alloc, digits)?;
        assert!(rt; blocks_come_back(alloc, text, &want)?, "{text}");
    }
    let rows: [(&str, &[u8]); 5] = [
        (RESHARDED, RESHARDED_BYTES),
        ("{\"blocks\": []}", b"NRB1\0\0\0\0"),
        ("{\"version\": 1, \"blocks\": []}", b"NRB1\0\0\0\0"),
        ("{\"version\": 2, \"blocks\": []}", b"NRB2\0\0\0\0"),
        ("{\"version\": 3, \"blocks\": []}", b"NRB3\0\0\0\0\0"),
    ];
    for (text, want) in rows {
        assert!(rt; blocks_come_back(alloc, text, want)?, "{text}");
    }
    let make = ["genesis", "free", "F"];
    let show = ["show", "genesis", "free", "F"];
    let want = hex::decode(alloc, GENESIS_HEX)?;
    assert!(rt; comes_back(alloc, &make, &show, GENESIS, &want)?);
    Ok(())
}

/// Texts of blocks that are refused, each with its line: by the version, by the prices, and by the path of a member.
const FAULTY_BLOCKS: [(&str, &str); 21] = [
    (
        "{\"blocks\": [], \"reshard\": {\"height\": 2, \"boundaries\": [\"mm\"]}}",
        ".reshard is in no file of version 1 or 2",
    ),
    (
        "{\"version\": 2, \"blocks\": [], \"reshard\": null}",
        ".reshard is in no file of version 1 or 2",
    ),
    (
        "{\"version\": 3, \"blocks\": [], \"reshard\": null}",
        ".reshard is no object",
    ),
    (
        "{\"version\": 3, \"blocks\": [], \"reshard\": {\"height\": 2}}",
        ".reshard.boundaries is missing",
    ),
    (
        "{\"version\": 3, \"blocks\": [], \"reshard\": {\"height\": 2, \"boundaries\": [\"mm\", \"ab\"]}}",
        ".reshard.boundaries are more than 15, or one isn't above the one before it",
    ),
    (
        "{\"version\": 3, \"blocks\": [{\"height\": 1, \"timestamp\": 0, \"chunks\": []}]}",
        ".blocks[0].price is missing",
    ),
    (
        "{\"blocks\": [{\"height\": 1, \"timestamp\": 0, \"price\": 3, \"chunks\": []},\
            {\"height\": 2, \"timestamp\": 0, \"chunks\": []}, {\"height\": 3, \"timestamp\": 0, \"chunks\": []}]}",
        ".blocks[1].price is missing",
    ),
    (
        "{\"blocks\": [{\"height\": 1, \"timestamp\": 0, \"chunks\": []},\
            {\"height\": 2, \"timestamp\": 0, \"price\": 3, \"chunks\": []}]}",
        ".blocks[1].price is in no block of version 1",
    ),
    (
        "{\"version\": 2, \"blocks\": [{\"height\": 1, \"timestamp\": 0, \"chunks\": []}]}",
        ".blocks[0].price is missing",
    ),
    (
        "{\"version\": 1, \"blocks\": [{\"height\": 1, \"timestamp\": 0, \"price\": 3, \"chunks\": []}]}",
        ".blocks[0].price is in no block of version 1",
    ),
    (
        "{\"version\": 4, \"blocks\": []}",
        ".version is no version: 1, 2 or 3",
    ),
    (
        "{\"blocks\": [{\"height\": 1, \"timestamp\": 0, \"price\": null, \"chunks\": []}]}",
        ".blocks[0].price is no whole number from 0 to 18446744073709551615",
    ),
    ("{\"blocks\": [", "the text is no JSON"),
    ("[]", "the text is no object"),
    ("{}", ".blocks is missing"),
    ("{\"blocks\": {}}", ".blocks is no list"),
    ("{\"blocks\": [7]}", ".blocks[0] is no object"),
    (
        "{\"blocks\": [{\"height\": -1}]}",
        ".blocks[0].height is no whole number from 0 to 18446744073709551615",
    ),
    (
        "{\"blocks\": [{\"height\": 1, \"timestamp\": 0, \"chunks\": [null, [{\"signer_id\": \"A\"}]]}]}",
        ".blocks[0].chunks[1][0].signer_id is no account id: 2 to 64 characters, of `a` to `z` and `0` to `9`, \
        and single `-`, `_` or `.` between these",
    ),
    (
        "{\"blocks\": [{\"height\": 1, \"timestamp\": 0, \"chunks\": [[{\"signer_id\": \"alice\",\
        \"public_key\": \"ed25519:0101010101010101010101010101010101010101010101010101010101010101\",\
        \"nonce\": 1, \"receiver_id\": \"bob\", \"actions\": [\"Stake\"]}]]}]}",
        ".blocks[0].chunks[0][0].actions[0] is no action: `CreateAccount`, `DeployContract`, `FunctionCall`, \
        `Transfer`, `AddKey`, `DeleteKey` or `DeleteAccount`",
    ),
    (
        "{\"blocks\": [{\"height\": 1, \"timestamp\": 0, \"chunks\": [[{\"signer_id\": \"alice\",\
        \"public_key\": \"ed25519:0101010101010101010101010101010101010101010101010101010101010101\",\
        \"nonce\": 1, \"receiver_id\": \"bob\", \"actions\": [{\"a\\n\\u001b[31mred\": {}}]}]]}]}",
        ".blocks[0].chunks[0][0].actions[0] is no action: `CreateAccount`, `DeployContract`, `FunctionCall`, \
        `Transfer`, `AddKey`, `DeleteKey` or `DeleteAccount`",
    ),
];

/// Texts of a genesis whose entries do not hold together, each with its line.
const FAULTY_GENESES: [(&str, &str); 5] = [
    (
        "{\"boundaries\": [], \"entries\": [{\"kind\": \"account\", \"account_id\": \"bob\",\
            \"amount\": \"20\", \"locked\": \"0\", \"storage_usage\": 99}]}",
        ".entries[0].storage_usage is 99, but 100 is counted",
    ),
    (
        "{\"boundaries\": [], \"entries\": [{\"kind\": \"account\", \"account_id\": \"bob\",\
            \"amount\": 20, \"locked\": \"0\"}]}",
        ".entries[0].amount is no amount: a text of decimal digits, \
            at most 340282366920938463463374607431768211455",
    ),
    (
        "{\"boundaries\": [], \"entries\": [{\"kind\": \"code\", \"account_id\": \"bob\", \"code\": \"\"}]}",
        ".entries[0].account_id has no account, or is `system`",
    ),
    (
        "{\"boundaries\": [\"mm\", \"aa\"], \"entries\": []}",
        ".boundaries are more than 15, or one isn't above the one before it",
    ),
    (
        "{\"boundaries\": [], \"entries\": [{\"kind\": \"datum\", \"account_id\": \"bob\", \"key\": \"6\"}]}",
        ".entries[0].key is no text of pairs of hexadecimal digits",
    ),
];

#[test]
fn faulty_texts_are_told(rt: HostRuntime) -> Result<(), Fail> {
    let alloc = rt.alloc();
    for (text, line) in FAULTY_BLOCKS {
        assert!(rt; refuses(alloc, &["blocks", "F"], text, line)?, "{text}");
    }
    for (text, line) in FAULTY_GENESES {
        assert!(rt;
            refuses(alloc, &["genesis", "free", "F"], text, line)?,
            "{text}"
        );
    }
    let (cut, _) = ended(alloc, &["show", "blocks", "F"], b"NRB3\x02")?;
    assert_eq!(rt;
        format!(in alloc; "{cut}")?.as_str(),
        "the field at byte 4 is neither 0 nor 1: 2"
    );
    Ok(())
}

#[test]
fn a_report_and_a_line_are_told(rt: HostRuntime) -> Result<(), Fail> {
    let alloc = rt.alloc();
    let (shown, text) = ended(alloc, &["show", "report", "F"], b"ok\n")?;
    assert_eq!(rt; shown.exit_status(), 0);
    assert_eq!(rt; text.as_slice(), b"{\"line\":\"ok\"}\n".as_slice());
    let (empty, none) = ended(alloc, &["show", "report", "F"], b"")?;
    assert_eq!(rt; empty.exit_status(), 0);
    assert!(rt; none.is_empty());
    assert!(rt;
        refuses(
            alloc,
            &["show", "report", "F"],
            "ok",
            "line 1 is no line of a report"
        )?
    );
    let (told, line) = ended(alloc, &["explain", "5"], b"")?;
    assert_eq!(rt; told.exit_status(), 0);
    assert_eq!(rt; line.as_slice(), b"A file could not be read.\n".as_slice());
    let (unknown, nothing) = ended(alloc, &["explain", "99"], b"")?;
    assert_eq!(rt; unknown.exit_status(), 21);
    assert_eq!(rt;
        format!(in alloc; "{unknown}")?.as_str(),
        "There is no sentence for these words."
    );
    assert!(rt; nothing.is_empty());
    let (wordless, _) = ended(alloc, &["explain"], b"")?;
    assert_eq!(rt; wordless.exit_status(), 1);
    Ok(())
}

#[test]
fn bytes_are_told_in_hexadecimal(rt: HostRuntime) -> Result<(), Fail> {
    let alloc = rt.alloc();
    let rows: [(&[u8], &[u8]); 2] = [(b"\0asm\xff", b"\"0061736dff\"\n"), (b"", b"\"\"\n")];
    for (bytes, json) in rows {
        let (told, text) = ended(alloc, &["hex", "F"], bytes)?;
        assert_eq!(rt; told.exit_status(), 0);
        assert_eq!(rt; text.as_slice(), json);
    }
    let (no_file, _) = ended(alloc, &["hex"], b"")?;
    assert_eq!(rt; no_file.exit_status(), 1);
    Ok(())
}

/// A block with a call of go by alice, with these members for its block's hash and its arguments.
pub(crate) fn call_text(alloc: Global, hash: &str, args: &str) -> Result<String, Fail> {
    Ok(format!(in alloc;
        "{{\"blocks\": [{{\"height\": 1, \"timestamp\": 0, \"chunks\": [[{{\"signer_id\": \"alice\",\
        \"public_key\": \"ed25519:0101010101010101010101010101010101010101010101010101010101010101\",\
        \"nonce\": 1, \"receiver_id\": \"bob\", {hash}\"actions\": [{{\"FunctionCall\":\
        {{\"method_name\": \"go\", \"args\": {args}, \"gas\": 7, \"deposit\": \"0\"}}}}]}}]]}}]}}"
    )?)
}

/// A hash of zeros, written out.
const NO_HASH: &str =
    "\"block_hash\": \"0000000000000000000000000000000000000000000000000000000000000000\", ";

#[test]
fn arguments_may_be_a_text_and_a_hash_left_out(rt: HostRuntime) -> Result<(), Fail> {
    let alloc = rt.alloc();
    let full = call_text(alloc, NO_HASH, "\"7b22c3a9227d\"")?;
    let (made, bytes) = ended(alloc, &["blocks", "F"], full.as_str().as_bytes())?;
    assert_eq!(rt; made.exit_status(), 0);
    for (hash, args) in [
        (NO_HASH, "{\"text\": \"{\\\"\u{e9}\\\"}\"}"),
        ("", "\"7b22c3a9227d\""),
        ("", "{\"text\": \"{\\\"\\u00e9\\\"}\", \"JSON\": 5}"),
    ] {
        let short = call_text(alloc, hash, args)?;
        let (again, same) = ended(alloc, &["blocks", "F"], short.as_str().as_bytes())?;
        assert_eq!(rt; again.exit_status(), 0);
        assert!(rt; same == bytes, "{args}");
    }
    Ok(())
}

#[test]
fn wrong_arguments_and_hashes_are_told(rt: HostRuntime) -> Result<(), Fail> {
    let alloc = rt.alloc();
    let rows: [(&str, &str, &str); 7] = [
        (
            "",
            "{}",
            ".blocks[0].chunks[0][0].actions[0].FunctionCall.args.text is missing",
        ),
        (
            "",
            "{\"json\": {\"a\": [1, 2.5]}, \"text\": \"hi\"}",
            ".blocks[0].chunks[0][0].actions[0].FunctionCall.args.json has a number that is no whole one of 64 \
            bits: it may stand in a `text`",
        ),
        (
            "",
            "{\"json\": 18446744073709551616}",
            ".blocks[0].chunks[0][0].actions[0].FunctionCall.args.json has a number that is no whole one of 64 \
            bits: it may stand in a `text`",
        ),
        (
            "",
            "{\"text\": 5}",
            ".blocks[0].chunks[0][0].actions[0].FunctionCall.args.text is no text",
        ),
        (
            "",
            "5",
            ".blocks[0].chunks[0][0].actions[0].FunctionCall.args is no text of pairs of hexadecimal digits",
        ),
        (
            "\"block_hash\": \"00\", ",
            "\"\"",
            ".blocks[0].chunks[0][0].block_hash is no text of 64 hexadecimal digits",
        ),
        (
            "\"block_hash\": null, ",
            "\"\"",
            ".blocks[0].chunks[0][0].block_hash is no text of 64 hexadecimal digits",
        ),
    ];
    for (hash, args, line) in rows {
        let text = call_text(alloc, hash, args)?;
        assert!(rt;
            refuses(alloc, &["blocks", "F"], text.as_str(), line)?,
            "{line}"
        );
    }
    Ok(())
}
