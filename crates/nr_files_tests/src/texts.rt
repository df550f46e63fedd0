//! A genesis and faulty texts, with ample memory. What is expected is written by hand from the forms.

use nr_json::{Form, JsonFault, StatedGenesis};
use serde_json::Value;
use std::alloc::Global;
use std::test::Fail;

/// A genesis, in the order and the layout in which it is written.
const GENESIS: &str = "{\"boundaries\":[\"m.near\"],\"entries\":[\
{\"account_id\":\"alice\",\"amount\":\"340282366920938463463374607431768211455\",\"kind\":\"account\",\"locked\":\"0\"},\
{\"account_id\":\"alice\",\"code\":\"0061736d\",\"kind\":\"code\"},\
{\"access_key\":{\"nonce\":18446744073709551615,\"permission\":{\"FunctionCall\":\
{\"allowance\":null,\"method_names\":[\"go\"],\"receiver_id\":\"bob\"}}},\"account_id\":\"alice\",\"kind\":\"key\",\
\"public_key\":\"ed25519:0101010101010101010101010101010101010101010101010101010101010101\"},\
{\"account_id\":\"alice\",\"key\":\"6b\",\"kind\":\"datum\",\"value\":\"\"}]}";

/// The path of a text's fault and what is wrong, or nothing.
fn fault_in(alloc: Global, text: &str) -> Result<String, Fail> {
    let value = Value::from_str(alloc, text)?;
    match StatedGenesis::from_json(alloc, &value) {
        Ok(_) => Ok(String::new(alloc)),
        Err(JsonFault::At { path, wrong }) => {
            let (path, words) = (path.inner(), wrong.words());
            Ok(format!(in alloc; "{path} {words}")?)
        }
        Err(JsonFault::Memory) => Ok(String::from_str(alloc, "no memory")?),
    }
}

#[test]
fn a_genesis_is_read_and_written(rt: HostRuntime) -> Result<(), Fail> {
    let alloc = rt.alloc();
    let value = Value::from_str(alloc, GENESIS)?;
    let genesis = StatedGenesis::from_json(alloc, &value).ok();
    assert!(rt; genesis.is_some());
    if let Some(genesis) = genesis {
        let text = genesis.to_json(alloc)?.to_string(alloc)?;
        assert_eq!(rt; text.as_str(), GENESIS);
    }
    Ok(())
}

#[test]
fn faults_have_the_path_of_the_member(rt: HostRuntime) -> Result<(), Fail> {
    let alloc = rt.alloc();
    let rows: [(&str, &str); 11] = [
        ("[]", " is no object"),
        ("{\"boundaries\": []}", ".entries is missing"),
        (
            "{\"boundaries\": [\"a..b\"]}",
            ".boundaries[0] is no account id: 2 to 64 characters, of `a` to `z` and `0` to `9`, and single `-`, \
            `_` or `.` between these",
        ),
        (
            "{\"boundaries\": [], \"entries\": {}}",
            ".entries is no list",
        ),
        (
            "{\"boundaries\": [], \"entries\": [{\"kind\": \"code\", \"account_id\": \"ab\", \"code\": \"\"}, 7]}",
            ".entries[1] is no object",
        ),
        (
            "{\"boundaries\": [], \"entries\": [{\"kind\": \"code\", \"account_id\": \"ab\", \"code\": \"abc\"}]}",
            ".entries[0].code is no text of pairs of hexadecimal digits",
        ),
        (
            "{\"boundaries\": [], \"entries\": [{\"kind\": \"account\", \"account_id\": \"ab\"}]}",
            ".entries[0].amount is missing",
        ),
        (
            "{\"boundaries\": [], \"entries\": [{\"kind\": \"key\", \"account_id\": \"ab\", \
            \"public_key\": \"ed25519:0101010101010101010101010101010101010101010101010101010101010101\", \
            \"access_key\": {\"nonce\": 0, \"permission\": \"All\"}}]}",
            ".entries[0].access_key.permission is no permission: `FullAccess` or `FunctionCall`",
        ),
        (
            "{\"boundaries\": [], \"entries\": [{\"kind\": \"key\", \"account_id\": \"ab\", \
            \"public_key\": \"ed25519:0101010101010101010101010101010101010101010101010101010101010101\", \
            \"access_key\": {\"nonce\": 0, \"permission\": {\"a\\n\\u001b[31mred\": {}}}}]}",
            ".entries[0].access_key.permission is no permission: `FullAccess` or `FunctionCall`",
        ),
        (
            "{\"boundaries\": [], \"entries\": [{\"kind\": \"coin\"}]}",
            ".entries[0].kind is no kind of entry: `account`, `code`, `key` or `datum`",
        ),
        (
            "{\"boundaries\": [], \"entries\": [{\"kind\": \"datum\", \"account_id\": \"ab\", \"key\": \"00\", \"value\": 5}]}",
            ".entries[0].value is no text of pairs of hexadecimal digits",
        ),
    ];
    for (text, line) in rows {
        let told = fault_in(alloc, text)?;
        assert_eq!(rt; told.as_str(), line);
    }
    Ok(())
}
