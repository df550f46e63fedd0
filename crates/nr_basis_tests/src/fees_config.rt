//! Tests with a configuration in which no two fees are alike.

use nr_bytes::{Blob, List, Text};
use nr_config::Config;
use nr_fees::{attached_gas, deposits, exec_gas, receipt_tokens, send_gas};
use nr_ids::{AccountId, Hash32, PublicKey};
use nr_records::{Action, ActionReceipt, Body, DataReceipt, Receipt, decode};
use std::alloc::Global;
use std::test::Fail;

/// A configuration in which no two fees are alike.
const CONFIG: &str = r#"{
    "gas_price": 0, "storage_price": 0, "chunk_gas_limit": 1000000000000000,
    "regular_op_cost": 1, "max_actions": 100, "max_prepaid_gas": 1000000000000000,
    "account_bytes": 100, "extra_record_bytes": 40, "top_level_min_len": 0,
    "delete_state_limit": 10000, "reward_numerator": 0, "reward_denominator": 100,
    "max_code": 4194304, "max_pages": 256, "max_call_depth": 1000,
    "max_stack_values": 100000, "max_registers": 100, "max_register_bytes": 4194304,
    "max_all_register_bytes": 16777216, "max_logs": 100, "max_log_bytes": 16384,
    "max_key_bytes": 2048, "max_value_bytes": 4194304, "max_return_bytes": 4194304,
    "max_promises": 1024, "load_base": 0, "load_byte": 0, "host_base": 0, "host_byte": 0,
    "storage_base": 0, "storage_byte": 0, "sha_base": 0, "sha_byte": 0,
    "action_receipt_send_local": 60093, "action_receipt_send_remote": 77650,
    "action_receipt_exec": 58228, "data_base_send_local": 60553,
    "data_base_send_remote": 6457, "data_base_exec": 96525, "data_byte_send_local": 68378,
    "data_byte_send_remote": 89271, "data_byte_exec": 88930,
    "create_account_send_local": 62953, "create_account_send_remote": 89176,
    "create_account_exec": 90040, "deploy_base_send_local": 91704,
    "deploy_base_send_remote": 46304, "deploy_base_exec": 14112,
    "deploy_byte_send_local": 91740, "deploy_byte_send_remote": 42549,
    "deploy_byte_exec": 11981, "call_base_send_local": 33923,
    "call_base_send_remote": 36989, "call_base_exec": 66081, "call_byte_send_local": 95370,
    "call_byte_send_remote": 88092, "call_byte_exec": 46575, "transfer_send_local": 80516,
    "transfer_send_remote": 87709, "transfer_exec": 64670,
    "add_full_key_send_local": 36135, "add_full_key_send_remote": 54569,
    "add_full_key_exec": 4603, "add_call_key_base_send_local": 50572,
    "add_call_key_base_send_remote": 71969, "add_call_key_base_exec": 76039,
    "add_call_key_byte_send_local": 90534, "add_call_key_byte_send_remote": 61659,
    "add_call_key_byte_exec": 89618, "delete_key_send_local": 27032,
    "delete_key_send_remote": 18259, "delete_key_exec": 26755,
    "delete_account_send_local": 19814, "delete_account_send_remote": 40600,
    "delete_account_exec": 65582
}"#;

/// Each kind of action, keys of both kinds, and two calls.
const ACTIONS: &[u8] = b"\
    \x09\0\0\0\
    \0\
    \x01\x05\0\0\0\0asm!\
    \x02\x0c\0\0\0transfer_all\x07\0\0\0{\"n\":7},\x01\0\0\0\0\0\0F\0\0\0\0\0\0\0\0\0\0\0\0\0\0\0\
    \x03\x09\0\0\0\0\0\0\0\0\0\0\0\0\0\0\0\
    \x05\0kkkkkkkkkkkkkkkkkkkkkkkkkkkkkkkk\x04\0\0\0\0\0\0\0\0\0\x03\0\0\0con\x03\0\0\0\x02\0\0\0go\x04\0\0\0stop\0\0\0\0\
    \x05\0ffffffffffffffffffffffffffffffff\0\0\0\0\0\0\0\0\x01\
    \x06\0dddddddddddddddddddddddddddddddd\
    \x07\x05\0\0\0carol\
    \x02\x01\0\0\0m\0\0\0\0\xd0\x07\0\0\0\0\0\0\x05\0\0\0\0\0\0\0\0\0\0\0\0\0\0\0\
";

fn config(alloc: Global) -> Result<Config, Fail> {
    Ok(Config::read(alloc, CONFIG.as_bytes())?)
}

fn receipt(alloc: Global, predecessor: &str, body: Body) -> Result<Receipt, Fail> {
    Ok(Receipt {
        predecessor: AccountId::parse(alloc, predecessor.as_bytes())?,
        receiver: AccountId::parse(alloc, b"bob")?,
        receipt_id: Hash32([b'r'; 32]),
        body,
    })
}

/// A receipt of one call of `m`.
fn one_call(
    alloc: Global,
    predecessor: &str,
    gas_price: u128,
    gas: u64,
    deposit: u128,
) -> Result<Receipt, Fail> {
    let call = Action::FunctionCall {
        method: Text::of(String::from_str(alloc, "m")?),
        args: Blob::of(Vec::new(alloc)),
        gas,
        deposit,
    };
    let act = ActionReceipt {
        signer: AccountId::parse(alloc, b"carol")?,
        signer_key: PublicKey::Ed25519([b'k'; 32]),
        gas_price,
        outputs: List::of(Vec::new(alloc)),
        inputs: List::of(Vec::new(alloc)),
        actions: List::of(vec![in alloc; call]?),
    };
    receipt(alloc, predecessor, Body::Act(act))
}

#[test]
fn each_action_has_its_fee(rt: HostRuntime) -> Result<(), Fail> {
    let config = config(rt.alloc())?;
    let actions = decode::<List<Action>>(rt.alloc(), ACTIONS)?;
    assert_eq!(rt; send_gas(&config, &actions, true), Some(3_677_571));
    assert_eq!(rt; send_gas(&config, &actions, false), Some(3_089_730));
    assert_eq!(rt; exec_gas(&config, &actions), Some(2_330_158));
    assert_eq!(rt; attached_gas(&actions), Some(2300));
    assert_eq!(rt; deposits(&actions), Some(84));
    Ok(())
}

#[test]
fn tokens_stop_at_three_bounds(rt: HostRuntime) -> Result<(), Fail> {
    let config = config(rt.alloc())?;
    let past_price = 1 << 64;
    let most_gas = 18_446_744_073_709_380_731;
    let most_deposit = 340_282_366_920_938_463_463_374_607_431_767_698_803;
    let cases: [(&str, u128, u64, u128, Option<u128>); 10] = [
        ("alice", 3, 10, 5, Some(512_687)),
        ("system", 3, 10, 5, Some(5)),
        (
            "alice",
            past_price - 1,
            0,
            0,
            Some(3_152_253_414_291_783_018_177_660),
        ),
        ("alice", past_price, 0, 0, None),
        ("system", past_price, 0, 0, None),
        ("alice", 1, most_gas, 5, Some(18_446_744_073_709_551_620)),
        ("alice", 1, most_gas + 1, 5, None),
        ("system", 1, u64::MAX, 5, Some(5)),
        ("alice", 3, 0, most_deposit, Some(u128::MAX)),
        ("alice", 3, 0, most_deposit + 1, None),
    ];
    for (predecessor, price, gas, deposit, want) in cases {
        let receipt = one_call(rt.alloc(), predecessor, price, gas, deposit)?;
        assert_eq!(rt;
            receipt_tokens(&config, &receipt),
            want,
            "{predecessor} {price} {gas} {deposit}"
        );
    }
    Ok(())
}

#[test]
fn a_datum_holds_nothing(rt: HostRuntime) -> Result<(), Fail> {
    let datum = DataReceipt {
        data_id: Hash32([b'd'; 32]),
        bytes: None,
    };
    let receipt = receipt(rt.alloc(), "alice", Body::Datum(datum))?;
    assert_eq!(rt; receipt_tokens(&config(rt.alloc())?, &receipt), Some(0));
    Ok(())
}
