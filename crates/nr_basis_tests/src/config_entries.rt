//! Configurations that are read, and the first fault of those that are not.

use nr_config::entries::*;
use nr_config::{Config, ConfigFault};
use std::alloc::Global;
use std::test::Fail;

/// The name of each entry, its least and greatest number, and its number in the two built-in
/// configurations.
static WRITTEN: [(&str, u64, u64, u64, u64); 75] = [
    ("gas_price", 0, u64::MAX, 0, 100),
    ("storage_price", 0, u64::MAX, 0, 1000),
    (
        "chunk_gas_limit",
        1,
        1_000_000_000_000_000_000,
        1_000_000_000_000_000,
        500_000,
    ),
    ("regular_op_cost", 1, 1_000_000_000, 1, 1),
    ("max_actions", 1, 1000, 100, 100),
    (
        "max_prepaid_gas",
        1,
        1_000_000_000_000_000_000,
        1_000_000_000_000_000,
        1_000_000_000_000,
    ),
    ("account_bytes", 0, 1_000_000, 100, 100),
    ("extra_record_bytes", 0, 1_000_000, 40, 40),
    ("top_level_min_len", 0, 65, 0, 0),
    ("delete_state_limit", 0, 1_000_000_000, 10_000, 10_000),
    ("reward_numerator", 0, 1_000_000, 0, 30),
    ("reward_denominator", 1, 1_000_000, 100, 100),
    ("max_code", 1, 100_000_000, 4_194_304, 4_194_304),
    ("max_pages", 1, 2048, 256, 64),
    ("max_call_depth", 1, 10_000, 1000, 1000),
    ("max_stack_values", 1, 1_000_000, 100_000, 100_000),
    ("max_registers", 1, 10_000, 100, 100),
    ("max_register_bytes", 1, 100_000_000, 4_194_304, 4_194_304),
    (
        "max_all_register_bytes",
        1,
        100_000_000,
        16_777_216,
        16_777_216,
    ),
    ("max_logs", 0, 10_000, 100, 100),
    ("max_log_bytes", 0, 1_000_000, 16_384, 16_384),
    ("max_key_bytes", 1, 65_536, 2048, 2048),
    ("max_value_bytes", 1, 100_000_000, 4_194_304, 4_194_304),
    ("max_return_bytes", 1, 100_000_000, 4_194_304, 4_194_304),
    ("max_promises", 0, 10_000, 1024, 1024),
    ("load_base", 0, 1_000_000_000_000, 0, 100),
    ("load_byte", 0, 1_000_000_000_000, 0, 1),
    ("host_base", 0, 1_000_000_000_000, 0, 10),
    ("host_byte", 0, 1_000_000_000_000, 0, 1),
    ("storage_base", 0, 1_000_000_000_000, 0, 50),
    ("storage_byte", 0, 1_000_000_000_000, 0, 2),
    ("sha_base", 0, 1_000_000_000_000, 0, 20),
    ("sha_byte", 0, 1_000_000_000_000, 0, 1),
    ("action_receipt_send_local", 0, 1_000_000_000_000_000, 0, 10),
    (
        "action_receipt_send_remote",
        0,
        1_000_000_000_000_000,
        0,
        10,
    ),
    ("action_receipt_exec", 0, 1_000_000_000_000_000, 0, 10),
    ("data_base_send_local", 0, 1_000_000_000_000_000, 0, 10),
    ("data_base_send_remote", 0, 1_000_000_000_000_000, 0, 10),
    ("data_base_exec", 0, 1_000_000_000_000_000, 0, 10),
    ("data_byte_send_local", 0, 1_000_000_000_000_000, 0, 1),
    ("data_byte_send_remote", 0, 1_000_000_000_000_000, 0, 1),
    ("data_byte_exec", 0, 1_000_000_000_000_000, 0, 1),
    ("create_account_send_local", 0, 1_000_000_000_000_000, 0, 10),
    (
        "create_account_send_remote",
        0,
        1_000_000_000_000_000,
        0,
        10,
    ),
    ("create_account_exec", 0, 1_000_000_000_000_000, 0, 10),
    ("deploy_base_send_local", 0, 1_000_000_000_000_000, 0, 10),
    ("deploy_base_send_remote", 0, 1_000_000_000_000_000, 0, 10),
    ("deploy_base_exec", 0, 1_000_000_000_000_000, 0, 10),
    ("deploy_byte_send_local", 0, 1_000_000_000_000_000, 0, 1),
    ("deploy_byte_send_remote", 0, 1_000_000_000_000_000, 0, 1),
    ("deploy_byte_exec", 0, 1_000_000_000_000_000, 0, 1),
    ("call_base_send_local", 0, 1_000_000_000_000_000, 0, 10),
    ("call_base_send_remote", 0, 1_000_000_000_000_000, 0, 10),
    ("call_base_exec", 0, 1_000_000_000_000_000, 0, 10),
    ("call_byte_send_local", 0, 1_000_000_000_000_000, 0, 1),
    ("call_byte_send_remote", 0, 1_000_000_000_000_000, 0, 1),
    ("call_byte_exec", 0, 1_000_000_000_000_000, 0, 1),
    ("transfer_send_local", 0, 1_000_000_000_000_000, 0, 10),
    ("transfer_send_remote", 0, 1_000_000_000_000_000, 0, 10),
    ("transfer_exec", 0, 1_000_000_000_000_000, 0, 10),
    ("add_full_key_send_local", 0, 1_000_000_000_000_000, 0, 10),
    ("add_full_key_send_remote", 0, 1_000_000_000_000_000, 0, 10),
    ("add_full_key_exec", 0, 1_000_000_000_000_000, 0, 10),
    (
        "add_call_key_base_send_local",
        0,
        1_000_000_000_000_000,
        0,
        10,
    ),
    (
        "add_call_key_base_send_remote",
        0,
        1_000_000_000_000_000,
        0,
        10,
    ),
    ("add_call_key_base_exec", 0, 1_000_000_000_000_000, 0, 10),
    (
        "add_call_key_byte_send_local",
        0,
        1_000_000_000_000_000,
        0,
        1,
    ),
    (
        "add_call_key_byte_send_remote",
        0,
        1_000_000_000_000_000,
        0,
        1,
    ),
    ("add_call_key_byte_exec", 0, 1_000_000_000_000_000, 0, 1),
    ("delete_key_send_local", 0, 1_000_000_000_000_000, 0, 10),
    ("delete_key_send_remote", 0, 1_000_000_000_000_000, 0, 10),
    ("delete_key_exec", 0, 1_000_000_000_000_000, 0, 10),
    ("delete_account_send_local", 0, 1_000_000_000_000_000, 0, 10),
    (
        "delete_account_send_remote",
        0,
        1_000_000_000_000_000,
        0,
        10,
    ),
    ("delete_account_exec", 0, 1_000_000_000_000_000, 0, 10),
];

#[test]
fn entries_are_as_written(rt: HostRuntime) {
    let (free, generated) = (Config::free(), Config::generated());
    for (i, (name, _, _, of_free, of_generated)) in WRITTEN.iter().enumerate() {
        assert_eq!(rt; free.entry(i as u32 + 1), *of_free, "{name}");
        assert_eq!(rt; generated.entry(i as u32 + 1), *of_generated, "{name}");
    }
}

#[test]
fn named_entries_have_their_numbers(rt: HostRuntime) {
    for (number, name) in [
        (GAS_PRICE, "gas_price"),
        (STORAGE_PRICE, "storage_price"),
        (CHUNK_GAS_LIMIT, "chunk_gas_limit"),
        (REGULAR_OP_COST, "regular_op_cost"),
        (MAX_ACTIONS, "max_actions"),
        (MAX_PREPAID_GAS, "max_prepaid_gas"),
        (ACCOUNT_BYTES, "account_bytes"),
        (EXTRA_RECORD_BYTES, "extra_record_bytes"),
        (TOP_LEVEL_MIN_LEN, "top_level_min_len"),
        (DELETE_STATE_LIMIT, "delete_state_limit"),
        (REWARD_NUMERATOR, "reward_numerator"),
        (REWARD_DENOMINATOR, "reward_denominator"),
        (MAX_CODE, "max_code"),
        (MAX_PAGES, "max_pages"),
        (MAX_CALL_DEPTH, "max_call_depth"),
        (MAX_STACK_VALUES, "max_stack_values"),
        (MAX_REGISTERS, "max_registers"),
        (MAX_REGISTER_BYTES, "max_register_bytes"),
        (MAX_ALL_REGISTER_BYTES, "max_all_register_bytes"),
        (MAX_LOGS, "max_logs"),
        (MAX_LOG_BYTES, "max_log_bytes"),
        (MAX_KEY_BYTES, "max_key_bytes"),
        (MAX_VALUE_BYTES, "max_value_bytes"),
        (MAX_RETURN_BYTES, "max_return_bytes"),
        (MAX_PROMISES, "max_promises"),
        (LOAD_BASE, "load_base"),
        (LOAD_BYTE, "load_byte"),
        (HOST_BASE, "host_base"),
        (HOST_BYTE, "host_byte"),
        (STORAGE_BASE, "storage_base"),
        (STORAGE_BYTE, "storage_byte"),
        (SHA_BASE, "sha_base"),
        (SHA_BYTE, "sha_byte"),
    ] {
        let row = WRITTEN.get((number as usize).saturating_sub(1));
        assert_eq!(rt; row.map(|row| row.0), Some(name));
    }
}

/// The JSON text of a configuration, with some members in place of one entry's.
fn text(alloc: Global, config: &Config, entry: usize, members: &str) -> Result<String, Fail> {
    let mut text = String::from_str(alloc, "{")?;
    for (i, (name, ..)) in WRITTEN.iter().enumerate() {
        if i > 0 {
            text.push_str(", ")?;
        }
        if i + 1 == entry {
            text.push_str(members)?;
        } else {
            let number = config.entry(i as u32 + 1);
            text.push_str(&format!(in alloc; "\"{name}\": {number}")?)?;
        }
    }
    text.push_str("}")?;
    Ok(text)
}

/// What is read where some members stand in place of one entry's in the generated configuration.
fn changed(alloc: Global, entry: usize, members: &str) -> Result<Result<u64, ConfigFault>, Fail> {
    let text = text(alloc, &Config::generated(), entry, members)?;
    Ok(Config::read(alloc, text.as_bytes()).map(|config| config.entry(1)))
}

#[test]
fn built_in_configurations_are_read(rt: HostRuntime) -> Result<(), Fail> {
    for config in [Config::free(), Config::generated()] {
        let text = text(rt.alloc(), &config, 0, "")?;
        assert_eq!(rt; Config::read(rt.alloc(), text.as_bytes()), Ok(config));
    }
    Ok(())
}

/// The fault of the free configuration with this number of an entry in place of its own. The whole of which the reward
/// is a part is the greatest, so that each part may stand there.
fn fault_with(alloc: Global, name: &str, number: u64) -> Result<Option<ConfigFault>, Fail> {
    let members = format!(in alloc;
        "\"delete_account_exec\": 0, \"reward_denominator\": 1000000, \"{name}\": {number}"
    )?;
    let text = text(alloc, &Config::free(), 75, members.as_str())?;
    Ok(Config::read(alloc, text.as_bytes()).err())
}

#[test]
fn entries_keep_to_their_bounds(rt: HostRuntime) -> Result<(), Fail> {
    let alloc = rt.alloc();
    for (i, (name, least, greatest, _, _)) in WRITTEN.iter().enumerate() {
        let outside = Some(ConfigFault::OutOfRange {
            entry: i as u32 + 1,
        });
        assert_eq!(rt; fault_with(alloc, name, *least)?, None, "{name}");
        assert_eq!(rt; fault_with(alloc, name, *greatest)?, None, "{name}");
        if *least > 0 {
            assert_eq!(rt; fault_with(alloc, name, *least - 1)?, outside, "{name}");
        }
        if *greatest < u64::MAX {
            assert_eq!(rt; fault_with(alloc, name, *greatest + 1)?, outside, "{name}");
        }
    }
    Ok(())
}

/// Members in place of one entry's in the generated configuration, and the first entry's number, or the fault.
const CHANGED: [(usize, &str, Result<u64, ConfigFault>); 19] = [
    (
        1,
        "\"gas_price\": -1",
        Err(ConfigFault::NotWhole { entry: 1 }),
    ),
    (
        1,
        "\"gas_price\": 1.0",
        Err(ConfigFault::NotWhole { entry: 1 }),
    ),
    (
        1,
        "\"gas_price\": 1e5",
        Err(ConfigFault::NotWhole { entry: 1 }),
    ),
    (
        1,
        "\"gas_price\": -0",
        Err(ConfigFault::NotWhole { entry: 1 }),
    ),
    (
        1,
        "\"gas_price\": \"7\"",
        Err(ConfigFault::NotWhole { entry: 1 }),
    ),
    (
        1,
        "\"gas_price\": null",
        Err(ConfigFault::NotWhole { entry: 1 }),
    ),
    (
        1,
        "\"gas_price\": 18446744073709551616",
        Err(ConfigFault::NotWhole { entry: 1 }),
    ),
    (
        4,
        "\"regular_op_cost\": 0",
        Err(ConfigFault::OutOfRange { entry: 4 }),
    ),
    (
        9,
        "\"top_level_min_len\": 66",
        Err(ConfigFault::OutOfRange { entry: 9 }),
    ),
    (
        12,
        "\"reward_denominator\": 0",
        Err(ConfigFault::OutOfRange { entry: 12 }),
    ),
    (
        75,
        "\"delete_account_exec\": 1000000000000001",
        Err(ConfigFault::OutOfRange { entry: 75 }),
    ),
    (
        75,
        "\"Delete_account_exec\": 1",
        Err(ConfigFault::Missing { entry: 75 }),
    ),
    // The first faulty entry is told.
    (
        5,
        "\"chunk_gas_limit\": 0",
        Err(ConfigFault::OutOfRange { entry: 3 }),
    ),
    (
        12,
        "\"reward_denominator\": 29",
        Err(ConfigFault::OutOfRange { entry: 11 }),
    ),
    (
        75,
        "\"reward_denominator\": 29",
        Err(ConfigFault::Missing { entry: 75 }),
    ),
    // The last of equal names counts, and other names are passed over.
    (1, "\"gas_price\": -1, \"gas_price\": 7", Ok(7)),
    (1, "\"gas_price\": 18446744073709551615", Ok(u64::MAX)),
    (1, "\"gas_price\": 5, \"other\": [-1]", Ok(5)),
    (12, "\"reward_denominator\": 30", Ok(100)),
];

#[test]
fn first_faulty_entry_is_told(rt: HostRuntime) -> Result<(), Fail> {
    for (entry, members, want) in CHANGED {
        assert_eq!(rt; changed(rt.alloc(), entry, members)?, want, "{members}");
    }
    Ok(())
}

#[test]
fn only_objects_are_read(rt: HostRuntime) {
    let alloc = rt.alloc();
    for bytes in ["", "[]", "7", "{", "{\"gas_price\": 1,}", "{} {}"] {
        assert_eq!(rt;
            Config::read(alloc, bytes.as_bytes()),
            Err(ConfigFault::NotJson)
        );
    }
    assert_eq!(rt;
        Config::read(alloc, b"{\"\xff\": 1}"),
        Err(ConfigFault::NotJson)
    );
    assert_eq!(rt;
        Config::read(alloc, b"{}"),
        Err(ConfigFault::Missing { entry: 1 })
    );
}

#[test]
fn faults_are_told(rt: HostRuntime) -> Result<(), Fail> {
    let told = format!(in rt.alloc();
        "{}; {}",
        ConfigFault::Missing { entry: 7 },
        ConfigFault::NotJson
    )?;
    assert_eq!(rt; told.as_str(), "entry 7 is missing; no JSON object");
    Ok(())
}
