//! Configuration files.

use std::alloc::Global;
use std::test::Fail;

/// The entries and their numbers, under which gas and storage cost nothing.
const ENTRIES: [(&str, &str); 75] = [
    ("gas_price", "0"),
    ("storage_price", "0"),
    ("chunk_gas_limit", "1000000000000000"),
    ("regular_op_cost", "1"),
    ("max_actions", "100"),
    ("max_prepaid_gas", "1000000000000000"),
    ("account_bytes", "100"),
    ("extra_record_bytes", "40"),
    ("top_level_min_len", "0"),
    ("delete_state_limit", "10000"),
    ("reward_numerator", "0"),
    ("reward_denominator", "100"),
    ("max_code", "4194304"),
    ("max_pages", "256"),
    ("max_call_depth", "1000"),
    ("max_stack_values", "100000"),
    ("max_registers", "100"),
    ("max_register_bytes", "4194304"),
    ("max_all_register_bytes", "16777216"),
    ("max_logs", "100"),
    ("max_log_bytes", "16384"),
    ("max_key_bytes", "2048"),
    ("max_value_bytes", "4194304"),
    ("max_return_bytes", "4194304"),
    ("max_promises", "1024"),
    ("load_base", "0"),
    ("load_byte", "0"),
    ("host_base", "0"),
    ("host_byte", "0"),
    ("storage_base", "0"),
    ("storage_byte", "0"),
    ("sha_base", "0"),
    ("sha_byte", "0"),
    ("action_receipt_send_local", "0"),
    ("action_receipt_send_remote", "0"),
    ("action_receipt_exec", "0"),
    ("data_base_send_local", "0"),
    ("data_base_send_remote", "0"),
    ("data_base_exec", "0"),
    ("data_byte_send_local", "0"),
    ("data_byte_send_remote", "0"),
    ("data_byte_exec", "0"),
    ("create_account_send_local", "0"),
    ("create_account_send_remote", "0"),
    ("create_account_exec", "0"),
    ("deploy_base_send_local", "0"),
    ("deploy_base_send_remote", "0"),
    ("deploy_base_exec", "0"),
    ("deploy_byte_send_local", "0"),
    ("deploy_byte_send_remote", "0"),
    ("deploy_byte_exec", "0"),
    ("call_base_send_local", "0"),
    ("call_base_send_remote", "0"),
    ("call_base_exec", "0"),
    ("call_byte_send_local", "0"),
    ("call_byte_send_remote", "0"),
    ("call_byte_exec", "0"),
    ("transfer_send_local", "0"),
    ("transfer_send_remote", "0"),
    ("transfer_exec", "0"),
    ("add_full_key_send_local", "0"),
    ("add_full_key_send_remote", "0"),
    ("add_full_key_exec", "0"),
    ("add_call_key_base_send_local", "0"),
    ("add_call_key_base_send_remote", "0"),
    ("add_call_key_base_exec", "0"),
    ("add_call_key_byte_send_local", "0"),
    ("add_call_key_byte_send_remote", "0"),
    ("add_call_key_byte_exec", "0"),
    ("delete_key_send_local", "0"),
    ("delete_key_send_remote", "0"),
    ("delete_key_exec", "0"),
    ("delete_account_send_local", "0"),
    ("delete_account_send_remote", "0"),
    ("delete_account_exec", "0"),
];

/// A price of 1 for gas, and fees for receipts and calls.
pub(crate) const FEES: [(&str, &str); 7] = [
    ("gas_price", "1"),
    ("action_receipt_send_local", "1"),
    ("action_receipt_send_remote", "1"),
    ("action_receipt_exec", "2"),
    ("call_base_send_local", "3"),
    ("call_base_send_remote", "3"),
    ("call_base_exec", "4"),
];

/// The first number that stands for a name, or the one that stands if there is none.
fn number_for<'a>(name: &str, changes: &[&[(&'a str, &'a str)]], stands: &'a str) -> &'a str {
    for part in changes {
        for (changed, number) in *part {
            if *changed == name {
                return number;
            }
        }
    }
    stands
}

/// The text of a configuration where some entries have other numbers. Of two for one name the first counts.
pub(crate) fn config_text(
    alloc: Global,
    changes: &[&[(&'static str, &'static str)]],
) -> Result<String, Fail> {
    let mut text = String::from_str(alloc, "{")?;
    for (place, (name, stands)) in ENTRIES.iter().enumerate() {
        let front = if place == 0 { "" } else { ", " };
        let number = number_for(name, changes, stands);
        text.push_str(&format!(in alloc; "{front}\"{name}\": {number}")?)?;
    }
    text.push_str("}")?;
    Ok(text)
}
