//! The entries of a configuration, with their bounds and their numbers in the two built-in ones.

ghost use Rattle.std.specs.Prelude.{◌≡◌, map};
ghost use Rattle.nr_config.specs.Table.{table};
ghost use Rattle.nr_config.specs.Rows.{row_of};

/// How many entries a configuration has.
pub(crate) const ENTRIES: usize = 75;

/// One entry of a configuration.
pub(crate) struct Row {
    pub(crate) name: &'static str,
    pub(crate) least: u64,
    pub(crate) greatest: u64,
    pub(crate) free: u64,
    pub(crate) generated: u64,
}

/// The rows: plain ones as `name: least..=greatest, free, generated;`, and then three for each fee,
/// as `fee: generated;`, for sending to oneself, for sending to another and for executing.
macro_rules! rows {
    (
        $($name:literal: $least:literal..=$greatest:expr, $free:literal, $generated:literal;)*
        fees
        $($fee:literal: $price:literal;)*
    ) => {
        [
            $(Row {
                name: $name,
                least: $least,
                greatest: $greatest,
                free: $free,
                generated: $generated,
            },)*
            $(
                rows!(fee concat!($fee, "_send_local"), $price),
                rows!(fee concat!($fee, "_send_remote"), $price),
                rows!(fee concat!($fee, "_exec"), $price),
            )*
        ]
    };
    (fee $name:expr, $price:literal) => {
        Row {
            name: $name,
            least: 0,
            greatest: 1_000_000_000_000_000,
            free: 0,
            generated: $price,
        }
    };
}

static ROWS: [Row; ENTRIES] = rows! {
    "gas_price": 0..=u64::MAX, 0, 100;
    "storage_price": 0..=u64::MAX, 0, 1000;
    "chunk_gas_limit": 1..=1_000_000_000_000_000_000, 1_000_000_000_000_000, 500_000;
    "regular_op_cost": 1..=1_000_000_000, 1, 1;
    "max_actions": 1..=1000, 100, 100;
    "max_prepaid_gas": 1..=1_000_000_000_000_000_000, 1_000_000_000_000_000, 1_000_000_000_000;
    "account_bytes": 0..=1_000_000, 100, 100;
    "extra_record_bytes": 0..=1_000_000, 40, 40;
    "top_level_min_len": 0..=65, 0, 0;
    "delete_state_limit": 0..=1_000_000_000, 10_000, 10_000;
    "reward_numerator": 0..=1_000_000, 0, 30;
    "reward_denominator": 1..=1_000_000, 100, 100;
    "max_code": 1..=100_000_000, 4_194_304, 4_194_304;
    "max_pages": 1..=2048, 256, 64;
    "max_call_depth": 1..=10_000, 1000, 1000;
    "max_stack_values": 1..=1_000_000, 100_000, 100_000;
    "max_registers": 1..=10_000, 100, 100;
    "max_register_bytes": 1..=100_000_000, 4_194_304, 4_194_304;
    "max_all_register_bytes": 1..=100_000_000, 16_777_216, 16_777_216;
    "max_logs": 0..=10_000, 100, 100;
    "max_log_bytes": 0..=1_000_000, 16_384, 16_384;
    "max_key_bytes": 1..=65_536, 2048, 2048;
    "max_value_bytes": 1..=100_000_000, 4_194_304, 4_194_304;
    "max_return_bytes": 1..=100_000_000, 4_194_304, 4_194_304;
    "max_promises": 0..=10_000, 1024, 1024;
    "load_base": 0..=1_000_000_000_000, 0, 100;
    "load_byte": 0..=1_000_000_000_000, 0, 1;
    "host_base": 0..=1_000_000_000_000, 0, 10;
    "host_byte": 0..=1_000_000_000_000, 0, 1;
    "storage_base": 0..=1_000_000_000_000, 0, 50;
    "storage_byte": 0..=1_000_000_000_000, 0, 2;
    "sha_base": 0..=1_000_000_000_000, 0, 20;
    "sha_byte": 0..=1_000_000_000_000, 0, 1;
    fees
    "action_receipt": 10;
    "data_base": 10;
    "data_byte": 1;
    "create_account": 10;
    "deploy_base": 10;
    "deploy_byte": 1;
    "call_base": 10;
    "call_byte": 1;
    "transfer": 10;
    "add_full_key": 10;
    "add_call_key_base": 10;
    "add_call_key_byte": 1;
    "delete_key": 10;
    "delete_account": 10;
};

/// The rows of all entries, in their order.
#[tactic(auto, unfolding(crate::specs::Table::table))]
pub(crate) fn rows() -> &'static [Row; ENTRIES]
    ensures { map row_of result.now ≡ table }
{
    &ROWS
}

/// What the rows have for the built-in configuration in which nothing costs.
pub(crate) fn free_numbers(rows: &[Row; ENTRIES]) -> [u64; ENTRIES]
    ensures { result ≡ map (λ r. r.free) rows.now }
{
    let mut numbers = [0; ENTRIES];
    for (i, row) in rows.iter().enumerate() {
        numbers[i] = row.free;
    }
    numbers
}

/// What the rows have for the built-in configuration of generated chains.
pub(crate) fn generated_numbers(rows: &[Row; ENTRIES]) -> [u64; ENTRIES]
    ensures { result ≡ map (λ r. r.generated) rows.now }
{
    let mut numbers = [0; ENTRIES];
    for (i, row) in rows.iter().enumerate() {
        numbers[i] = row.generated;
    }
    numbers
}
