//! A chunk with a postponed and a delayed receipt, gathered from its chain and run again from that alone. The files
//! and the lines are those of an independent program.

ghost use Rattle.std.specs.Prelude.{IfOk};
ghost use Rattle.nr_blocks.specs.Genesis.{IsSoundGenesis};

use crate::rechecking::text_of;
use nr_blocks::{Genesis, read_blocks, read_genesis};
use nr_bytes::Blob;
use nr_chunk::ChainRun;
use nr_config::Config;
use nr_contract::ContractCaller;
use nr_extract::extract;
use nr_gathered::{Gathered, read_gathered, write_gathered};
use nr_ids::ShardId;
use nr_overlap::{Core, Phases};
use nr_recheck::RecheckFault;
use sha2::{Digest, Sha256};
use std::alloc::{AllocError, Global};
use std::test::Fail;

/// As `free`, but a chunk stops at 1000 gas.
const CONFIG: &str = r#"{
    "gas_price": 0, "storage_price": 0, "chunk_gas_limit": 1000, "regular_op_cost": 1,
    "max_actions": 100, "max_prepaid_gas": 1000000000000000, "account_bytes": 100,
    "extra_record_bytes": 40, "top_level_min_len": 0, "delete_state_limit": 10000,
    "reward_numerator": 0, "reward_denominator": 100, "max_code": 4194304, "max_pages": 256,
    "max_call_depth": 1000, "max_stack_values": 100000, "max_registers": 100,
    "max_register_bytes": 4194304, "max_all_register_bytes": 16777216, "max_logs": 100,
    "max_log_bytes": 16384, "max_key_bytes": 2048, "max_value_bytes": 4194304,
    "max_return_bytes": 4194304, "max_promises": 1024, "load_base": 0, "load_byte": 0,
    "host_base": 0, "host_byte": 0, "storage_base": 0, "storage_byte": 0, "sha_base": 0,
    "sha_byte": 0, "action_receipt_send_local": 0, "action_receipt_send_remote": 0,
    "action_receipt_exec": 0, "data_base_send_local": 0, "data_base_send_remote": 0,
    "data_base_exec": 0, "data_byte_send_local": 0, "data_byte_send_remote": 0, "data_byte_exec": 0,
    "create_account_send_local": 0, "create_account_send_remote": 0, "create_account_exec": 0,
    "deploy_base_send_local": 0, "deploy_base_send_remote": 0, "deploy_base_exec": 0,
    "deploy_byte_send_local": 0, "deploy_byte_send_remote": 0, "deploy_byte_exec": 0,
    "call_base_send_local": 0, "call_base_send_remote": 0, "call_base_exec": 0,
    "call_byte_send_local": 0, "call_byte_send_remote": 0, "call_byte_exec": 0,
    "transfer_send_local": 0, "transfer_send_remote": 0, "transfer_exec": 0,
    "add_full_key_send_local": 0, "add_full_key_send_remote": 0, "add_full_key_exec": 0,
    "add_call_key_base_send_local": 0, "add_call_key_base_send_remote": 0,
    "add_call_key_base_exec": 0, "add_call_key_byte_send_local": 0,
    "add_call_key_byte_send_remote": 0, "add_call_key_byte_exec": 0, "delete_key_send_local": 0,
    "delete_key_send_remote": 0, "delete_key_exec": 0, "delete_account_send_local": 0,
    "delete_account_send_remote": 0, "delete_account_exec": 0
}"#;

/// Three shards: aa in the first, hh in the second and zz in the third have 1000 each, and a contract.
const GENESIS: [u8; 1324] = *b"\
    NRG1\x02\0\0\0\x02\0\0\0hh\x02\0\0\0pp\x08\0\0\0\0\x02\0\0\0aa\xe8\x03\0\0\0\0\0\0\0\0\0\0\0\0\0\0\0\0\0\
    \0\0\0\0\0\0\0\0\0\0\0\0\0\xba`-\xfd\xfd\x10A\xe5b\xfbL4\x19I\xeeB\xb3\xdfK\xad\x05\x94\xcd\x7f@N\x84(g\
    \x9f\xd9!\xc8\x02\0\0\0\0\0\0\x01\x02\0\0\0aa\x12\x02\0\0\0asm\x01\0\0\0\x01#\x04`\x08~~~~~~~~\x01~`\x02\
    ~~\x01~`\x09~~~~~~~~~\x01~`\0\0\x02P\x04\x03env\x0epromise_create\0\0\x03env\x0bpromise_and\0\x01\x03env\
    \x0cpromise_then\0\x02\x03env\x0epromise_result\0\x01\x03\x04\x03\x03\x03\x03\x05\x03\x01\0\x01\x07\x16\
    \x03\x05start\0\x04\x03end\0\x05\x04spin\0\x06\nd\x03I\0B\x02B\0B\x02B\x06B\0B\0B\x80\x01B\xe4\0\x10\0\
    \x1aB\x02B\x02B\x02B\x06B\0B\0B\x80\x01B\xe4\0\x10\0\x1aB\xc0\0B\x02\x10\x01B\x02B\x04B\x03B\nB\0B\0B\
    \x80\x01B\xe4\0\x10\x02\x1a\x01\x0b\x10\0B\0B\0\x10\x03\x1aB\x01B\x01\x10\x03\x1a\x0b\x07\0\x03@\x0c\0\
    \x0b\x0b\x0b\x87\x02\x01\0A\0\x0b\x80\x02hhzzaago\0\0end\0\0\0\0\0\0\0\0\0\0\0\0\0\0\0\0\0\0\0\0\0\0\0\0\
    \0\0\0\0\0\0\0\0\0\0\0\0\0\0\0\0\0\0\0\0\0\0\0\0\0\0\0\0\0\0\0\0\0\0\0\x01\0\0\0\0\0\0\0\0\0\0\0\0\0\0\0\
    \0\0\0\0\0\0\0\0\0\0\0\0\0\0\0\0\0\0\0\0\0\0\0\0\0\0\0\0\0\0\0\0\0\0\0\0\0\0\0\0\0\0\0\0\0\0\0\0\0\0\0\0\
    \0\0\0\0\0\0\0\0\0\0\0\0\0\0\0\0\0\0\0\0\0\0\0\0\0\0\0\0\0\0\0\0\0\0\0\0\0\0\0\0\0\0\0\0\0\0\0\0\0\0\0\0\
    \0\0\0\0\0\0\0\0\0\0\0\0\0\0\0\0\0\0\0\0\0\0\0\0\0\0\0\0\0\0\0\0\0\0\0\0\0\0\0\0\0\0\0\0\0\0\0\0\0\0\0\0\
    \0\0\0\0\0\0\0\0\0\0\0\0\0\x02\0\0\0hh\xe8\x03\0\0\0\0\0\0\0\0\0\0\0\0\0\0\0\0\0\0\0\0\0\0\0\0\0\0\0\0\0\
    \0\xb9/\xd8M\x0b@\xd1\xdeg,\xd8\xaa\xef\xdce\xdb\xae\x12\x11\xe9\xea\xd9\xb6\x168\x8c4JT\xe3\xcd>\xd6\
    \x01\0\0\0\0\0\0\x01\x02\0\0\0hhr\x01\0\0\0asm\x01\0\0\0\x01\x10\x02`\x08~~~~~~~~\x01~`\0\0\x02\x16\x01\
    \x03env\x0epromise_create\0\0\x03\x03\x02\x01\x01\x05\x03\x01\0\x01\x07\x0c\x02\x02go\0\x01\x03far\0\x02\
    \n\x1c\x02\x02\0\x0b\x17\0B\x02B\0B\x04B\x02B\0B\0B\x80\x01B\xe8\x07\x10\0\x1a\x0b\x0b\x87\x02\x01\0A\0\
    \x0b\x80\x02aaspin\0\0\0\0\0\0\0\0\0\0\0\0\0\0\0\0\0\0\0\0\0\0\0\0\0\0\0\0\0\0\0\0\0\0\0\0\0\0\0\0\0\0\0\
    \0\0\0\0\0\0\0\0\0\0\0\0\0\0\0\0\0\0\0\0\0\0\0\0\0\0\0\0\0\0\0\0\0\0\0\0\0\0\0\0\0\0\0\0\0\0\0\0\0\0\0\0\
    \0\0\0\0\0\0\0\0\0\0\0\0\0\0\0\0\0\0\0\0\0\0\0\0\0\0\0\0\0\0\0\0\0\0\0\0\0\0\0\0\0\0\0\0\0\0\0\0\0\0\0\0\
    \0\0\0\0\0\0\0\0\0\0\0\0\0\0\0\0\0\0\0\0\0\0\0\0\0\0\0\0\0\0\0\0\0\0\0\0\0\0\0\0\0\0\0\0\0\0\0\0\0\0\0\0\
    \0\0\0\0\0\0\0\0\0\0\0\0\0\0\0\0\0\0\0\0\0\0\0\0\0\0\0\0\0\0\0\0\0\0\0\0\0\0\0\0\0\0\0\0\0\0\0\0\0\0\0\0\
    \x02\0\0\0zz\xe8\x03\0\0\0\0\0\0\0\0\0\0\0\0\0\0\0\0\0\0\0\0\0\0\0\0\0\0\0\0\0\0\x8cl\xee``\x0e=\xad\xdd\
    \xeb?c79\xab\n,t[f\0o5\xb4\xb0\xf9\x98O3D\xf9{\xd6\0\0\0\0\0\0\0\x01\x02\0\0\0zz \0\0\0\0asm\x01\0\0\0\
    \x01\x04\x01`\0\0\x03\x02\x01\0\x07\x06\x01\x02go\0\0\n\x04\x01\x02\0\x0b\x02\x02\0\0\0aa\0\x01\x01\x01\
    \x01\x01\x01\x01\x01\x01\x01\x01\x01\x01\x01\x01\x01\x01\x01\x01\x01\x01\x01\x01\x01\x01\x01\x01\x01\x01\
    \x01\x01\x01\0\0\0\0\0\0\0\0\x01\x02\x02\0\0\0zz\0\x01\x01\x01\x01\x01\x01\x01\x01\x01\x01\x01\x01\x01\
    \x01\x01\x01\x01\x01\x01\x01\x01\x01\x01\x01\x01\x01\x01\x01\x01\x01\x01\x01\0\0\0\0\0\0\0\0\x01\
";

/// In block 1 aa calls itself: that calls hh and zz, and itself with what both give. There zz calls hh too, which
/// calls aa with 1000 gas, so that what zz gives waits for the chunk at height 4. Four empty blocks follow.
const BLOCKS: [u8; 435] = *b"\
    NRB1\x05\0\0\0\x01\0\0\0\0\0\0\0\0\0\0\0\0\0\0\0\x03\0\0\0\x01\x01\0\0\0\x02\0\0\0aa\0\x01\x01\x01\x01\
    \x01\x01\x01\x01\x01\x01\x01\x01\x01\x01\x01\x01\x01\x01\x01\x01\x01\x01\x01\x01\x01\x01\x01\x01\x01\x01\
    \x01\x01\x01\0\0\0\0\0\0\0\x02\0\0\0aa\0\0\0\0\0\0\0\0\0\0\0\0\0\0\0\0\0\0\0\0\0\0\0\0\0\0\0\0\0\0\0\0\
    \x01\0\0\0\x02\x05\0\0\0start\0\0\0\0\x84\x03\0\0\0\0\0\0\0\0\0\0\0\0\0\0\0\0\0\0\0\0\0\0\x01\0\0\0\0\
    \x01\x01\0\0\0\x02\0\0\0zz\0\x01\x01\x01\x01\x01\x01\x01\x01\x01\x01\x01\x01\x01\x01\x01\x01\x01\x01\x01\
    \x01\x01\x01\x01\x01\x01\x01\x01\x01\x01\x01\x01\x01\x01\0\0\0\0\0\0\0\x02\0\0\0hh\0\0\0\0\0\0\0\0\0\0\0\
    \0\0\0\0\0\0\0\0\0\0\0\0\0\0\0\0\0\0\0\0\0\x01\0\0\0\x02\x03\0\0\0far\0\0\0\0l\x07\0\0\0\0\0\0\0\0\0\0\0\
    \0\0\0\0\0\0\0\0\0\0\0\x02\0\0\0\0\0\0\0\0\0\0\0\0\0\0\0\x03\0\0\0\x01\0\0\0\0\x01\0\0\0\0\x01\0\0\0\0\
    \x03\0\0\0\0\0\0\0\0\0\0\0\0\0\0\0\x03\0\0\0\x01\0\0\0\0\x01\0\0\0\0\x01\0\0\0\0\x04\0\0\0\0\0\0\0\0\0\0\
    \0\0\0\0\0\x03\0\0\0\x01\0\0\0\0\x01\0\0\0\0\x01\0\0\0\0\x05\0\0\0\0\0\0\0\0\0\0\0\0\0\0\0\x03\0\0\0\x01\
    \0\0\0\0\x01\0\0\0\0\x01\0\0\0\0\
";

/// The SHA-256 of the file that is gathered for the first shard's chunk at height 4.
const DIGEST: [u8; 32] = *b"\
    \x89\xd9/\xab\x9a\xc2\x8eI\xd2P<\xec'\xd3\xcb\xa4\x82-\xc7\x0d,\xde\xb6\x86\xe2\x86\x19D\x8b\xf4N\xfc\
";

/// What a run of the whole chain writes of that chunk.
const TEXT: &str = "\
    chunk 4 0 6678d3ac5e29d8759c9336360f7a2d82f53adb8d358c62477e86307a53257eca 8 0\n\
    data 72ccc26a48687b88e8ad43b8f10c768f7216f7c0adb90c25d35d179c2f59c91b\n\
    run fb1bb534bf811b074b6f058fcb84bed73d0f88574fa3358923cafafb988fc7b4 value - 8 0\n\
";

fn config(alloc: Global) -> Result<Config, AllocError> {
    Config::read(alloc, CONFIG.as_bytes()).map_err(|_| AllocError)
}

fn genesis(alloc: Global, config: &Config) -> Result<Genesis, AllocError>
    ensures { IfOk result (IsSoundGenesis config.now) }
{
    let Ok(genesis) = read_genesis(alloc, &GENESIS, config) else {
        return Err(AllocError);
    };
    Ok(genesis)
}

/// The chain before its first chunk.
fn chain(alloc: Global, config: &Config) -> Result<ChainRun<ContractCaller>, AllocError> {
    let genesis = genesis(alloc, config)?;
    let caller = ContractCaller::new(config);
    let bytes = Vec::from_slice(alloc, &BLOCKS)?;
    let blocks = read_blocks(alloc, bytes, 3).map_err(|_| AllocError)?;
    Ok(ChainRun::new(*config, genesis, blocks, caller))
}

/// The first shard's chunk at height 4, with what it is run again from.
fn gathered(alloc: Global, chain: ChainRun<ContractCaller>) -> Result<Gathered, AllocError> {
    let core = Core::new(alloc, chain)?;
    if core.phases().shards() == 0 || core.phases().heights() < 4 {
        return Err(AllocError);
    }
    extract(alloc, core, ShardId(0), 3)
}

/// Its file.
fn file(alloc: Global, config: &Config) -> Result<Blob, AllocError> {
    let chunk = gathered(alloc, chain(alloc, config)?)?;
    let mut file = Blob::of(Vec::new(alloc));
    write_gathered(alloc, &chunk, &mut file)?;
    Ok(file)
}

/// The text of the chunk that a file holds, run again.
fn text_again(alloc: Global, config: Config, file: &Blob) -> Result<Blob, RecheckFault> {
    let chunk = read_gathered(alloc, file.inner()).map_err(|_| AllocError)?;
    text_of(alloc, config, chunk)
}

#[test]
fn a_callback_is_run_again(rt: HostRuntime) -> Result<(), Fail> {
    let alloc = rt.alloc();
    let config = config(alloc)?;
    let file = file(alloc, &config)?;
    assert_eq!(rt; Sha256::digest(file.inner()), DIGEST);
    let text = text_again(alloc, config, &file)?;
    assert_eq!(rt; text.inner(), TEXT.as_bytes());
    Ok(())
}
