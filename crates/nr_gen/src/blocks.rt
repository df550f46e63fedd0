//! The blocks of a generated chain.

ghost use Rattle.std.specs.Prelude.{◌≡◌, ◌<◌, ◌≤◌, length, IfOk};
ghost use Rattle.nr_gen.specs.Chain.{block_of, call_of, chunk_of, generated_blocks, signed_by, transaction_of};
ghost use Rattle.nr_gen.specs.Chain.{transfer_of};
ghost use Rattle.nr_gen.specs.Turns.{in_turn};

use crate::draws::draw;
use crate::genesis::USERS;
use crate::names::{contract_id, user_id, user_key};
use nr_blocks::Block;
use nr_bytes::{Blob, List, Text};
use nr_ids::{AccountId, Hash32, Height};
use nr_records::{Action, Transaction};
use std::alloc::{AllocError, Global};

/// Nanoseconds from a block to the next.
const INTERVAL: u64 = 1_000_000_000;

/// How many of a shard's users pay; the others call.
const PAYING: u32 = 6;

/// Gas for a call.
const CALL_GAS: u64 = 2_000_000;

/// Who signs: a user of a shard, with a nonce.
#[derive(Clone, Copy)]
struct Signer {
    shard: u32,
    user: u32,
    nonce: u64,
}

/// The transaction of one action that this user signs.
fn signed(
    alloc: Global,
    signer: Signer,
    receiver: AccountId,
    action: Action,
) -> Result<Transaction, AllocError>
    requires shard { signer.shard < 16 }
    requires user { signer.user < 8 }
    ensures { IfOk result (λ transaction. transaction
        ≡ signed_by signer.shard signer.user signer.nonce receiver action) }
{
    let mut actions = Vec::new(alloc);
    actions.push(action)?;
    Ok(Transaction {
        signer: user_id(alloc, signer.shard, signer.user)?,
        public_key: user_key(signer.shard, signer.user),
        nonce: signer.nonce,
        receiver,
        block_hash: Hash32([0; 32]),
        actions: List::of(actions),
    })
}

/// A transfer to a user of the target shard. The user and the amount are drawn.
#[tactic(auto, unfolding(crate::specs::Chain::transfer_of))]
fn transfer(
    alloc: Global,
    signer: Signer,
    target: u32,
    number: &mut u64,
) -> Result<Transaction, AllocError>
    requires shard { signer.shard < 16 }
    requires user { signer.user < 8 }
    requires target { target < 16 }
    ensures { IfOk result (λ transaction. (transaction, number.new)
        ≡ transfer_of signer.shard signer.nonce signer.user target number.old) }
{
    let friend = draw(number, u64::from(USERS)) as u32;
    let amount = draw(number, 1000);
    let receiver = user_id(alloc, target, friend)?;
    let deposit = 1 + u128::from(amount);
    signed(alloc, signer, receiver, Action::Transfer { deposit })
}

/// A call of the own shard's contract, with the id of the target shard's.
#[tactic(auto, unfolding(crate::specs::Chain::call_of))]
fn call(alloc: Global, signer: Signer, target: u32) -> Result<Transaction, AllocError>
    requires shard { signer.shard < 16 }
    requires user { signer.user < 8 }
    requires target { target < 16 }
    ensures { IfOk result (λ transaction. transaction ≡ call_of signer.shard signer.nonce signer.user target) }
{
    let other = contract_id(alloc, target)?;
    let action = Action::FunctionCall {
        method: Text::of(String::from_str(alloc, "send")?),
        args: Blob::of(Vec::from_slice(alloc, other.bytes())?),
        gas: CALL_GAS,
        deposit: 0,
    };
    let receiver = contract_id(alloc, signer.shard)?;
    signed(alloc, signer, receiver, action)
}

/// What the user signs, of so many shards.
#[tactic(auto, unfolding(crate::specs::Chain::transaction_of))]
fn transaction(
    alloc: Global,
    shards: u32,
    signer: Signer,
    number: &mut u64,
) -> Result<Transaction, AllocError>
    requires some { 0 < shards }
    requires few { shards ≤ 16 }
    requires shard { signer.shard < 16 }
    requires user { signer.user < 8 }
    ensures { IfOk result (λ transaction. (transaction, number.new)
        ≡ transaction_of shards signer.shard signer.nonce signer.user number.old) }
{
    let target = draw(number, u64::from(shards)) as u32;
    if signer.user < PAYING {
        transfer(alloc, signer, target, number)
    } else {
        call(alloc, signer, target)
    }
}

/// What each user of the shard signs, all with this nonce.
fn transactions(
    alloc: Global,
    shards: u32,
    shard: u32,
    nonce: u64,
    number: &mut u64,
) -> Result<List<Transaction>, AllocError>
    requires few { shards ≤ 16 }
    requires shard { shard < shards }
    ensures { IfOk result (λ list. (list, number.new) ≡ in_turn 8 (transaction_of shards shard nonce) number.old) }
{
    let mut list = Vec::new(alloc);
    for user in 0..USERS {
        let signer = Signer { shard, user, nonce };
        let transaction = transaction(alloc, shards, signer, number)?;
        list.push(transaction)?;
    }
    Ok(List::of(list))
}

/// The chunk of a shard, or nothing where it is missing. The nonces are those with which each
/// shard's users signed last.
#[tactic(auto, unfolding(crate::specs::Chain::chunk_of))]
fn chunk(
    alloc: Global,
    shards: u32,
    shard: u32,
    number: &mut u64,
    nonces: &mut Vec<u64>,
) -> Result<Option<List<Transaction>>, AllocError>
    requires few { shards ≤ 16 }
    requires shard { shard < shards }
    requires nonces { length nonces.old.items ≡ shards }
    ensures made { IfOk result (λ chunk. (chunk, (number.new, nonces.new.items))
        ≡ chunk_of shards shard (number.old, nonces.old.items)) }
    ensures nonces { length nonces.new.items ≡ shards }
{
    if draw(number, 16) == 0 {
        return Ok(None);
    }
    let nonce = nonces[shard as usize].checked_add(1).ok_or(AllocError)?;
    let list = transactions(alloc, shards, shard, nonce, number)?;
    nonces[shard as usize] = nonce;
    Ok(Some(list))
}

/// The chunks of a block, one for each shard.
fn chunks(
    alloc: Global,
    shards: u32,
    number: &mut u64,
    nonces: &mut Vec<u64>,
) -> Result<List<Option<List<Transaction>>>, AllocError>
    requires few { shards ≤ 16 }
    requires nonces { length nonces.old.items ≡ shards }
    ensures made { IfOk result (λ list. (list, (number.new, nonces.new.items))
        ≡ in_turn shards (chunk_of shards) (number.old, nonces.old.items)) }
    ensures nonces { length nonces.new.items ≡ shards }
{
    let mut list = Vec::new(alloc);
    for shard in 0..shards {
        let chunk = chunk(alloc, shards, shard, number, nonces)?;
        list.push(chunk)?;
    }
    Ok(List::of(list))
}

/// The block behind so many blocks.
#[tactic(auto, unfolding(crate::specs::Chain::block_of))]
fn block(
    alloc: Global,
    shards: u32,
    below: u64,
    number: &mut u64,
    nonces: &mut Vec<u64>,
) -> Result<Block, AllocError>
    requires few { shards ≤ 16 }
    requires below { below < 256 }
    requires nonces { length nonces.old.items ≡ shards }
    ensures made { IfOk result (λ block. (block, (number.new, nonces.new.items))
        ≡ block_of shards below (number.old, nonces.old.items)) }
    ensures nonces { length nonces.new.items ≡ shards }
{
    let height = below + 1;
    let chunks = chunks(alloc, shards, number, nonces)?;
    Ok(Block {
        height: Height(height),
        timestamp: height * INTERVAL,
        price: None,
        chunks,
    })
}

/// So many blocks of so many shards, from the number with which the draws begin.
#[tactic(auto, unfolding(crate::specs::Chain::generated_blocks))]
pub(crate) fn blocks_of(
    alloc: Global,
    start: u64,
    shards: u32,
    blocks: u64,
) -> Result<List<Block>, AllocError>
    requires few { shards ≤ 16 }
    requires blocks { blocks ≤ 256 }
    ensures { IfOk result (λ list. list ≡ generated_blocks start shards blocks) }
{
    let mut number = start;
    let mut nonces = vec![in alloc; 0; shards as usize]?;
    let mut list = Vec::new(alloc);
    for below in 0..blocks {
        let block = block(alloc, shards, below, &mut number, &mut nonces)?;
        list.push(block)?;
    }
    Ok(List::of(list))
}
