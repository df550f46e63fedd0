//! Blocks.

ghost use Rattle.std.specs.Prelude.{◌≡◌};
ghost use Rattle.nr_bytes.specs.Answers.{Gives};
ghost use Rattle.nr_blocks.specs.Judging.{each};
ghost use Rattle.nr_json.specs.Blocks.{block_json, block_of, version_json, version_numbered, version_of};
ghost use Rattle.nr_json.specs.Blocks.{stated_version, version_of_price, version_by, price_in, has_price, file_in};
ghost use Rattle.nr_json.specs.Blocks.{blocks_json, blocks_of};
ghost use Rattle.nr_json.specs.declared.fault.JsonFault.TheVariants.{Memory};

use crate::fault::{JsonFault, Wrong};
use crate::form::{Form, member, optional, put, put_optional};
use nr_blocks::{Block, BlocksFile, Version};
use nr_bytes::List;
use nr_ids::Height;
use serde_json::{Map, Value};
use std::alloc::{AllocError, Global};

impl Form for Block {
    ghost json = { block_json };

    ghost reading = { block_of };

    #[tactic(auto, unfolding(crate::specs::Blocks::block_of))]
    fn from_json(alloc: Global, value: &Value) -> Result<Block, JsonFault> {
        let height = member(alloc, value, "height")?;
        let timestamp = member(alloc, value, "timestamp")?;
        let price = optional(alloc, value, "price")?;
        let chunks = member(alloc, value, "chunks")?;
        Ok(Block {
            height: Height(height),
            timestamp,
            price,
            chunks,
        })
    }

    fn to_json(&self, alloc: Global) -> Result<Value, AllocError> {
        let mut object = Map::new(alloc);
        put(&mut object, alloc, "height", &self.height.0)?;
        put(&mut object, alloc, "timestamp", &self.timestamp)?;
        put(&mut object, alloc, "chunks", &self.chunks)?;
        put_optional(&mut object, alloc, "price", &self.price)?;
        Ok(Value::from(object))
    }
}

fn version_numbered(number: u64) -> Option<Version>
    ensures { result ≡ version_numbered number }
{
    if number == 1 {
        Some(Version::One)
    } else if number == 2 {
        Some(Version::Two)
    } else {
        None
    }
}

impl Form for Version {
    ghost json = { version_json };

    ghost reading = { version_of };

    fn from_json(alloc: Global, value: &Value) -> Result<Version, JsonFault> {
        match value.as_u64().and_then(version_numbered) {
            Some(version) => Ok(version),
            None => Err(JsonFault::whole(alloc, Wrong::NoVersion)),
        }
    }

    fn to_json(&self, _alloc: Global) -> Result<Value, AllocError> {
        match self {
            Version::One => Ok(Value::from(1u64)),
            Version::Two => Ok(Value::from(2u64)),
        }
    }
}

fn stated_version(version: Version) -> Option<Version>
    ensures { result ≡ stated_version version }
{
    match version {
        Version::One => None,
        Version::Two => Some(Version::Two),
    }
}

fn version_of_price(price: Option<u64>) -> Version
    ensures { result ≡ version_of_price price }
{
    match price {
        Some(_) => Version::Two,
        None => Version::One,
    }
}

/// The version that is stated, or that the first block shows.
fn version_by(stated: Option<Version>, blocks: &[Block]) -> Version
    ensures { result ≡ version_by stated blocks.now }
{
    match stated {
        Some(version) => version,
        None => match blocks.first() {
            Some(block) => version_of_price(block.price),
            None => Version::One,
        },
    }
}

fn price_in(alloc: Global, version: Version, price: Option<u64>) -> Result<(), JsonFault>
    ensures { result ≡ price_in version price }
{
    match (version, price) {
        (Version::One, None) => Ok(()),
        (Version::One, Some(_)) => Err(JsonFault::whole(alloc, Wrong::NoPrice)),
        (Version::Two, None) => Err(JsonFault::whole(alloc, Wrong::Missing)),
        (Version::Two, Some(_)) => Ok(()),
    }
}

fn has_price(alloc: Global, version: Version, number: usize, block: &Block) -> Result<(), JsonFault>
    ensures { Gives Memory result (has_price version number block.now) }
{
    match price_in(alloc, version, block.price) {
        Ok(()) => Ok(()),
        Err(fault) => {
            let of_block = fault.in_member(alloc, "price");
            let of_list = of_block.in_item(alloc, number);
            Err(of_list.in_member(alloc, "blocks"))
        }
    }
}

/// Each block has a price exactly where the version has one.
#[tactic(auto, using(nr_blocks::proofs::Turns::each_begins, nr_blocks::proofs::Turns::each_ends))]
pub(crate) fn all_have_price(
    alloc: Global,
    version: Version,
    blocks: &[Block],
) -> Result<(), JsonFault>
    ensures { Gives Memory result (each (has_price version) blocks.now) }
{
    for number in 0..blocks.len() {
        has_price(alloc, version, number, &blocks[number])?;
    }
    Ok(())
}

#[tactic(auto, unfolding(crate::specs::Blocks::file_in))]
fn file_in(alloc: Global, version: Version, blocks: List<Block>) -> Result<BlocksFile, JsonFault>
    ensures { Gives Memory result (file_in version blocks) }
{
    all_have_price(alloc, version, blocks.inner())?;
    Ok(BlocksFile { version, blocks })
}

impl Form for BlocksFile {
    ghost json = { blocks_json };

    ghost reading = { blocks_of };

    #[tactic(auto, unfolding(crate::specs::Blocks::blocks_of))]
    fn from_json(alloc: Global, value: &Value) -> Result<BlocksFile, JsonFault> {
        let stated = optional(alloc, value, "version")?;
        let blocks: List<Block> = member(alloc, value, "blocks")?;
        let version = version_by(stated, blocks.inner());
        file_in(alloc, version, blocks)
    }

    fn to_json(&self, alloc: Global) -> Result<Value, AllocError> {
        let mut object = Map::new(alloc);
        put(&mut object, alloc, "blocks", &self.blocks)?;
        put_optional(&mut object, alloc, "version", &stated_version(self.version))?;
        Ok(Value::from(object))
    }
}
