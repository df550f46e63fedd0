//! Blocks in a file of any version.

ghost use Rattle.std.specs.Prelude.{◌≡◌};
ghost use Rattle.nr_bytes.specs.Answers.{Gives};
ghost use Rattle.serde_json.specs.Data.{string};
ghost use Rattle.serde_json.specs.View.{view};
ghost use Rattle.nr_json.specs.ChainFiles.{is_third, is_three, layout_in, layout_of, plain_of, reshard_json};
ghost use Rattle.nr_json.specs.ChainFiles.{reshard_of, stated_json, stated_of, third_json, third_of, without_reshard};
ghost use Rattle.nr_json.specs.Lists.{list_json};
ghost use Rattle.nr_json.specs.declared.fault.JsonFault.TheVariants.{Memory};

use crate::block::all_have_price;
use crate::fault::{JsonFault, Wrong};
use crate::form::{Form, member, optional, put, put_optional};
use crate::lists::values_of;
use nr_blocks::{Block, BlocksFile, Version};
use nr_bytes::List;
use nr_ids::{AccountId, Height};
use nr_layout::Layout;
use nr_records::{RecordFault, decode, encode};
use nr_reshard::{ChainFile, Reshard};
use serde_json::{Map, Value};
use std::alloc::{AllocError, Global};

/// The boundaries that ids are.
#[tactic(auto, using(crate::proofs::ChainLaws::is_layout, crate::proofs::ChainLaws::no_layout))]
fn layout_in(alloc: Global, ids: &List<AccountId>) -> Result<Layout, JsonFault>
    ensures { Gives Memory result (layout_in ids.now) }
{
    let bytes = encode(alloc, ids)?;
    match decode::<Layout>(alloc, bytes.inner()) {
        Ok(layout) => Ok(layout),
        Err(RecordFault::Memory) => Err(JsonFault::Memory),
        Err(_) => Err(JsonFault::whole(alloc, Wrong::NoBoundaries)),
    }
}

impl Form for Layout {
    ghost json = { list_json string };

    ghost reading = { layout_of };

    #[tactic(auto, unfolding(crate::specs::ChainFiles::layout_of))]
    fn from_json(alloc: Global, value: &Value) -> Result<Layout, JsonFault> {
        let ids = List::<AccountId>::from_json(alloc, value)?;
        let layout = layout_in(alloc, &ids)?;
        Ok(layout)
    }

    fn to_json(&self, alloc: Global) -> Result<Value, AllocError> {
        Ok(Value::from(values_of(alloc, self.boundaries())?))
    }
}

impl Form for Reshard {
    ghost json = { reshard_json };

    ghost reading = { reshard_of };

    #[tactic(auto, unfolding(crate::specs::ChainFiles::reshard_of))]
    fn from_json(alloc: Global, value: &Value) -> Result<Reshard, JsonFault> {
        let height = member(alloc, value, "height")?;
        let layout = member(alloc, value, "boundaries")?;
        Ok(Reshard {
            height: Height(height),
            layout,
        })
    }

    fn to_json(&self, alloc: Global) -> Result<Value, AllocError> {
        let mut object = Map::new(alloc);
        put(&mut object, alloc, "height", &self.height.0)?;
        put(&mut object, alloc, "boundaries", &self.layout)?;
        Ok(Value::from(object))
    }
}

/// A file of the third version.
impl Form for ChainFile {
    ghost json = { third_json };

    ghost reading = { third_of };

    #[tactic(auto, unfolding(crate::specs::ChainFiles::third_of))]
    fn from_json(alloc: Global, value: &Value) -> Result<ChainFile, JsonFault> {
        let blocks: List<Block> = member(alloc, value, "blocks")?;
        all_have_price(alloc, Version::Two, blocks.inner())?;
        let reshard = optional(alloc, value, "reshard")?;
        Ok(ChainFile { reshard, blocks })
    }

    fn to_json(&self, alloc: Global) -> Result<Value, AllocError> {
        let mut object = Map::new(alloc);
        put(&mut object, alloc, "blocks", &self.blocks)?;
        put(&mut object, alloc, "version", &3u64)?;
        put_optional(&mut object, alloc, "reshard", &self.reshard)?;
        Ok(Value::from(object))
    }
}

/// The blocks of a chain, in a file of any version.
#[derive(Debug, Drop)]
pub enum StatedBlocks {
    /// Of version 1 or 2.
    Plain(BlocksFile),
    /// Of version 3.
    Third(ChainFile),
}

fn is_three(version: &Value) -> bool
    ensures { result ≡ is_three (view version.now) }
{
    match version.as_u64() {
        Some(number) => number == 3,
        None => false,
    }
}

fn is_third(value: &Value) -> bool
    ensures { result ≡ is_third (view value.now) }
{
    match value.get("version") {
        Some(version) => is_three(version),
        None => false,
    }
}

fn without_reshard(alloc: Global, value: &Value) -> Result<(), JsonFault>
    ensures { Gives Memory result (without_reshard (view value.now)) }
{
    match value.get("reshard") {
        Some(_) => Err(JsonFault::whole(alloc, Wrong::NoReshard).in_member(alloc, "reshard")),
        None => Ok(()),
    }
}

#[tactic(auto, unfolding(crate::specs::ChainFiles::plain_of))]
fn plain_of(alloc: Global, value: &Value) -> Result<StatedBlocks, JsonFault>
    ensures { Gives Memory result (plain_of (view value.now)) }
{
    let file = BlocksFile::from_json(alloc, value)?;
    without_reshard(alloc, value)?;
    Ok(StatedBlocks::Plain(file))
}

impl Form for StatedBlocks {
    ghost json = { stated_json };

    ghost reading = { stated_of };

    #[tactic(auto, unfolding(crate::specs::ChainFiles::stated_of))]
    fn from_json(alloc: Global, value: &Value) -> Result<StatedBlocks, JsonFault> {
        if !is_third(value) {
            return plain_of(alloc, value);
        }
        let file = ChainFile::from_json(alloc, value)?;
        Ok(StatedBlocks::Third(file))
    }

    fn to_json(&self, alloc: Global) -> Result<Value, AllocError> {
        match self {
            StatedBlocks::Plain(file) => file.to_json(alloc),
            StatedBlocks::Third(file) => file.to_json(alloc),
        }
    }
}
