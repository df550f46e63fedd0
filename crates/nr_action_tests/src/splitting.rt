//! The worlds of a genesis by some boundaries, laid out by others, are those of the same genesis
//! by the others.

ghost use Rattle.std.specs.List.{AllByRecursion};
ghost use Rattle.std.specs.Prelude.{IfOk};
ghost use Rattle.nr_blocks.specs.Genesis.{AreSoundEntries, IsSoundGenesis};
ghost use Rattle.nr_state.specs.FromEntries.{AreWholeEntries};

use nr_blocks::{Genesis, fill, read_genesis};
use nr_bytes::List;
use nr_columns::Entry;
use nr_config::Config;
use nr_ids::ShardId;
use nr_split::split_worlds;
use nr_store::PlainStore;
use std::alloc::{AllocError, Global};
use std::test::Fail;

/// Accounts aa and zz that have 1 and 2, in one shard.
const ONE: [u8; 170] = *b"\
    NRG1\0\0\0\0\x02\0\0\0\
    \0\x02\0\0\0aa\x01\0\0\0\0\0\0\0\0\0\0\0\0\0\0\0\0\0\0\0\0\0\0\0\0\0\0\0\0\0\0\0\
    \0\0\0\0\0\0\0\0\0\0\0\0\0\0\0\0\0\0\0\0\0\0\0\0\0\0\0\0\0\0\0\0d\0\0\0\0\0\0\0\
    \0\x02\0\0\0zz\x02\0\0\0\0\0\0\0\0\0\0\0\0\0\0\0\0\0\0\0\0\0\0\0\0\0\0\0\0\0\0\0\
    \0\0\0\0\0\0\0\0\0\0\0\0\0\0\0\0\0\0\0\0\0\0\0\0\0\0\0\0\0\0\0\0d\0\0\0\0\0\0\0\
";

/// The same in two shards, parted at `kk`.
const TWO: [u8; 176] = *b"\
    NRG1\x01\0\0\0\x02\0\0\0kk\x02\0\0\0\
    \0\x02\0\0\0aa\x01\0\0\0\0\0\0\0\0\0\0\0\0\0\0\0\0\0\0\0\0\0\0\0\0\0\0\0\0\0\0\0\
    \0\0\0\0\0\0\0\0\0\0\0\0\0\0\0\0\0\0\0\0\0\0\0\0\0\0\0\0\0\0\0\0d\0\0\0\0\0\0\0\
    \0\x02\0\0\0zz\x02\0\0\0\0\0\0\0\0\0\0\0\0\0\0\0\0\0\0\0\0\0\0\0\0\0\0\0\0\0\0\0\
    \0\0\0\0\0\0\0\0\0\0\0\0\0\0\0\0\0\0\0\0\0\0\0\0\0\0\0\0\0\0\0\0d\0\0\0\0\0\0\0\
";

/// The genesis of a file.
pub(crate) fn genesis(alloc: Global, config: &Config, bytes: &[u8]) -> Result<Genesis, AllocError>
    ensures { IfOk result (IsSoundGenesis config.now) }
{
    let Ok(genesis) = read_genesis(alloc, bytes, config) else {
        return Err(AllocError);
    };
    Ok(genesis)
}

/// The entries of a shard's first world.
fn world_of(
    alloc: Global,
    config: &Config,
    genesis: &Genesis,
    shard: u32,
) -> Result<List<Entry>, AllocError>
    requires { AreSoundEntries config.now genesis.now.entries }
    ensures { IfOk result AreWholeEntries }
{
    let state = fill(
        alloc,
        genesis,
        ShardId(shard),
        PlainStore::new(alloc),
        config,
    )?;
    state.entries()
}

fn one_of(alloc: Global, first: List<Entry>) -> Result<List<List<Entry>>, AllocError>
    requires { AreWholeEntries first }
    ensures { IfOk result (AllByRecursion AreWholeEntries) }
{
    let mut worlds = Vec::new(alloc);
    worlds.push(first)?;
    Ok(List::of(worlds))
}

fn two_of(
    alloc: Global,
    first: List<Entry>,
    second: List<Entry>,
) -> Result<List<List<Entry>>, AllocError>
    requires first { AreWholeEntries first }
    requires second { AreWholeEntries second }
    ensures { IfOk result (AllByRecursion AreWholeEntries) }
{
    let mut worlds = Vec::new(alloc);
    worlds.push(first)?;
    worlds.push(second)?;
    Ok(List::of(worlds))
}

#[test]
fn a_shard_is_parted(rt: HostRuntime) -> Result<(), Fail> {
    let alloc = rt.alloc();
    let config = Config::free();
    let one = genesis(alloc, &config, &ONE)?;
    let two = genesis(alloc, &config, &TWO)?;
    let whole = one_of(alloc, world_of(alloc, &config, &one, 0)?)?;
    let parted = split_worlds(alloc, &whole, &two.layout)?;
    assert!(rt; parted.inner().len() == 2);
    for shard in 0..2u32 {
        let want = world_of(alloc, &config, &two, shard)?;
        if let Some(found) = parted.inner().get(shard as usize) {
            assert!(rt; *found == want);
        }
    }
    Ok(())
}

#[test]
fn two_shards_are_joined(rt: HostRuntime) -> Result<(), Fail> {
    let alloc = rt.alloc();
    let config = Config::free();
    let one = genesis(alloc, &config, &ONE)?;
    let two = genesis(alloc, &config, &TWO)?;
    let first = world_of(alloc, &config, &two, 0)?;
    let second = world_of(alloc, &config, &two, 1)?;
    let apart = two_of(alloc, first, second)?;
    let joined = split_worlds(alloc, &apart, &one.layout)?;
    let want = world_of(alloc, &config, &one, 0)?;
    assert!(rt; joined.inner().len() == 1);
    if let Some(found) = joined.inner().first() {
        assert!(rt; *found == want);
        assert!(rt; found.inner().len() == 2);
    }
    Ok(())
}
