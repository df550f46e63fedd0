//! Runs of generated chains. What they write is that of an independent program.

use crate::setting::{end_of, shelf_of};
use crate::worked;
use nr_top::Status;
use std::test::Fail;

/// What the run of one block of one shard writes.
const SMALLEST: &str = "gen 1 1 1\n\
     chunks 1\n\
     digest 9d933adcf3fde3e998b8b75cf0dd8b8a7ce599db999fbe3f0f6f3ec9cb98c878\n\
     total supply 9000000000000000000000000\n\
     total accounts 8999999999999999599960252\n\
     total receipts 400021548\n\
     total burnt 18200\n\
     total places 8 0 0 0 8\n";

/// What the run of two blocks of two shards writes.
const TWO_SHARDS: &str = "gen 4 2 2\n\
     chunks 4\n\
     digest 42902f6b814ea90e4c60d5847e8d9bb35df443706cfe8325d5433602e6281465\n\
     total supply 18000000000000000000000000\n\
     total accounts 17999999999999998407163183\n\
     total receipts 1575662417\n\
     total burnt 17174400\n\
     total places 44 16 0 0 28\n";

/// What the run of four blocks of four shards writes.
const FOUR_SHARDS: &str = "gen 9 4 4\n\
     chunks 15\n\
     digest 91b2f69b5debb9811a667eb512f024f98b1edb6b9727c3f46481619f0301608e\n\
     total supply 36000000000000000000000000\n\
     total accounts 35999999999999995654239782\n\
     total receipts 4166071218\n\
     total burnt 179689000\n\
     total places 220 135 8 0 77\n";

#[test]
fn generated_chains_are_run(rt: HostRuntime) -> Result<(), Fail> {
    let rows: [(&[&str], &str); 3] = [
        (&["gen", "1", "1", "1"], SMALLEST),
        (&["gen", "4", "2", "2"], TWO_SHARDS),
        (&["gen", "9", "4", "4"], FOUR_SHARDS),
    ];
    for (words, text) in rows {
        let shelf = shelf_of(rt.alloc(), worked::GENESIS, worked::TRANSFER, &[])?;
        let ended = end_of(rt.alloc(), words, shelf)?;
        assert_eq!(rt; ended.status, Status::Done);
        assert_eq!(rt; ended.sink.bytes(), text.as_bytes());
        assert!(rt; ended.asked(rt.alloc(), "None")?);
    }
    Ok(())
}
