//! What holds of a run of one chain or of two legs. Each function here does nothing when it runs: its contract is the
//! law.

ghost use Rattle.std.specs.Prelude.{◌≡◌, ◌+◌, ◌^◌, ◌<◌, ◌≤◌, List, Some, length};
ghost use Rattle.std.specs.List.{AllByRecursion};
ghost use Rattle.nr_blocks.specs.BlocksFiles.{FitsPrice};
ghost use Rattle.nr_blocks.specs.declared.genesis.Genesis.{Genesis};
ghost use Rattle.nr_chunk.specs.Chain.{Chain, IsChain};
ghost use Rattle.nr_config.specs.Config.{Config};
ghost use Rattle.nr_course.specs.Course.{AreLegs, CanRun, CanTurn, Course, course, second};
ghost use Rattle.nr_course.specs.Totals.{AddsUp};
ghost use Rattle.nr_course.specs.declared.turn.Turn.{Turn};
ghost use Rattle.nr_overlap.specs.declared.position.Position.{Position};
ghost use Rattle.nr_places.specs.Totals.{nothing, plus, tally_at};
ghost use Rattle.nr_reshard.specs.Spellings.{CanReshard};
ghost use Rattle.nr_reshard.specs.declared.chain_file.ChainFile.{ChainFile};
ghost use Rattle.nr_reshard.specs.declared.reshard.Reshard.{Reshard};
ghost use Rattle.nr_state.specs.Calls.{Called};
ghost use Rattle.nr_state.specs.Local.{IsLocal};
ghost use Rattle.nr_state.specs.World.{World};
ghost use Rattle.nr_state.specs.declared.calls.CallContext.{CallContext};

/// Which runs there can be, and that all adds up in them.
pub fn course_laws()
    // That of a genesis and a file of blocks can run, where no chunk is missing at the change and calls look at nothing
    // but the current account.
    ensures can { (c : Config) (g : Genesis) (f : ChainFile) (call : World → CallContext → Called) → IsLocal call
        → ((r : Reshard) → f.reshard ≡ Some r → CanReshard (length g.layout + 1) f.blocks r)
        → length f.blocks < 2 ^ 64 → CanRun (course c g f call) }
    // The second leg is a chain.
    ensures second { (x : Chain) (t : Turn) → IsChain x → CanTurn x t → AllByRecursion FitsPrice t.blocks
        → length t.layout ≤ 15 → IsChain (second x t) }
    // At each moment tokens and receipts add up to what the first leg started with.
    ensures adds { (o : Course) → AreLegs o → CanRun o → AddsUp o }
    // Where nothing is past, all is what stands.
    ensures none { (x : Chain) (ps : List Position) → plus nothing (tally_at x ps) ≡ tally_at x ps }
{}
