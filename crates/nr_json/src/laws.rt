//! What holds of genesis and blocks files.

ghost use Rattle.std.specs.Prelude.{◌≡◌, Ok};
ghost use Rattle.nr_json.specs.ChainFiles.{stated_json, stated_of};
ghost use Rattle.nr_json.specs.FitsFiles.{FitsGenesis, FitsStated};
ghost use Rattle.nr_json.specs.Genesis.{genesis_json, genesis_of};
ghost use Rattle.nr_json.specs.declared.chain_file.StatedBlocks.{StatedBlocks};
ghost use Rattle.nr_json.specs.declared.genesis.StatedGenesis.{StatedGenesis};

/// What holds of the JSON forms of files. It does nothing when it runs.
#[tactic(auto, using(crate::proofs::ChainLaws::stated_law, crate::proofs::FileLaws::genesis_law))]
pub fn form_laws()
    // What stands for the blocks of a chain is read as these blocks.
    ensures blocks { (file : StatedBlocks) → FitsStated file → stated_of (stated_json file) ≡ Ok file }
    // What stands for the first state of a chain is read as this state.
    ensures genesis { (g : StatedGenesis) → FitsGenesis g → genesis_of (genesis_json g) ≡ Ok g }
{}
