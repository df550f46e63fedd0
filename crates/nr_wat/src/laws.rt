//! What holds of the names of instructions.

ghost use Rattle.std.specs.Prelude.{◌≡◌, ℕ, List, Some, true};
ghost use Rattle.nr_wasmtypes.specs.Opcodes.{op_of};
ghost use Rattle.nr_wat.specs.Names.{has_name, name_of, opcode_named};

/// A name and an opcode tell each other. It does nothing when it runs.
pub fn names_law()
    // The opcode of an instruction's name is the instruction's own, so no two instructions have one name.
    ensures back { (byte : ℕ) → has_name (op_of byte) ≡ true → opcode_named (name_of (op_of byte)) ≡ Some byte }
    // What has an opcode by its name is an instruction's name.
    ensures named { (name : List ℕ) (byte : ℕ) → opcode_named name ≡ Some byte → name_of (op_of byte) ≡ name }
{}
