//! Instructions that are lent, which contracts see as a sequence.

use nr_wasmtypes::Instr;
use std::marker::Model;

/// Instructions that are lent.
#[derive(Drop)]
pub struct Rest<'a> {
    code: &'a [Instr],
}

impl<'a> Model for Rest<'a> {
    ghost use Rattle.nr_wasmtypes.specs.Code.{Code};

    ghost Value = { Code };

    ghost use Rattle.std.specs.Coded.{codes};
    ghost use Rattle.nr_wasmtypes.specs.Coding.{coded_code};
    ghost use Rattle.nr_wasmtypes.specs.contracts.instr.Plain as plain_type;
    ghost use Rattle.nr_wasmtypes.specs.contracts.instr.ValType as val_type;

    ghost coded = { Prim.hlevel (codes, coded_code, plain_type.the_row.coded, val_type.the_row.coded) };

    ghost use Rattle.nr_wasmtypes.specs.Code.{code_of};

    ghost view = { λ r. code_of r.code.now };
}

impl<'a> Rest<'a> {
    ghost use Rattle.std.specs.Prelude.{◌≡◌};
    ghost use Rattle.nr_wasmtypes.specs.Code.{code_of};

    /// These instructions.
    pub fn of(code: &'a [Instr]) -> Rest<'a>
        ensures { result ≡ code_of code.now }
    {
        Rest { code }
    }

    /// The instructions.
    pub fn lent(&self) -> &'a [Instr]
        ensures { code_of result.now ≡ self.now }
    {
        self.code
    }
}
