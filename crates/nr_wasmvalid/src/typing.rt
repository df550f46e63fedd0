//! The typing of a body.

ghost use Rattle.std.specs.Prelude.{ℕ, [], Ok, Err};
ghost use Rattle.nr_bytes.specs.Answers.{Gives};
ghost use Rattle.nr_wasmtypes.specs.Code.{code_of};
ghost use Rattle.nr_wasmvalid.specs.Faults.{fault_at};
ghost use Rattle.nr_wasmvalid.specs.Frames.{in_scope};
ghost use Rattle.nr_wasmvalid.specs.Typing.{IsTyped, IsBreach};
ghost use Rattle.nr_wasmvalid.specs.Verdict.{Verdict};
ghost use Rattle.nr_wasmvalid.specs.declared.refusal.Refusal.{Refusal};
ghost use Rattle.nr_wasmvalid.specs.declared.refusal.BodyFault.TheVariants.{Memory};

use crate::body::check_body;
use crate::plain::Scope;
use crate::refusal::BodyFault;
use crate::stacks::Stacks;
use nr_wasmtypes::Instr;

/// Checks that a function's body has the function's type. Answers the first breach, with the number
/// of its instruction.
#[tactic(auto, using(crate::proofs::Verdicts::verdict, crate::proofs::Verdicts::gives_typed, crate::proofs::Verdicts::gives_breach))]
pub(crate) fn check_typing(
    scope: &Scope<'_>,
    stacks: &mut Stacks,
    code: &Vec<Instr>,
) -> Result<(), BodyFault>
    // What passes is typed, and any other answer is the first breach.
    ensures verdict { Verdict (in_scope scope.now []) (code_of code.now.items) result }
    // What is typed passes.
    ensures typed { IsTyped (in_scope scope.now []) (code_of code.now.items) → Gives Memory result (Ok tt) }
    // There is no other first breach.
    ensures breach { (place : ℕ) (kind : Refusal) → IsBreach (in_scope scope.now []) (code_of code.now.items) place kind
        → Gives Memory result (Err (fault_at place kind)) }
{
    check_body(scope, stacks, code)
}
