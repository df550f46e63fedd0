//! What a module is that some bytes are, and how its work ended.

ghost use Rattle.std.specs.Prelude.{◌≡◌, IfOk, Ok};
ghost use Rattle.nr_config.specs.Config.{max_code};
ghost use Rattle.nr_wasmbin.specs.Modules.{decoded};
ghost use Rattle.nr_module.specs.Plans.{question_in};
ghost use Rattle.nr_module.specs.Verdicts.{IsVerdict};

use crate::question::Question;
use crate::running::answer;
use crate::verdict::Verdict;
use nr_wasmbin::{DecodeFault, decode};
use nr_wasmtypes::Module;
use nr_wasmvalid::{ValidFault, validate};
use std::alloc::{AllocError, Global};

/// What a module is that was decoded.
fn judge_module(
    alloc: Global,
    question: &Question<'_>,
    module: Module,
) -> Result<Verdict, AllocError>
    requires { decoded (max_code question.now.config) question.now.bytes.items ≡ Ok «module» }
    ensures { IfOk result (λ verdict. IsVerdict (question_in question.now) verdict) }
{
    match validate(alloc, module, &question.config) {
        Ok(valid) => {
            let answer = answer(
                alloc,
                valid,
                &question.config,
                &question.bytes,
                question.work,
            )?;
            Ok(Verdict::Done(answer))
        }
        Err(ValidFault::Memory) => Err(AllocError),
        Err(fault) => Ok(Verdict::Invalid(fault)),
    }
}

/// The verdict on the bytes of a file.
///
/// # Errors
///
/// Where memory runs out.
pub(crate) fn judge(alloc: Global, question: &Question<'_>) -> Result<Verdict, AllocError>
    ensures { IfOk result (λ verdict. IsVerdict (question_in question.now) verdict) }
{
    match decode(alloc, &question.bytes, &question.config) {
        Ok(module) => judge_module(alloc, question, module),
        Err(DecodeFault::Memory) => Err(AllocError),
        Err(fault) => Ok(Verdict::Undecoded(fault)),
    }
}
