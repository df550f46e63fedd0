//! The words of a line.

ghost use Rattle.std.specs.Prelude.{◌≡◌, IfOk, string_bytes};
ghost use Rattle.nr_json.specs.Actions.{action_json};
ghost use Rattle.serde_json.specs.Written.{compact_text};

use nr_ids::AccountId;
use nr_json::Form;
use nr_records::Action;
use std::alloc::{AllocError, Global};

/// An account's id.
#[tactic(auto, using(nr_ids::proofs::Ids::text_id))]
pub(crate) fn id_word(id: &AccountId) -> &str
    ensures { result.now ≡ id.now }
{
    match str::from_utf8(id.bytes()) {
        Ok(word) => word,
        Err(_) => unreachable!(),
    }
}

/// An action as a JSON text without spaces between its parts.
pub(crate) fn action_word(alloc: Global, action: &Action) -> Result<String, AllocError>
    ensures { IfOk result (λ word. string_bytes word ≡ compact_text (action_json action.now)) }
{
    let value = action.to_json(alloc)?;
    let text = value.to_string(alloc)?;
    Ok(text)
}
