//! Actions of receipts that promises stand for.

ghost use Rattle.std.specs.Prelude.{◌≡◌, ◌<◌, length, OnOk, OnErr};
ghost use Rattle.nr_bytes.specs.Answers.{GivesAs};
ghost use Rattle.nr_promises.specs.Book.{body_actions, body_with_action, with_action, changed, count_at, act, IsBook};
ghost use Rattle.nr_promises.specs.declared.fault.PromiseFault.TheVariants.{Memory};

use crate::contents::{Book, place_of};
use crate::fault::PromiseFault;
use nr_bytes::List;
use nr_records::{Action, Body, Receipt};
use std::alloc::AllocError;

fn count_in(body: &Body) -> usize
    ensures { result ≡ length (body_actions body.now) }
{
    match body {
        Body::Act(act) => act.actions.inner().len(),
        Body::Datum(_) => 0,
    }
}

/// How many actions the receipt at this place has.
pub(crate) fn count_at(made: &[Receipt], at: usize) -> usize
    requires { at < length made.now }
    ensures { result ≡ count_at made.now at }
{
    count_in(&made[at].body)
}

fn append_action(body: &mut Body, action: Action) -> Result<(), AllocError>
    ensures added { OnOk result (body.new ≡ body_with_action action body.old) }
    ensures refused { OnErr result (body.new ≡ body.old) }
{
    match body {
        Body::Act(act) => {
            act.actions.vec_mut().push(action)?;
            Ok(())
        }
        Body::Datum(_) => Ok(()),
    }
}

fn add_action(made: &mut List<Receipt>, at: usize, action: Action) -> Result<(), AllocError>
    requires { at < length made.old }
    ensures added { OnOk result (made.new ≡ changed (with_action action) made.old at) }
    ensures refused { OnErr result (made.new ≡ made.old) }
{
    append_action(&mut made.vec_mut()[at].body, action)?;
    Ok(())
}

/// Gives the receipt that a promise stands for one more action, behind those that it has.
pub(crate) fn act(book: &mut Book, index: u64, action: Action) -> Result<(), PromiseFault>
    requires { IsBook book.old }
    ensures gives { GivesAs Memory (λ done. book.new) result (act book.old index action) }
    ensures refused { OnErr result (book.new ≡ book.old) }
{
    let at = place_of(book, index)?;
    if count_at(book.made.inner(), at) as u64 >= book.max_actions {
        return Err(PromiseFault::TooManyActions);
    }
    add_action(&mut book.made, at, action)?;
    Ok(())
}
