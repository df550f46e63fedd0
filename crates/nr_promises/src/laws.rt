//! What holds of every book of promises.

ghost use Rattle.std.specs.Prelude.{◌≡◌, ℕ, ◌+◌, ◌*◌, List, Ok, length, sum_by};
ghost use Rattle.std.specs.List.{AllByRecursion, flat_map};
ghost use Rattle.nr_config.specs.Config.{Config};
ghost use Rattle.nr_fees.specs.Fees.{deposit_of};
ghost use Rattle.nr_ids.specs.declared.key.Hash32.{Hash32};
ghost use Rattle.nr_promises.specs.Book.{IsBook, new_book, create, then, join, act, receipt_of, actions_of_receipt};
ghost use Rattle.nr_promises.specs.Keeping.{Adds, receipt_gas, action_gas};
ghost use Rattle.nr_promises.specs.declared.contents.Book.{Book};
ghost use Rattle.nr_records.specs.declared.action.Action.{Action};
ghost use Rattle.nr_state.specs.Calls.{IsMade, IsReturned, made_gas};
ghost use Rattle.nr_state.specs.declared.calls.CallContext.{CallContext};
ghost use Rattle.nr_state.specs.declared.calls.Returned.TheVariants.{Promise};

/// What the calls of a book add to the prepaid gas and to the tokens of the receipts made, and what
/// a call of a contract promises of its receipts. It does nothing when it runs.
pub fn promise_laws()
    ensures begun { (current : List ℕ) (x : CallContext) (c : Config) → IsBook (new_book current x c) }
    ensures created { (c : Config) (b d : Book) (receiver : List ℕ) (index : ℕ)
        → create b receiver ≡ Ok (d, index) → Adds c b d (receipt_gas c) 0 }
    ensures chained { (c : Config) (b d : Book) (after : ℕ) (receiver : List ℕ) (index : ℕ)
        → then b after receiver ≡ Ok (d, index) → Adds c b d (receipt_gas c) 0 }
    ensures joined { (c : Config) (b d : Book) (indices : List ℕ) (index : ℕ)
        → join b indices ≡ Ok (d, index) → Adds c b d 0 0 }
    ensures acted { (c : Config) (b d : Book) (index : ℕ) (action : Action)
        → IsBook b → act b index action ≡ Ok d → Adds c b d (action_gas c action) (deposit_of action) }
    // The prepaid gas of the receipts made is that of each receipt, and that of each action in them.
    ensures gas { (c : Config) (b : Book) → IsBook b
        → made_gas c b.made ≡ length b.made * receipt_gas c + sum_by (action_gas c)
        (flat_map actions_of_receipt b.made) }
    // The receipts made are action receipts of the account at the call's gas price.
    ensures made { (x : CallContext) (b : Book) → IsBook b → b.origin.current ≡ x.current → b.origin.gas_price
        ≡ x.gas_price
        → AllByRecursion (IsMade x) b.made }
    // What a promise of one receipt stands for is among the receipts made.
    ensures returned { (b : Book) (index : ℕ) (id : Hash32) → IsBook b → receipt_of b index ≡ Ok id
        → IsReturned b.made (Promise id) }
{}
