//! What threads may hold and share.

ghost use Rattle.std.specs.Thread.{IsSend, IsSync};

use crate::ContractCaller;
use crate::keeping::{Kept, KeptModules};
use nr_bytes::List;
use nr_wasmtypes::{FuncBody, Module};
use nr_wasmvalid::Valid;

fn is_send_and_sync<T: Send + Sync>()
    ensures send { IsSend T.row }
    ensures sync { IsSync T.row }
{}

// Each rests on those before.
fn _callers() {
    is_send_and_sync::<List<FuncBody>>();
    is_send_and_sync::<Module>();
    is_send_and_sync::<Valid>();
    is_send_and_sync::<Kept>();
    is_send_and_sync::<KeptModules>();
    is_send_and_sync::<ContractCaller>();
}
