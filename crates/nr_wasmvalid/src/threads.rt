//! What threads may hold and share: the parts of a module.

use nr_wasmtypes::{Element, Export, FuncBody, FuncType, Import, Instr, Segment};

fn is_send_and_sync<T: Send + Sync>() {}

fn _code() {
    is_send_and_sync::<Instr>();
    is_send_and_sync::<FuncBody>();
}

fn _parts() {
    is_send_and_sync::<FuncType>();
    is_send_and_sync::<Import>();
    is_send_and_sync::<Export>();
    is_send_and_sync::<Element>();
    is_send_and_sync::<Segment>();
}
