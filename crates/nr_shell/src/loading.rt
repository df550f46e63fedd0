//! The loading of files.

ghost use Rattle.std.specs.Prelude.{◌≡◌, Bool, true};
ghost use Rattle.nr_shell.specs.Answers.{Follows, load_stop};
ghost use Rattle.nr_shell.specs.Plans.{file_plan};

use crate::stop::Stop;
use nr_bytes::{LoadFault, Shelf};
use std::alloc::Global;

/// Why a load stops that gave a fault.
fn load_stop<E: Drop>(fault: LoadFault, too_long: E) -> Stop<E>
    ensures { result ≡ load_stop fault too_long }
{
    match fault {
        LoadFault::Failed => Stop::Unread,
        LoadFault::TooLong => Stop::Refused(too_long),
        LoadFault::Memory => Stop::Memory,
    }
}

/// Loads a file of at most so many bytes.
///
/// # Errors
///
/// `Refused(too_long)` where the file is longer, `Unread` where it could not be read, and `Memory` where memory
/// ran out.
pub fn load<E: Drop, S: Shelf>(
    alloc: Global,
    name: &str,
    limit: usize,
    too_long: E,
    shelf: &mut S,
) -> Result<Vec<u8>, Stop<E>>
    // It follows the plan of a file, whatever says which statuses refuse, if this one does.
    ensures { (refuses : E → Bool) → refuses too_long ≡ true → Follows refuses (λ read. read.items)
        (S.held shelf.old) (S.held shelf.new) (S.asked shelf.old) (S.asked shelf.new)
        (S.faults shelf.old) (S.faults shelf.new) result (file_plan name.now limit too_long) }
{
    let mut bytes = Vec::new(alloc);
    match shelf.load(alloc, name, limit, &mut bytes) {
        Ok(()) => Ok(bytes),
        Err(fault) => Err(load_stop(fault, too_long)),
    }
}
