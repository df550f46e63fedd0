//! What the answers of a port come to.

ghost use Rattle.nr_exchange.specs.Ports.{MarksLook, TriesLook};

use crate::planned::Planned;

/// A call of `Port::try_take` or `Port::has_abandoned` loads the published word of the shard that it names once: the
/// port's count of loads of that word rises by one. The number that was seen never falls, and a mark that was seen
/// stays seen. It does nothing when it runs.
pub fn look_law<P: Planned>()
    ensures tries { TriesLook P P.Parcel }
    ensures marks { MarksLook P }
{}
