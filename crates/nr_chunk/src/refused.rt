//! The line of a refused transaction.

ghost use Rattle.std.specs.Prelude.{◌≡◌};
ghost use Rattle.nr_chunk.specs.Refused.{refused};

use nr_ids::Hash32;
use nr_records::ChunkLine;
use nr_txconvert::TxFault;

fn with_numbers(hash: Hash32, number: u32, first: u128, second: u128) -> ChunkLine
    ensures { result ≡ ChunkLine.TxRefused hash number first second }
{
    ChunkLine::TxRefused {
        hash,
        number,
        first,
        second,
    }
}

/// The line of a refused transaction: the refusal's number, and its fields in order with zeros for
/// the rest.
pub(crate) fn line(hash: Hash32, fault: TxFault) -> ChunkLine
    ensures { result ≡ refused hash fault }
{
    match fault {
        TxFault::NoSigner => with_numbers(hash, 1, 0, 0),
        TxFault::NoKey => with_numbers(hash, 2, 0, 0),
        TxFault::Nonce { key, tx } => with_numbers(hash, 3, u128::from(key), u128::from(tx)),
        TxFault::TooManyActions => with_numbers(hash, 4, 0, 0),
        TxFault::GasTooLarge => with_numbers(hash, 5, 0, 0),
        TxFault::KeyForbids { part } => with_numbers(hash, 6, u128::from(part), 0),
        TxFault::CostOverflow => with_numbers(hash, 7, 0, 0),
        TxFault::Allowance { has, needs } => with_numbers(hash, 8, has, needs),
        TxFault::Balance { has, needs } => with_numbers(hash, 9, has, needs),
        TxFault::StorageStake { has, needs } => with_numbers(hash, 10, has, needs),
        TxFault::Memory => with_numbers(hash, 0, 0, 0),
    }
}
