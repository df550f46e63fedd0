//! What the output is written to: the trait, and the fault of a write.

ghost use Rattle.std.specs.Prelude.{◌≤◌, ◌<◌, IfOk, OnErr, length};
ghost use Rattle.nr_bytes.specs.Outside.{Takes, Rose};

/// A sink took nothing, and its count of faults rose.
#[derive(Clone, Copy, Debug, PartialEq, Eq)]
pub struct WriteFailed;

/// What takes the bytes that a program writes.
pub trait Sink {
    ghost use Rattle.std.specs.Prelude.{ℕ, List, Option};

    /// The bytes that it took, where it tells them.
    ghost taken: { Self → Option (List ℕ) };

    /// How often it failed, from 0 to 2^64 - 1, where it stays.
    ghost faults: { Self → ℕ };

    /// Takes the front of a piece that is not empty, and answers how many bytes, at least 1.
    ///
    /// # Errors
    ///
    /// `WriteFailed` only where the count of faults rose; then nothing was taken.
    fn write(&mut self, piece: &[u8]) -> Result<usize, WriteFailed>
        requires { 0 < length piece.now }
        ensures some { IfOk result (λ n. (0 < n) × (n ≤ length piece.now)) }
        ensures takes { Takes result (taken self.old) (taken self.new) piece.now }
        ensures failed { OnErr result (Rose (faults self.old) (faults self.new)) }
        ensures rises { faults self.old ≤ faults self.new };
}
