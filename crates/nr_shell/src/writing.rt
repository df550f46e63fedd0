//! The writing of what a command answers.

ghost use Rattle.std.specs.Prelude.{OnOk, OnErr};
ghost use Rattle.nr_bytes.specs.Outside.{Grew, Rose};
ghost use Rattle.nr_shell.specs.Writing.{GrewInPart};

use nr_bytes::{Sink, WriteFailed};

/// Writes a text whole, or a front of it.
///
/// # Errors
///
/// `WriteFailed` where the sink failed.
pub fn write_all<K: Sink>(sink: &mut K, text: &[u8]) -> Result<(), WriteFailed>
    ensures ok { OnOk result (Grew (K.taken sink.old) (K.taken sink.new) text.now) }
    ensures err { OnErr result (GrewInPart (K.taken sink.old) (K.taken sink.new) text.now) }
    // A fault comes only where a count rose.
    ensures failed { OnErr result (Rose (K.faults sink.old) (K.faults sink.new)) }
{
    let mut rest = text;
    while !rest.is_empty() {
        let count = sink.write(rest)?;
        rest = &rest[count..];
    }
    Ok(())
}
