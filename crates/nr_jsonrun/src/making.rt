//! The bytes that a JSON text describes.

ghost use Rattle.std.specs.Prelude.{◌≡◌};
ghost use Rattle.nr_files.specs.Answers.{NamesLast, output_in, refuses, stopped};
ghost use Rattle.nr_shell.specs.Answers.{Follows};
ghost use Rattle.nr_jsonrun.specs.Plans.{bytes_of, made};

use crate::stops::file_stop;
use nr_bytes::{Blob, Shelf};
use nr_config::Config;
use nr_files::{Halt, Output, Request, Work, with_config};
use std::alloc::Global;

/// The bytes that are written, and nothing of what isn't bytes.
fn bytes_of(alloc: Global, output: Output) -> Blob
    ensures { result ≡ bytes_of (output_in output) }
{
    match output {
        Output::Bytes(bytes) => bytes,
        Output::Json(_) => Blob::of(Vec::new(alloc)),
        Output::Compact(_) => Blob::of(Vec::new(alloc)),
    }
}

/// The bytes of the file that the text of a file describes, under a configuration.
///
/// # Errors
///
/// Why it stops, and at which file.
pub(crate) fn made<'a, S: Shelf>(
    alloc: Global,
    work: Work,
    config: &Config,
    file: &'a str,
    shelf: &mut S,
) -> Result<Blob, Halt<'a>>
    ensures follows { Follows refuses (λ bytes. bytes) (S.held shelf.old) (S.held shelf.new)
        (S.asked shelf.old) (S.asked shelf.new) (S.faults shelf.old) (S.faults shelf.new)
        (stopped result) (made work config.now file.now) }
    ensures names { NamesLast result (S.asked shelf.new) }
{
    let request = Request {
        work,
        compact: false,
        config: "free",
        file,
    };
    match with_config(alloc, &request, config, shelf) {
        Ok(output) => Ok(bytes_of(alloc, output)),
        Err(Halt { stop, file: last }) => Err(Halt {
            stop: file_stop(alloc, file, stop),
            file: last,
        }),
    }
}
