//! A report as JSON.

ghost use Rattle.std.specs.Prelude.{◌≡◌};
ghost use Rattle.nr_bytes.specs.Answers.{GivesAs};
ghost use Rattle.nr_explain.specs.Report.{report_json};
ghost use Rattle.nr_explain.specs.declared.report.ReportFault.TheVariants as fault;

use crate::lines::put_line;
use nr_bytes::Blob;
use nr_words::cut;
use std::alloc::{AllocError, Global};

/// Why a text can't be shown.
#[derive(Clone, Copy, Debug, PartialEq, Eq)]
pub enum ReportFault {
    /// The line of this number, from 1, is none of a report.
    NoLine { line: u64 },
    /// Memory ran out.
    Memory,
}

impl From<AllocError> for ReportFault {
    ghost from_gives = { λ _ e. e ≡ fault.Memory };

    fn from(_fault: AllocError) -> ReportFault {
        ReportFault::Memory
    }
}

/// A report, or what another command of a chain writes, as JSON: an object for each line, each with a
/// line feed behind it. Hashes, bytes and numbers of 128 bits are texts, and numbers of 64 bits are
/// numbers.
///
/// # Errors
///
/// `NoLine` with the first line that is none of a report. What stands behind the last line feed is
/// such a line. `Memory`.
pub fn show_report(alloc: Global, text: &[u8]) -> Result<Blob, ReportFault>
    ensures { GivesAs fault.Memory (λ json. json) result (report_json text.now) }
{
    let mut out = Vec::new(alloc);
    let mut rest = text;
    let mut number = 1;
    while let Some((line, more)) = cut(rest, b'\n') {
        let shown = put_line(line, &mut out)?;
        if shown {
            rest = more;
            number += 1;
        } else {
            return Err(ReportFault::NoLine { line: number });
        }
    }
    if rest.is_empty() {
        Ok(Blob::of(out))
    } else {
        Err(ReportFault::NoLine { line: number })
    }
}
