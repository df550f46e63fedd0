//! `recheck CONFIG FILE`.

ghost use Rattle.std.specs.Prelude.{◌≡◌, IfOk};
ghost use Rattle.nr_bytes.specs.Answers.{Gives};
ghost use Rattle.nr_contract.specs.Contract.{call};
ghost use Rattle.nr_recheck.specs.Rechecking.{memory_fault, rechecked};
ghost use Rattle.nr_report.specs.Lines.{chunk_text};
ghost use Rattle.nr_shell.specs.Answers.{Follows, Judges};
ghost use Rattle.nr_top.specs.Answers.{refuses};
ghost use Rattle.nr_top.specs.Plans.{recheck_plan};
ghost use Rattle.nr_top.specs.Rechecking.{by_gathered, by_gathered_bytes, gathered_plan, recheck_answer};

use crate::refused::{gathered_stop, recheck_stop};
use crate::status::Status;
use nr_bytes::{Blob, Shelf};
use nr_config::Config;
use nr_configfile::config_of;
use nr_contract::ContractCaller;
use nr_gathered::{Gathered, read_gathered};
use nr_recheck::{RecheckFault, recheck};
use nr_records::ChunkResult;
use nr_report::write_chunk;
use nr_shell::{Stop, load};
use std::alloc::{AllocError, Global};

/// The most bytes of a gathered chunk's file, 256 MiB.
const GATHERED_LIMIT: usize = 268_435_456;

const LONG_FILE: Status = Status::Gathered { kind: 0, a: 0 };

/// The gathered chunk that some bytes spell.
fn gathered_in(alloc: Global, bytes: &[u8]) -> Result<Gathered, Stop<Status>>
    ensures { Judges refuses (λ gathered. gathered) result (by_gathered_bytes bytes.now) }
{
    match read_gathered(alloc, bytes) {
        Ok(gathered) => Ok(gathered),
        Err(fault) => Err(gathered_stop(fault)),
    }
}

/// The gathered chunk of a file.
fn load_gathered<S: Shelf>(
    alloc: Global,
    name: &str,
    shelf: &mut S,
) -> Result<Gathered, Stop<Status>>
    ensures { Follows refuses (λ gathered. gathered) (S.held shelf.old) (S.held shelf.new)
        (S.asked shelf.old) (S.asked shelf.new) (S.faults shelf.old) (S.faults shelf.new)
        result (gathered_plan name.now) }
{
    match load(alloc, name, GATHERED_LIMIT, LONG_FILE, shelf) {
        Ok(bytes) => gathered_in(alloc, &bytes),
        Err(stop) => Err(stop),
    }
}

fn text_of(alloc: Global, report: &ChunkResult) -> Result<Blob, AllocError>
    ensures { IfOk result (λ text. text ≡ chunk_text report.now) }
{
    let mut text = Blob::of(Vec::new(alloc));
    write_chunk(alloc, report, &mut text)?;
    Ok(text)
}

/// A gathered chunk that is run again.
fn run_again(alloc: Global, config: Config, gathered: Gathered) -> Result<ChunkResult, RecheckFault>
    ensures { Gives memory_fault result (rechecked config (call config) gathered) }
{
    let caller = ContractCaller::new(&config);
    recheck(alloc, config, caller, gathered)
}

/// The lines of it.
fn rechecked(alloc: Global, config: Config, gathered: Gathered) -> Result<Blob, Stop<Status>>
    ensures { Judges refuses (λ text. text) result (recheck_answer config gathered) }
{
    match run_again(alloc, config, gathered) {
        Ok(report) => match text_of(alloc, &report) {
            Ok(text) => Ok(text),
            Err(_) => Err(Stop::Memory),
        },
        Err(fault) => Err(recheck_stop(fault)),
    }
}

/// The same of a file.
fn of_file<S: Shelf>(
    alloc: Global,
    config: Config,
    file: &str,
    shelf: &mut S,
) -> Result<Blob, Stop<Status>>
    ensures { Follows refuses (λ text. text) (S.held shelf.old) (S.held shelf.new)
        (S.asked shelf.old) (S.asked shelf.new) (S.faults shelf.old) (S.faults shelf.new)
        result (by_gathered file.now config) }
{
    match load_gathered(alloc, file, shelf) {
        Ok(gathered) => rechecked(alloc, config, gathered),
        Err(stop) => Err(stop),
    }
}

/// The same, under the configuration of a word.
#[inline(never)]
pub(crate) fn recheck_text<S: Shelf>(
    alloc: Global,
    config: &str,
    file: &str,
    shelf: &mut S,
) -> Result<Blob, Stop<Status>>
    ensures { Follows refuses (λ text. text) (S.held shelf.old) (S.held shelf.new)
        (S.asked shelf.old) (S.asked shelf.new) (S.faults shelf.old) (S.faults shelf.new)
        result (recheck_plan config.now file.now) }
{
    match config_of::<Status, S>(alloc, config, shelf) {
        Ok(config) => of_file(alloc, config, file, shelf),
        Err(stop) => Err(stop),
    }
}
