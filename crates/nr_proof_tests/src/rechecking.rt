//! Running a chunk again.

use nr_bytes::Blob;
use nr_config::Config;
use nr_contract::ContractCaller;
use nr_gathered::Gathered;
use nr_recheck::{RecheckFault, recheck};
use nr_report::write_chunk;
use std::alloc::Global;

/// The text of a chunk that is run again under a configuration.
pub(crate) fn text_of(
    alloc: Global,
    config: Config,
    gathered: Gathered,
) -> Result<Blob, RecheckFault> {
    let caller = ContractCaller::new(&config);
    let report = recheck(alloc, config, caller, gathered)?;
    let mut text = Blob::of(Vec::new(alloc));
    write_chunk(alloc, &report, &mut text)?;
    Ok(text)
}
