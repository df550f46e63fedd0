//! What a genesis file holds, its reading and its writing.

ghost use Rattle.nr_blocks.specs.Files.{genesis_at, genesis_bytes, IsGenesisFile};
ghost use Rattle.nr_blocks.specs.FileLaws.{genesis_law};

use crate::fields::magic_of;
use crate::genesis_entry::GenesisEntry;
use nr_bytes::{List, Reader, Writer};
use nr_layout::Layout;
use nr_records::{RecordFault, Spelled};
use std::alloc::{AllocError, Global};

/// What a genesis file holds: the boundaries between the shards, and the entries of the first state.
///
/// Its spelling begins with the bytes `NRG1`.
#[derive(Debug, PartialEq, Eq, Drop)]
pub struct GenesisFile {
    pub layout: Layout,
    pub entries: List<GenesisEntry>,
}

impl Spelled for GenesisFile {
    ghost spelling = { genesis_bytes };

    ghost fits = { IsGenesisFile };

    ghost reading = { genesis_at };

    ghost law = { genesis_law };

    #[tactic(auto, unfolding(crate::specs::Files::genesis_at))]
    fn read(alloc: Global, reader: &mut Reader<'_>) -> Result<GenesisFile, RecordFault> {
        let mut ahead = reader.fork();
        magic_of(&mut ahead, *b"NRG1")?;
        let layout = Layout::read(alloc, &mut ahead)?;
        let entries = List::<GenesisEntry>::read(alloc, &mut ahead)?;
        *reader = ahead;
        Ok(GenesisFile { layout, entries })
    }

    fn write(&self, writer: &mut Writer) -> Result<(), AllocError> {
        writer.put_raw(b"NRG1")?;
        self.layout.write(writer)?;
        self.entries.write(writer)
    }

    fn duplicate(&self, alloc: Global) -> Result<GenesisFile, AllocError> {
        Ok(GenesisFile {
            layout: self.layout.duplicate(alloc)?,
            entries: self.entries.duplicate(alloc)?,
        })
    }
}
