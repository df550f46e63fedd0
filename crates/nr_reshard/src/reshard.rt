//! A change of boundaries at a height: reading and writing.

ghost use Rattle.nr_reshard.specs.Files.{reshard_at, reshard_bytes, IsReshard};
ghost use Rattle.nr_reshard.specs.FileLaws.{reshard_law};

use nr_bytes::{Reader, Writer};
use nr_ids::Height;
use nr_layout::Layout;
use nr_records::{RecordFault, Spelled};
use std::alloc::{AllocError, Global};

/// Other boundaries between the shards, from a height on.
#[derive(Debug, PartialEq, Eq, Drop)]
pub struct Reshard {
    /// The first height that has them.
    pub height: Height,
    pub layout: Layout,
}

impl Spelled for Reshard {
    ghost spelling = { reshard_bytes };

    ghost fits = { IsReshard };

    ghost reading = { reshard_at };

    ghost law = { reshard_law };

    #[tactic(auto, unfolding(crate::specs::Files::reshard_at))]
    fn read(alloc: Global, reader: &mut Reader<'_>) -> Result<Reshard, RecordFault> {
        let mut ahead = reader.fork();
        let height = Height(u64::read(alloc, &mut ahead)?);
        let layout = Layout::read(alloc, &mut ahead)?;
        *reader = ahead;
        Ok(Reshard { height, layout })
    }

    fn write(&self, writer: &mut Writer) -> Result<(), AllocError> {
        self.height.0.write(writer)?;
        self.layout.write(writer)
    }

    fn duplicate(&self, alloc: Global) -> Result<Reshard, AllocError> {
        Ok(Reshard {
            height: self.height,
            layout: self.layout.duplicate(alloc)?,
        })
    }
}
