// A cursor that clones share.
ghost use Rattle.std.specs.Prelude.{◌≡◌, ◌≤◌, ◌^◌, IfOk, OnOk, OnErr};
ghost use Rattle.cursor.specs.Positions.{below};
ghost use Rattle.records.specs.Records.{HasPositions, acknowledged};

use crate::record::Record;
use cursor::Cursor;
use std::alloc::{AllocError, Global};
use std::marker::Model;
use std::sync::Arc;

/// The acknowledged positions of a subscription. Clones share one cursor: a clone copies no range, and the first change of one
/// that is shared copies its ranges, so that the others stay as they were.
#[derive(Drop)]
pub struct SharedCursor {
    shared: Arc<Cursor, Global>,
}

impl Model for SharedCursor {
    ghost use Rattle.std.specs.Arc.{arc_value};
    ghost use Rattle.cursor.specs.Positions.{Positions, positions_code};

    ghost Value = { Positions };

    ghost coded = { positions_code };

    ghost view = { λ s. arc_value s.shared };
}

impl Clone for SharedCursor {
    ghost is_clone = { λ old new. new ≡ old };

    fn clone(&self) -> Result<Self, AllocError> {
        Ok(Self {
            shared: Arc::try_clone(&self.shared)?,
        })
    }
}

impl SharedCursor {
    // All positions below `start` are acknowledged.
    pub(crate) fn starting_at(alloc: Global, start: u64) -> Result<Self, AllocError>
        requires { start ≤ 2 ^ 62 }
        ensures { IfOk result (λ cursor. cursor ≡ below start) }
    {
        Ok(Self {
            shared: Arc::new(alloc, Cursor::starting_at(alloc, start))?,
        })
    }

    /// The cursor, to read.
    pub fn as_cursor(&self) -> &Cursor
        ensures { result.now ≡ self.now }
    {
        &self.shared
    }

    // Acknowledges what a record says. A refusal changes nothing.
    pub(crate) fn acknowledge(&mut self, change: &Record) -> Result<(), AllocError>
        requires { HasPositions change.now }
        ensures ok { OnOk result (self.new ≡ acknowledged change.now self.old) }
        ensures err { OnErr result (self.new ≡ self.old) }
    {
        let cursor = Arc::make_mut(&mut self.shared)?;
        match change {
            Record::Made { .. } => Ok(()),
            Record::Removed { .. } => Ok(()),
            Record::Acknowledged { position, .. } => cursor.ack(*position),
            Record::AcknowledgedThrough { position, .. } => {
                cursor.ack_through(*position);
                Ok(())
            }
            Record::AcknowledgedRange { first, last, .. } => cursor.ack_range(*first, *last),
        }
    }
}
