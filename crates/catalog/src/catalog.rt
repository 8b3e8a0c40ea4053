// The names of topics in a log of batches.
ghost use Rattle.std.specs.Prelude.{◌≡◌};
ghost use Rattle.std.proofs.Props.{props};
ghost use Rattle.disk.specs.Areas.{catalog_file};
ghost use Rattle.gated_log.specs.Labels.{plain};
ghost use Rattle.gated_log.specs.Logs.{log_id};
ghost use Rattle.catalog.specs.Names.{AreNames, IsPerLedger};

use gated_log::GatedLog;
use indexmap::IndexSet;
use names::TopicName;
use std::alloc::Global;

/// Our own rule: the most topics of a node.
pub const MAX_TOPICS: usize = 64;

/// Our own rule: the most entries of a ledger.
pub const MAX_ENTRIES_PER_LEDGER: u32 = 50_000;

/// The names of a node's topics, each at the place of its topic's number, in a log whose number is
/// how many entries a ledger of the node has.
#[derive(Drop)]
pub struct Catalog {
    pub(crate) alloc: Global,
    pub(crate) log: GatedLog,
    pub(crate) names: IndexSet<TopicName>,
    ghost are: { AreNames names.keys } by { Prim.hlevel props },
    ghost alone: { (log_id log).label ≡ plain (log_id log).label.number },
    ghost ledgers: { IsPerLedger (log_id log).label.number },
    ghost file: { (log_id log).file ≡ catalog_file },
}
