// What stands in the bodies of a slot.

use gated_log::Start;
use records::Record;

/// What stands in the bodies of a slot.
#[derive(Drop)]
pub enum Item {
    /// A change of the subscriptions.
    Change(Record),
    /// From there on the ledger begins here.
    Trim(Start),
}
