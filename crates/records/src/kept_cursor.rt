// A durable subscription.

use crate::name::Name;
use cursor::Cursor;

/// A durable subscription: its name, and its acknowledged positions.
#[derive(Drop)]
pub struct KeptCursor {
    pub name: Name,
    pub acked: Cursor,
}
