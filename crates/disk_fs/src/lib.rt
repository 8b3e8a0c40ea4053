//! A node's device over the files of a folder. It isn't claimed to be honest, since what real files hold is no proof's
//! business: it is safe, a call fails exactly where the failure count rises, by one, no read passes its buffer, no write and
//! no length passes 2^62 bytes, and at most eight files are open. Once a sync has failed, each later call of the same value
//! fails, but for those that begin anew: a sync, and a cut to nothing. The log tells why a call failed, once until it goes well.
#![tactic(auto)]

mod folder;
mod names;
mod opened;
mod reads;
mod shelf;
mod syncs;
mod troubles;

pub use shelf::FsShelf;
