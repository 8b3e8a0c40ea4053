//! A client's session works the frames of its bytes in order, over any broker behind a `Port`, and writes whole
//! frames of the replies that an abstract broker allows. Its first fault ends it: it then leaves each topic, works
//! and writes nothing more, and answers that fault ever after. A pump collects the replies that are due to it
//! until none is left, and then hands out messages for its consumers until none is admitted, each up to a bound.
//! A session may also collect alone, and give a list of its consumers, by which whoever doesn't hold the session hands out the
//! messages: behind what was collected that is a pump, too. The granter of a consumer's permits stands with the session where its
//! port says so; a pump, or the serving of a list, then first has the consumer's topic look for what was granted.
#![tactic(auto)]

mod asked;
mod consumer_entry;
mod consumers;
mod consuming;
mod entry;
mod fault;
mod giving_back;
mod hash_ranges;
mod laws;
mod listing;
mod lookup;
mod port;
mod producing;
mod pumping;
mod roll;
mod session;
mod speaker;
mod table;
mod told;
mod topic_name;
mod working;

pub use entry::Entry;
pub use fault::Fault;
pub use laws::{
    consumers_rise, ended_sessions_leave, lost_replies_are_absorbed, pumps_finish, pumps_serve,
    want_of_memory_is_named, writes_whole_frames,
};
pub use listing::List;
pub use port::{Found, Port};
pub use pumping::{More, PumpFault};
pub use session::Session;
pub use told::{Ear, Member, Plain, Told};
