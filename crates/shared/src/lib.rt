//! Shared, the mode of dispatch in which consumers divide the entries among them: any attached
//! consumer may get any position that is open, that is, committed, unacknowledged and held by
//! nobody. `SharedDispatcher` answers one such position, and none only where none is open or the
//! consumer isn't attached. A subscription takes sixty-four consumers, and only `attach` takes memory.
#![tactic(auto)]

mod shared_dispatcher;

pub use shared_dispatcher::SharedDispatcher;
