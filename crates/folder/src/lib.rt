//! What is done with a node's folder from the command line: it is made, looked at, and held by one process. A folder whose
//! list of topics is open, sound or not, is never made anew, and what is printed are whole lines. What real files hold, and that
//! a file lock keeps others out, is claimed nowhere.
#![tactic(auto)]

mod fault;
mod held;
mod holder;
mod looking;
mod making;
mod sink;
mod upgrading;

pub use fault::{FolderFault, exit_status};
pub use held::Folder;
pub use looking::{inspect, inspect_on};
pub use making::{init, init_on};
pub use sink::Sink;
pub use upgrading::{upgrade, upgrade_on};
