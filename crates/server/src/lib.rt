//! A broker's server: it opens a node's folder, and serves what connects, with a reader's and a writer's thread for each connection,
//! a flusher's for each topic, and one that wakes writers for the flushers. What a client is told is what the ports over the topics' locks answer, in the order of the
//! loops; the counts of all ports and topics are cut before any thread starts. At most 256 connections are served at a time. Where it is
//! asked to, it shows status pages over HTTP, by one thread more.
#![tactic(auto)]

mod advertised;
mod binding;
mod connection;
mod fault;
mod parts;
mod pool;
mod serving;
mod settings;
mod showing;
mod threads;
mod timed;
mod told;

pub use binding::{bind, bind_status};
pub use fault::{ServeFault, exit_status};
pub use pool::{Free, MOST_CONNECTIONS, Pool};
pub use serving::{Shelves, serve, serve_shelves};
pub use settings::Settings;
pub use threads::{Hall, serve_connections};
