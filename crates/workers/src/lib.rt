//! The loops of a connection's two threads: one reads and feeds its session; one collects what is due and lists by what the session is
//! served, serves it so without its lock, and writes. What the writer took from the ring and what is left there are the reader's
//! replies, in order, each once; outputs are whole frames, written whole, in rising numbers. Each thread tells the other where its loop
//! is over.
#![tactic(auto)]

mod connection;
mod flushing;
mod loops;
mod numbered;
mod outgoing;
mod resting;

pub use connection::{Ends, Served, serve_connection};
pub use flushing::flush_loop;
pub use loops::{Point, Turnstile, read_loop, write_loop};
pub use numbered::listing::Listing;
pub use numbered::{Ended, Numbered, Piece, Pumped, Unwritten};
pub use outgoing::{Outgoing, Output};
pub use resting::PortAtRest;
