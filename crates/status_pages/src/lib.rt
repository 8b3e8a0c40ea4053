//! What whoever looks at a served broker is shown over HTTP: a page for people, the status lines, measurements in the text format of
//! Prometheus, and whether no topic is failed. All of it is told by a board, which is asked for one topic or one subscription at a time;
//! nothing is changed by looking. The lines and the measurements are exactly those of what the board told, of one topic at a time.
#![tactic(auto)]

mod answering;
mod board;
mod body;
mod escapes;
mod health;
mod lines;
mod metrics;
mod overview;
mod pages;
mod parts;
mod picture;
mod requests;
mod samples;

pub use answering::answer;
pub use board::{Board, BrokerReport, TopicReport};
pub use health::is_healthy;
pub use overview::print_overview;
pub use pages::{print_metrics, print_status};
pub use requests::{Answer, Page, answer_to, status_of};
