//! A broker of one node over its device: each event moves an abstract broker by one allowed step, and its output is the whole
//! frames of what that step says, to the session that hears it. Receipts follow the flush that committed their entries; whatever
//! the device fails in, and wherever the power is cut, each opening finds every entry that a receipt was told for.
#![tactic(auto)]

mod beginning;
mod event;
mod flight;
mod held;
mod keeping;
mod laws;
mod node;
mod octets;
mod open;
mod parts;
mod port;
mod power;
mod resuming;
mod searching;
mod serving;
mod site;
mod status;
mod topics;
mod upgrading;

pub use catalog::EntriesPerLedger;
pub use commands::ReplyText;
pub use event::{Event, Happening, Output, TopicEvent, Verdict};
pub use gated_log::Refusal;
pub use keeping::{names_are_kept, outputs_tell_no_fault};
pub use laws::{
    cuts_are_turns, folders_hold_one_content, frames_are_accounted_for, lives_account,
    lives_unfold, messages_are_admitted, moves_publish, new_folders_are_served,
    openings_have_one_fault, receipts_are_covered, receipts_are_found, replies_rest_on_frames,
    runs_unfold, stays_sound, topics_fail_for_a_cause, upgrades_have_one_fault, words_are_kept,
};
pub use node::Node;
pub use octets::Octets;
pub use power::{Machine, drive};
pub use resuming::{cuts_are_opened, lives_go_on, openings_are_starts};
pub use session::Fault;
pub use site::Site;
pub use status::TopicStatus;
pub use upgrading::{Upgraded, upgrade};
