//! A gated file holds a list of batches, which grows at its end. A batch counts from the moment at
//! which its gate is open on the device, so a crash at any moment leaves it whole or not at all.
//! An opening answers the log of a file or its first fault, whatever bytes it holds.
#![tactic(auto)]

mod batch_list;
mod builder;
mod copy;
mod create;
mod fold;
mod fold_open;
mod gate;
mod gated_file;
mod head;
mod header;
mod label;
mod law;
mod log;
mod log_id;
mod open;
mod overwrite;
mod prepare_error;
mod prepared;
mod prepared_log;
mod read;
mod read_at;
mod read_error;
mod reader;
mod refusal;
mod start;

pub use batch_list::BatchList;
pub use builder::BatchBuilder;
pub use create::{lay_closed, open_header};
pub use fold::Fold;
pub use gated_file::GatedFile;
pub use head::LogHead;
pub use header::{AtHeader, at_header, header_size};
pub use label::Label;
pub use law::{
    batches_give_their_bodies, bodies_stand_behind_their_gates, every_file_is_a_log_or_has_a_fault,
    file_stands_for_one_list, files_have_one_fault, logs_have_no_fault,
};
pub use log::GatedLog;
pub use log_id::LogId;
pub use prepare_error::PrepareError;
pub use prepared::{MAX_BODY, PreparedBatch};
pub use prepared_log::{LogBuilder, PreparedLog};
pub use read_error::ReadError;
pub use reader::LogReader;
pub use refusal::Refusal;
pub use start::{Start, UNTRIMMED};
