//! A node's device: many files under one clock of moments, what reads give, and what a crash may leave.
//! Each call of a `Shelf` says what it does to both, where the device is honest, and answers an error
//! only where the count of the device's failures rose. A call on one file leaves every other file alone.
#![tactic(auto)]

mod crash_shelf;
mod durable;
mod file_id;
mod history;
mod shelf;

pub use crash_shelf::{CrashForm, CrashShelf, Fuse};
pub use durable::persist;
pub use file_id::{CATALOG, CursorSlot, FileId, Folder, TopicId, folder_of, served};
pub use history::History;
pub use shelf::{DeviceError, Shelf};
