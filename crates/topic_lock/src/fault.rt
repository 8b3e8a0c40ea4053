use thiserror::Error;

/// Why a flush committed nothing.
#[derive(Clone, Copy, Debug, PartialEq, Eq, Error)]
pub enum FlushFault {
    /// The device failed.
    #[error("the device failed")]
    Device,
    /// Memory was refused; nothing was written.
    #[error("no memory")]
    NoMemory,
    /// The stores don't go with what the topic counts as committed; nothing was written.
    #[error("the stores and their topic are apart")]
    Apart,
}
