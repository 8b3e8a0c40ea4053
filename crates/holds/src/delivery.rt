use crate::consumer::ConsumerKey;

/// What is known of a position that was sent and isn't acknowledged.
#[derive(Clone, Copy, Debug, PartialEq, Eq)]
pub struct Delivery {
    /// Who holds the position. None once it was given back.
    pub holder: Option<ConsumerKey>,
    /// How often it was sent, as far as 32 bits count.
    pub times: u32,
}
