/// A producer or a consumer of a session, by its id, and the number of its topic.
#[derive(Clone, Copy, Debug, PartialEq, Eq)]
pub struct Entry {
    pub id: u64,
    pub topic: u64,
}
