use commands::ReplyText;

/// What a node is opened over: its device, and the URL by which clients find it.
#[derive(Drop)]
pub struct Site<S> {
    pub url: ReplyText,
    pub shelf: S,
}
