/// What a port is told of the turns in which a session is fed or pumped.
pub trait Turns {
    /// A turn begins: the port may look which topics are there by now, and may keep a topic's lock from one call to the next.
    fn begin_turn(&mut self);

    /// The turn ends: the port keeps no lock.
    fn end_turn(&mut self);
}
