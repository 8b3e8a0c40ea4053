ghost use Rattle.std.specs.Prelude.{◌≡◌};

use bells::Bells;
use std::net::{Shutdown, TcpStream};
use workers::Ends;

/// What the threads of a connection do behind their loops: the reader wakes the writer; the writer shuts the socket down, which
/// ends a read that waits, and wakes the reader, which may wait for room.
#[derive(Drop)]
pub struct Parting<'a> {
    bells: &'a Bells,
    place: u8,
    socket: &'a TcpStream,
}

impl<'a> Parting<'a> {
    /// That of the connection at this place, over this socket.
    pub fn new(bells: &'a Bells, place: u8, socket: &'a TcpStream) -> Parting<'a>
        ensures { (result.bells ≡ bells.entry) × (result.place ≡ place) × (result.socket ≡ socket.entry) }
    {
        Parting {
            bells,
            place,
            socket,
        }
    }
}

impl<'a> Ends for Parting<'a> {
    fn reader_is_over(&self) {
        self.bells.ring_writer(self.place);
    }

    fn writer_is_over(&self) {
        // Where it fails the socket is closed already, and no read waits.
        let _ = self.socket.shutdown(Shutdown::Both);
        self.bells.ring_reader(self.place);
    }
}
