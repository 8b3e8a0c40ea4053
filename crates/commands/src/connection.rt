ghost use Rattle.std.specs.Prelude.{◌≡◌};
ghost use Rattle.commands.specs.Reading.{Reads};
ghost use Rattle.commands.specs.Connection.{connect_of, empty_of};

use crate::fault::CommandFault;
use crate::held::Held;
use crate::message::Message;
use crate::text::Text;
use std::alloc::Global;

/// What a client says when it connects (PulsarApi.proto, CommandConnect).
#[derive(Drop)]
pub struct Connect {
    pub client_version: Text,
    pub protocol_version: i32,
}

#[tactic(auto, unfolding(crate::specs::Connection::connect_of))]
pub fn read_connect(alloc: Global, bytes: &[u8]) -> Result<Connect, CommandFault>
    ensures { Reads result (connect_of bytes.now) }
{
    let mut held = [Held::Absent; 5];
    let message = Message::read(bytes, &mut held)?;
    Ok(Connect {
        client_version: message.required_text(alloc, 1)?,
        protocol_version: message.i32(4)?.unwrap_or(0),
    })
}

pub fn read_empty(bytes: &[u8]) -> Result<(), CommandFault>
    ensures { result ≡ empty_of bytes.now }
{
    let mut held = [Held::Absent; 1];
    Message::read(bytes, &mut held)?;
    Ok(())
}
