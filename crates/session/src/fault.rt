ghost use Rattle.std.specs.Prelude.{◌≡◌};
ghost use Rattle.session.specs.Faults.{fault_of};

use thiserror::Error;

/// Why a session ended. No reply tells it.
#[derive(Clone, Copy, Debug, PartialEq, Eq, Error)]
pub enum Fault {
    #[error("the frame is larger than 5242880 bytes")]
    TooLarge,
    #[error("the sizes of the frame don't agree")]
    BadSizes,
    #[error("the command can't be read")]
    Unreadable,
    #[error("the command of this type is missing")]
    Missing,
    #[error("the part behind the command can't be read")]
    BadPayload,
    /// Of this type nothing is read ("PulsarApi.proto, BaseCommand, Type").
    #[error("the type is no command of a client")]
    UnknownCommand,
    /// A command before CONNECT, or a second CONNECT ("Pulsar binary protocol, Connection establishment").
    #[error("the command is out of turn")]
    OutOfTurn,
    /// Our own rule: a consumer is granted at most 2^62 permits in all.
    #[error("the permits are too many")]
    TooManyPermits,
    #[error("no memory")]
    NoMemory,
}

impl From<frames::Fault> for Fault {
    ghost from_gives = { λ fault result. result ≡ fault_of fault };

    fn from(fault: frames::Fault) -> Fault {
        match fault {
            frames::Fault::TooLarge => Fault::TooLarge,
            frames::Fault::BadSizes => Fault::BadSizes,
            frames::Fault::Unreadable => Fault::Unreadable,
            frames::Fault::Missing => Fault::Missing,
            frames::Fault::BadPayload => Fault::BadPayload,
            frames::Fault::NoMemory => Fault::NoMemory,
        }
    }
}
