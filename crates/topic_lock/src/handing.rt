// What a port says that is asked for a message.
use crate::counted::{Heard, Sent};
use session::{Ear, Told};

/// What a port over locks tells a session that asks it for a message.
pub enum Handed {
    /// What the topic told.
    Heard(Heard<u64, Sent>),
    /// None, since the turn's portion is handed out.
    Full {
        topic: u64,
        who: u64,
        consumer_id: u64,
    },
}

impl Told for Handed {
    ghost use Rattle.topic_lock.specs.Handing.{topic_of, who_of, asked_of, said_of};

    type Question = u64;

    type Said = Sent;

    ghost topic = { topic_of };

    ghost who = { who_of };

    ghost asked = { asked_of };

    ghost said = { said_of };

    fn open(self, ear: Ear) -> Sent {
        match self {
            Handed::Heard(heard) => heard.open(ear),
            Handed::Full {
                topic: _,
                who: _,
                consumer_id: _,
            } => Ok(None),
        }
    }
}
