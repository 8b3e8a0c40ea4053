// What the writer serves of a session without its lock.
ghost use Rattle.std.specs.Prelude.{◌<◌, ◌^◌};
ghost use Rattle.workers.specs.Outputs.{AreFrames};

use crate::numbered::{Pumped, output_of};
use session::{List, Port};

/// What a turn of the writer collected of a session, by what it then serves it, and the number of the output that is to come of both.
#[derive(Drop)]
pub struct Listing {
    pub(crate) list: List,
    pub(crate) number: u64,
    /// The frames of the replies that were due where the session was listed.
    pub(crate) bytes: Vec<u8>,
    ghost small: { number < 2 ^ 62 },
    ghost whole: { AreFrames bytes.items },
}

impl Listing {
    ghost use Rattle.std.specs.Prelude.{◌≡◌, Err, IfSome};
    ghost use Rattle.session.specs.declared.pumping.PumpFault.TheVariants.{Ended};
    ghost use Rattle.session.specs.Client.{Client, Play, play};
    ghost use Rattle.session.specs.Listing.{IsListOf};
    ghost use Rattle.session.specs.Pumping.{CollectStep, ServeStep, PumpStep};
    ghost use Rattle.workers.specs.Numbers.{IsOutput, bytes_of_output, client_served};

    /// Serves the session by its list, behind what was collected: with that it is a pump. Whoever holds the session then has to tell it
    /// of the answer.
    pub fn serve<P: Port>(self, port: &mut P) -> Pumped
        ensures number { result.number ≡ self.number }
        ensures output { IsOutput self.number (bytes_of_output result.output) result.output }
        ensures serves { P.sole port.old → (client : Client) → IsListOf client self.list →
            ServeStep (λ topic why. P.refuses port.old topic why port.new) (play client (P.broker port.old) self.bytes.items) self.list.replies
            result.answer (play (client_served client result.answer) (P.broker port.new) (bytes_of_output result.output)) }
        ensures step { P.sole port.old → (begun : Play) (client : Client) → IsListOf client self.list →
            CollectStep begun self.list.replies (play client (P.broker port.old) self.bytes.items) →
            PumpStep (λ topic why. P.refuses port.old topic why port.new) begun
            result.answer (play (client_served client result.answer) (P.broker port.new) (bytes_of_output result.output)) }
        ensures ended { IfSome self.list.fault (λ why. (result.answer ≡ Err (Ended why)) × (bytes_of_output result.output ≡ self.bytes.items)) }
    {
        let Listing {
            list,
            number,
            bytes,
        } = self;
        let mut bytes = bytes;
        let answer = list.serve(port, &mut bytes);
        let output = output_of(number, bytes);
        Pumped {
            number,
            output,
            answer,
        }
    }
}
