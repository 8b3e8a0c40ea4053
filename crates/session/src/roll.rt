ghost use Rattle.std.specs.Prelude.{◌≡◌, ◌<◌, List, length, slice_index_or};
ghost use Rattle.session.specs.declared.entry.Entry.{Entry as TheEntry};
ghost use Rattle.session.specs.Noting.{AreNoted};

use crate::entry::Entry;
use crate::port::Port;
use crate::told::hear;

/// The consumers that a pump serves, in rising id.
pub(crate) trait Roll {
    /// Their ids and topics.
    ghost entries: { Self → List TheEntry };

    fn len(&self) -> usize
        ensures { result ≡ length (entries self.now) };

    /// The consumer at a place.
    fn at(&self, place: usize) -> Entry
        requires { place < length (entries self.now) }
        ensures { result ≡ slice_index_or (entries self.now) place result };

    /// Whether permits were granted to the consumer at a place since its topic was last asked to look for them.
    fn is_raised(&self, place: usize) -> bool
        requires { place < length (entries self.now) };

    /// The topics of the consumers, and maybe one of an earlier consumer.
    fn topics(&self) -> &[u64]
        ensures { AreNoted result.now (entries self.now) };
}

/// Has the topics look for the permits that were granted to the raised consumers of a session. Changes nothing.
pub(crate) fn look_each<R: Roll, P: Port>(roll: &R, who: u64, port: &mut P)
    ensures same { P.sole port.old → P.broker port.new ≡ P.broker port.old }
    ensures passes { P.passes port.old port.new }
{
    for place in 0..roll.len() {
        look_at(roll, place, who, port);
    }
}

/// Has the topic of the consumer at a place, where it is there, look for the permits that were granted. Changes nothing.
fn look_at<R: Roll, P: Port>(roll: &R, place: usize, who: u64, port: &mut P)
    requires { place < length (R.entries roll.now) }
    ensures same { P.sole port.old → P.broker port.new ≡ P.broker port.old }
    ensures passes { P.passes port.old port.new }
{
    if !roll.is_raised(place) {
        return;
    }
    let Entry { id, topic } = roll.at(place);
    if topic < port.topics() {
        hear(port.look(topic, who, id));
    }
}
