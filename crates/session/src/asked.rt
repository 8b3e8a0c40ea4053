ghost use Rattle.std.specs.Prelude.{◌≡◌, true, IfNone};
ghost use Rattle.session.specs.Broker.{IsQuiet};
ghost use Rattle.session.specs.Asking.{Knows};
ghost use Rattle.session.specs.Noting.{AreQuiet};

use crate::port::Port;
use crate::told::hear;

/// What a topic answered that a pump asked for messages: whether it has none for the session's consumers.
#[derive(Clone, Copy)]
pub(crate) struct Asked {
    pub(crate) topic: u64,
    pub(crate) is_quiet: bool,
}

/// What a topic answers a session, or answered where it was asked last. A topic that isn't there isn't asked. Changes nothing.
pub(crate) fn ask<P: Port>(topic: u64, who: u64, last: Option<Asked>, port: &mut P) -> Asked
    ensures of { result.topic ≡ topic }
    ensures none { P.sole port.old → Knows who (P.broker port.old) last → result.is_quiet ≡ true → IsQuiet (P.broker port.old) topic who }
    ensures same { P.sole port.old → P.broker port.new ≡ P.broker port.old }
    ensures passes { P.passes port.old port.new }
{
    match last {
        Some(asked) if asked.topic == topic => return asked,
        _ => {}
    }
    if topic >= port.topics() {
        return Asked {
            topic,
            is_quiet: false,
        };
    }
    let is_quiet = hear(port.is_quiet(topic, who));
    Asked { topic, is_quiet }
}

/// The first of these topics that may have something for the session's consumers, each of which is asked once up to it.
/// Changes nothing.
pub(crate) fn first_busy<P: Port>(topics: &[u64], who: u64, port: &mut P) -> Option<u64>
    ensures none { P.sole port.old → IfNone result (AreQuiet (P.broker port.old) who topics.now) }
    ensures same { P.sole port.old → P.broker port.new ≡ P.broker port.old }
    ensures passes { P.passes port.old port.new }
{
    for place in 0..topics.len() {
        let topic = topics[place];
        if !ask(topic, who, None, port).is_quiet {
            return Some(topic);
        }
    }
    None
}
