ghost use Rattle.std.specs.Prelude.{◌≡◌, ◌<◌, ◌≤◌, Some, IfSome, IfNone};
ghost use Rattle.session.specs.Table.{has_entry, topic_of, IsUnknown};

use crate::entry::Entry;
use crate::port::Port;

/// Whether an id is in use.
pub(crate) fn has_entry(entries: &[Entry], id: u64) -> bool
    ensures { result ≡ has_entry entries.now id }
{
    entries.iter().any(|entry| entry.id == id)
}

fn topic_of(entries: &[Entry], id: u64) -> Option<u64>
    ensures { result ≡ topic_of entries.now id }
{
    entries
        .iter()
        .find(|entry| entry.id == id)
        .map(|entry| entry.topic)
}

/// A topic, where it is there.
pub(crate) fn if_there<P: Port>(topic: Option<u64>, port: &P) -> Option<u64>
    ensures topic { IfSome result (λ number. topic ≡ Some number) }
    ensures there { IfSome result (λ number. number < P.count port.now) }
    ensures unknown { IfNone result (IfSome topic (λ number. P.count port.now ≤ number)) }
{
    let topic = topic?;
    if topic < port.topics() {
        Some(topic)
    } else {
        None
    }
}

/// The topic of an id, where it has one that is there.
pub(crate) fn known_topic<P: Port>(entries: &[Entry], id: u64, port: &P) -> Option<u64>
    ensures topic { IfSome result (λ topic. topic_of entries.now id ≡ Some topic) }
    ensures there { IfSome result (λ topic. topic < P.count port.now) }
    ensures unknown { IfNone result (IsUnknown entries.now id (P.count port.now)) }
{
    if_there(topic_of(entries, id), port)
}
