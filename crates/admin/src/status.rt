// The status lines of topics.
ghost use Rattle.std.specs.Prelude.{OnOk};
ghost use Rattle.std.specs.Io.KnownBytes.{Appends};
ghost use Rattle.admin.specs.Status.{topic_line, subscription_line, lines_of, lines_of_all};

use node::TopicStatus;
use std::io;
use std::io::Write;
use subscriptions::SubscriptionStatus;

/// Writes the line of each topic, and behind it those of its subscriptions, in the order of the slices. Our own rule: `T`,
/// the topic's number in 4 places, its entries in 10, the position of the first one that is still there in 10, the segment
/// files from there on in 6, and its name; `S`, the topic's number in 4 places, the mark-delete position in 10, the ranges
/// after it in 6, and the subscription's name; one space apart, and a line feed. A number stands right in its places, behind
/// spaces; a wider one takes more.
///
/// A fault of the writer is handed on, and how much went out isn't said.
pub fn print_status<W: Write>(statuses: &[TopicStatus], writer: &mut W) -> io::Result<()>
    ensures { OnOk result (Appends (W.contents writer.old) (W.contents writer.new) (lines_of_all statuses.now)) }
{
    for status in statuses {
        print_topic(status, writer)?;
    }
    Ok(())
}

/// Writes the line of a topic, and behind it those of its subscriptions, as `print_status` has them.
///
/// A fault of the writer is handed on, and how much went out isn't said.
pub fn print_topic<W: Write>(status: &TopicStatus, writer: &mut W) -> io::Result<()>
    ensures { OnOk result (Appends (W.contents writer.old) (W.contents writer.new) (lines_of status.now)) }
{
    print_topic_line(status, writer)?;
    for subscription in &status.subscriptions {
        print_subscription_line(status.number, subscription, writer)?;
    }
    Ok(())
}

#[tactic(auto, using(crate::proofs::Padding::right_in_is))]
fn print_topic_line<W: Write>(status: &TopicStatus, writer: &mut W) -> io::Result<()>
    ensures { OnOk result (Appends (W.contents writer.old) (W.contents writer.new) (topic_line status.now.number status.now.entries status.now.base status.now.segments status.now.name)) }
{
    let (number, name) = (status.number, status.name.as_str());
    let (entries, base, segments) = (status.entries, status.base, status.segments);
    writeln!(
        writer,
        "T {number:>4} {entries:>10} {base:>10} {segments:>6} {name}"
    )
}

#[tactic(auto, using(crate::proofs::Padding::right_in_is))]
fn print_subscription_line<W: Write>(
    topic: u64,
    status: &SubscriptionStatus,
    writer: &mut W,
) -> io::Result<()>
    ensures { OnOk result (Appends (W.contents writer.old) (W.contents writer.new) (subscription_line topic status.now.mark_delete status.now.ranges status.now.name)) }
{
    let name = status.name.as_str();
    let (mark_delete, ranges) = (status.mark_delete, status.ranges as u64);
    writeln!(writer, "S {topic:>4} {mark_delete:>10} {ranges:>6} {name}")
}
