// The status lines of a topic.
ghost use Rattle.std.specs.Prelude.{OnOk};
ghost use Rattle.std.specs.Io.KnownBytes.{Appends};
ghost use Rattle.status_pages.specs.Lines.{told_line, told_subscription_line, picture_lines};

use crate::board::TopicReport;
use crate::picture::Picture;
use std::io;
use std::io::Write;
use subscriptions::SubscriptionSummary;

/// Writes the line of a topic, and behind it those of its subscriptions, as `admin` has them.
pub(crate) fn print_lines<W: Write>(picture: &Picture, writer: &mut W) -> io::Result<()>
    ensures { OnOk result (Appends (W.contents writer.old) (W.contents writer.new) (picture_lines picture.now.topic picture.now.subscriptions.items)) }
{
    let topic = &picture.topic;
    print_topic_line(topic, writer)?;
    for subscription in &picture.subscriptions {
        print_subscription_line(topic.number, subscription, writer)?;
    }
    Ok(())
}

#[tactic(auto, using(admin::proofs::Padding::right_in_is))]
fn print_topic_line<W: Write>(topic: &TopicReport, writer: &mut W) -> io::Result<()>
    ensures { OnOk result (Appends (W.contents writer.old) (W.contents writer.new) (told_line topic.now.number topic.now.name topic.now.summary.entries topic.now.base topic.now.segments)) }
{
    let (number, name) = (topic.number, topic.name.as_str());
    let (entries, base) = (topic.summary.entries, topic.base);
    match topic.segments {
        Some(segments) => {
            writeln!(
                writer,
                "T {number:>4} {entries:>10} {base:>10} {segments:>6} {name}"
            )
        }
        None => writeln!(
            writer,
            "T {number:>4} {entries:>10} {base:>10}      ? {name}"
        ),
    }
}

#[tactic(auto, using(admin::proofs::Padding::right_in_is))]
fn print_subscription_line<W: Write>(
    topic: u64,
    summary: &SubscriptionSummary,
    writer: &mut W,
) -> io::Result<()>
    ensures { OnOk result (Appends (W.contents writer.old) (W.contents writer.new) (told_subscription_line topic summary.now)) }
{
    let status = &summary.status;
    let name = status.name.as_str();
    let (mark_delete, ranges) = (status.mark_delete, status.ranges as u64);
    writeln!(writer, "S {topic:>4} {mark_delete:>10} {ranges:>6} {name}")
}
