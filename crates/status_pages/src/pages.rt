// The page of status lines, and that of metrics.
ghost use Rattle.std.specs.Prelude.{OnOk};
ghost use Rattle.status_pages.specs.declared.parts.Part.TheVariants.{Lines};
ghost use Rattle.status_pages.specs.Pages.{Prints, PrintsTopics, PrintsMetrics};

use crate::board::Board;
use crate::metrics::{SubscriptionMetric, TopicMetric, print_broker};
use crate::parts::{Part, print_head, print_picture};
use crate::picture::{MOST_TOPICS, picture_of};
use std::alloc::Global;
use std::io;
use std::io::Write;

/// The metrics of topics and subscriptions. Those that Pulsar's own broker has are named as there.
const METRICS: [Part; 21] = [
    Part::Topics(TopicMetric::Sends),
    Part::Topics(TopicMetric::Receipts),
    Part::Topics(TopicMetric::Messages),
    Part::Topics(TopicMetric::Acknowledgements),
    Part::Topics(TopicMetric::Flushes),
    Part::Topics(TopicMetric::Bytes),
    Part::Topics(TopicMetric::Entries),
    Part::Topics(TopicMetric::Trimmed),
    Part::Topics(TopicMetric::Segments),
    Part::Topics(TopicMetric::Waiting),
    Part::Topics(TopicMetric::WaitingBytes),
    Part::Topics(TopicMetric::Producers),
    Part::Topics(TopicMetric::Subscriptions),
    Part::Topics(TopicMetric::Consumers),
    Part::Topics(TopicMetric::Backlog),
    Part::Topics(TopicMetric::Failed),
    Part::Subscriptions(SubscriptionMetric::Backlog),
    Part::Subscriptions(SubscriptionMetric::Consumers),
    Part::Subscriptions(SubscriptionMetric::Permits),
    Part::Subscriptions(SubscriptionMetric::MarkDelete),
    Part::Subscriptions(SubscriptionMetric::Ranges),
];

/// Writes the status lines of all topics, in the order of their numbers, as `inspect` does of a folder that nobody serves. `?`
/// stands where the number of a topic's segment files can't be told.
///
/// A fault of the writer is handed on, and how much went out isn't said; so is want of memory.
pub fn print_status<B: Board, W: Write>(alloc: Global, board: &B, writer: &mut W) -> io::Result<()>
    ensures { OnOk result (PrintsTopics (B.topic_told board.now) (B.subscription_told board.now) Lines (W.contents writer.old) (W.contents writer.new)) }
{
    print_topics(alloc, board, Part::Lines, writer)
}

/// Writes the metrics of the broker, of its topics and of their subscriptions, in the text format of Prometheus.
///
/// A fault of the writer is handed on, and how much went out isn't said; so is want of memory.
pub fn print_metrics<B: Board, W: Write>(alloc: Global, board: &B, writer: &mut W) -> io::Result<()>
    ensures { OnOk result (PrintsMetrics (B.broker_told board.now) (B.topic_told board.now) (B.subscription_told board.now) (W.contents writer.old) (W.contents writer.new)) }
{
    print_broker(&board.broker(), writer)?;
    for part in METRICS {
        print_part(alloc, board, part, writer)?;
    }
    Ok(())
}

// Writes a part of a page: its head, and what it says of each topic.
fn print_part<B: Board, W: Write>(
    alloc: Global,
    board: &B,
    part: Part,
    writer: &mut W,
) -> io::Result<()>
    ensures { OnOk result (Prints (B.topic_told board.now) (B.subscription_told board.now) part (W.contents writer.old) (W.contents writer.new)) }
{
    print_head(part, writer)?;
    print_topics(alloc, board, part, writer)?;
    Ok(())
}

/// Writes what the part says of each topic. One topic is asked for at a time.
pub(crate) fn print_topics<B: Board, W: Write>(
    alloc: Global,
    board: &B,
    part: Part,
    writer: &mut W,
) -> io::Result<()>
    ensures { OnOk result (PrintsTopics (B.topic_told board.now) (B.subscription_told board.now) part (W.contents writer.old) (W.contents writer.new)) }
{
    for number in 0..MOST_TOPICS {
        let picture = picture_of(alloc, board, number, part.asks_for_subscriptions())?;
        let Some(picture) = picture else {
            return Ok(());
        };
        print_picture(part, &picture, writer)?;
    }
    Ok(())
}
