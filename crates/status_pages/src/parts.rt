// The parts of pages, each of which says something of every topic.
ghost use Rattle.std.specs.Prelude.{◌≡◌, OnOk};
ghost use Rattle.std.specs.Io.KnownBytes.{Appends};
ghost use Rattle.status_pages.specs.Pages.{part_text, part_head, asks_for_subscriptions, is_of_subscriptions, failure_text};

use crate::lines::print_lines;
use crate::metrics::{
    SubscriptionMetric, TopicMetric, print_subscription_metric, print_topic_metric,
};
use crate::picture::Picture;
use crate::samples::print_metric_head;
use std::io;
use std::io::Write;

/// What a part of a page says of each topic.
#[derive(Clone, Copy, Debug, PartialEq, Eq)]
pub(crate) enum Part {
    /// Its status lines.
    Lines,
    /// A number of it.
    Topics(TopicMetric),
    /// A number of each of its subscriptions.
    Subscriptions(SubscriptionMetric),
    /// That it is failed, where it is.
    Failures,
}

impl Part {
    /// Whether it asks for the subscriptions of a topic.
    pub(crate) fn asks_for_subscriptions(self) -> bool
        ensures { result ≡ asks_for_subscriptions self }
    {
        match self {
            Part::Lines | Part::Subscriptions(_) => true,
            Part::Topics(metric) => is_of_subscriptions(metric),
            Part::Failures => false,
        }
    }
}

fn is_of_subscriptions(metric: TopicMetric) -> bool
    ensures { result ≡ is_of_subscriptions metric }
{
    match metric {
        TopicMetric::Consumers | TopicMetric::Backlog => true,
        TopicMetric::Sends
        | TopicMetric::Receipts
        | TopicMetric::Messages
        | TopicMetric::Acknowledgements
        | TopicMetric::Flushes
        | TopicMetric::Bytes
        | TopicMetric::Entries
        | TopicMetric::Trimmed
        | TopicMetric::Segments
        | TopicMetric::Waiting
        | TopicMetric::WaitingBytes
        | TopicMetric::Producers
        | TopicMetric::Subscriptions
        | TopicMetric::Failed => false,
    }
}

/// Writes what stands before the part.
pub(crate) fn print_head<W: Write>(part: Part, writer: &mut W) -> io::Result<()>
    ensures { OnOk result (Appends (W.contents writer.old) (W.contents writer.new) (part_head part)) }
{
    match part {
        Part::Topics(metric) => {
            print_metric_head(metric.name(), metric.help(), metric.grows(), writer)
        }
        Part::Subscriptions(metric) => {
            print_metric_head(metric.name(), metric.help(), false, writer)
        }
        Part::Lines | Part::Failures => Ok(()),
    }
}

/// Writes what the part says of a topic.
pub(crate) fn print_picture<W: Write>(
    part: Part,
    picture: &Picture,
    writer: &mut W,
) -> io::Result<()>
    ensures { OnOk result (Appends (W.contents writer.old) (W.contents writer.new) (part_text part picture.now)) }
{
    match part {
        Part::Lines => print_lines(picture, writer),
        Part::Topics(metric) => print_topic_metric(metric, picture, writer),
        Part::Subscriptions(metric) => {
            let subscriptions = picture.subscriptions.as_slice();
            print_subscription_metric(metric, &picture.topic, subscriptions, writer)
        }
        Part::Failures => {
            let topic = &picture.topic;
            print_failure(topic.summary.is_failed, topic.name.as_str(), writer)
        }
    }
}

fn print_failure<W: Write>(is_failed: bool, name: &str, writer: &mut W) -> io::Result<()>
    ensures { OnOk result (Appends (W.contents writer.old) (W.contents writer.new) (failure_text is_failed name.now)) }
{
    if is_failed {
        writeln!(writer, "topic {name} has failed")
    } else {
        Ok(())
    }
}
