// The metrics of topics, of subscriptions and of the whole broker.
ghost use Rattle.std.specs.Prelude.{◌≡◌, OnOk, sum_by};
ghost use Rattle.std.specs.Io.KnownBytes.{Appends};
ghost use Rattle.status_pages.specs.Metrics.{topic_metric_name, topic_metric_help, topic_metric_grows, subscription_metric_name, subscription_metric_help, backlog_of, capped, topic_value, subscription_value, topic_metric_text, subscription_number_text, subscription_metric_text, broker_text, since_text};
ghost use Rattle.subscriptions.specs.declared.summary.SubscriptionSummary.{SubscriptionSummary as Told};

use crate::board::{BrokerReport, TopicReport};
use crate::picture::Picture;
use crate::samples::{print_broker_metric, print_subscription_sample, print_topic_sample};
use std::io;
use std::io::Write;
use subscriptions::SubscriptionSummary;

/// What each topic tells a number of.
#[derive(Clone, Copy, Debug, PartialEq, Eq)]
pub(crate) enum TopicMetric {
    Sends,
    Receipts,
    Messages,
    Acknowledgements,
    Flushes,
    Bytes,
    Entries,
    Trimmed,
    Segments,
    Waiting,
    WaitingBytes,
    Producers,
    Subscriptions,
    Consumers,
    Backlog,
    Failed,
}

impl TopicMetric {
    pub(crate) fn name(self) -> &'static str
        ensures { result.now ≡ topic_metric_name self }
    {
        match self {
            TopicMetric::Sends => "pulsar_in_messages_total",
            TopicMetric::Receipts => "zephyrslate_receipts_total",
            TopicMetric::Messages => "pulsar_out_messages_total",
            TopicMetric::Acknowledgements => "zephyrslate_acknowledgements_total",
            TopicMetric::Flushes => "zephyrslate_flushes_total",
            TopicMetric::Bytes => "zephyrslate_committed_bytes_total",
            TopicMetric::Entries => "zephyrslate_entries",
            TopicMetric::Trimmed => "zephyrslate_trimmed_entries",
            TopicMetric::Segments => "zephyrslate_segments",
            TopicMetric::Waiting => "zephyrslate_waiting_entries",
            TopicMetric::WaitingBytes => "zephyrslate_waiting_bytes",
            TopicMetric::Producers => "pulsar_producers_count",
            TopicMetric::Subscriptions => "pulsar_subscriptions_count",
            TopicMetric::Consumers => "pulsar_consumers_count",
            TopicMetric::Backlog => "pulsar_msg_backlog",
            TopicMetric::Failed => "zephyrslate_topic_failed",
        }
    }

    /// What it means, in a line.
    pub(crate) fn help(self) -> &'static str
        ensures { result.now ≡ topic_metric_help self }
    {
        match self {
            TopicMetric::Sends => "SENDs that were accepted since the broker began.",
            TopicMetric::Receipts => "Receipts that were handed out since the broker began.",
            TopicMetric::Messages => {
                "Messages that consumers were given since the broker began, repeated ones too."
            }
            TopicMetric::Acknowledgements => {
                "Changes that ACKs made since the broker began: one for each position of an individual ACK, and one for a cumulative one."
            }
            TopicMetric::Flushes => "Flushes that ended well since the broker began.",
            TopicMetric::Bytes => {
                "Bytes of the entries that flushes put on the disk since the broker began."
            }
            TopicMetric::Entries => "Entries that came to the disk, with those that were trimmed.",
            TopicMetric::Trimmed => {
                "Entries that are no longer there, as each subscription has acknowledged them."
            }
            TopicMetric::Segments => {
                "Files that the other entries are in; left out while a flush is at them."
            }
            TopicMetric::Waiting => "Entries that wait for a flush, or are in one.",
            TopicMetric::WaitingBytes => "Bytes of the entries that wait.",
            TopicMetric::Producers => "Producers that are open or closing.",
            TopicMetric::Subscriptions => "Subscriptions of the topic.",
            TopicMetric::Consumers => "Consumers of all its subscriptions.",
            TopicMetric::Backlog => "Backlogs of all its subscriptions together.",
            TopicMetric::Failed => {
                "1 while a failure of the disk keeps the topic from working, else 0."
            }
        }
    }

    /// Whether its number only grows while the broker runs.
    pub(crate) fn grows(self) -> bool
        ensures { result ≡ topic_metric_grows self }
    {
        match self {
            TopicMetric::Sends
            | TopicMetric::Receipts
            | TopicMetric::Messages
            | TopicMetric::Acknowledgements
            | TopicMetric::Flushes
            | TopicMetric::Bytes => true,
            TopicMetric::Entries
            | TopicMetric::Trimmed
            | TopicMetric::Segments
            | TopicMetric::Waiting
            | TopicMetric::WaitingBytes
            | TopicMetric::Producers
            | TopicMetric::Subscriptions
            | TopicMetric::Consumers
            | TopicMetric::Backlog
            | TopicMetric::Failed => false,
        }
    }

    /// The number that a topic tells; none where it can't be told.
    fn value(self, topic: &TopicReport, subscriptions: &[SubscriptionSummary]) -> Option<u64>
        ensures { result ≡ topic_value self topic.now subscriptions.now }
    {
        let summary = &topic.summary;
        match self {
            TopicMetric::Sends => Some(summary.accepted),
            TopicMetric::Receipts => Some(summary.handed),
            TopicMetric::Messages => Some(topic.activity.messages),
            TopicMetric::Acknowledgements => Some(topic.activity.acknowledgements),
            TopicMetric::Flushes => Some(topic.activity.flushes),
            TopicMetric::Bytes => Some(topic.activity.bytes),
            TopicMetric::Entries => Some(summary.entries),
            TopicMetric::Trimmed => Some(topic.base),
            TopicMetric::Segments => topic.segments,
            TopicMetric::Waiting => Some(summary.waiting as u64),
            TopicMetric::WaitingBytes => Some(summary.waiting_bytes),
            TopicMetric::Producers => Some(summary.producers as u64),
            TopicMetric::Subscriptions => Some(summary.subscriptions as u64),
            TopicMetric::Consumers => Some(consumers_of(subscriptions)),
            TopicMetric::Backlog => Some(backlogs_of(summary.entries, subscriptions)),
            TopicMetric::Failed => Some(u64::from(summary.is_failed)),
        }
    }
}

/// What each subscription tells a number of.
#[derive(Clone, Copy, Debug, PartialEq, Eq)]
pub(crate) enum SubscriptionMetric {
    Backlog,
    Consumers,
    Permits,
    MarkDelete,
    Ranges,
}

impl SubscriptionMetric {
    pub(crate) fn name(self) -> &'static str
        ensures { result.now ≡ subscription_metric_name self }
    {
        match self {
            SubscriptionMetric::Backlog => "pulsar_subscription_back_log",
            SubscriptionMetric::Consumers => "pulsar_subscription_consumers_count",
            SubscriptionMetric::Permits => "zephyrslate_subscription_permits",
            SubscriptionMetric::MarkDelete => "zephyrslate_subscription_mark_delete",
            SubscriptionMetric::Ranges => "zephyrslate_subscription_ranges",
        }
    }

    /// What it means, in a line.
    pub(crate) fn help(self) -> &'static str
        ensures { result.now ≡ subscription_metric_help self }
    {
        match self {
            SubscriptionMetric::Backlog => "Entries from the first on that is not acknowledged.",
            SubscriptionMetric::Consumers => "Consumers that are attached.",
            SubscriptionMetric::Permits => {
                "Messages that its consumers would still take, as far as is known."
            }
            SubscriptionMetric::MarkDelete => {
                "Position of the first entry that is not acknowledged."
            }
            SubscriptionMetric::Ranges => "Ranges of acknowledged entries behind that position.",
        }
    }

    /// The number that a subscription tells, where its topic has so many entries.
    fn value(self, entries: u64, subscription: &SubscriptionSummary) -> u64
        ensures { result ≡ subscription_value self entries subscription.now }
    {
        match self {
            SubscriptionMetric::Backlog => backlog_of(entries, subscription),
            SubscriptionMetric::Consumers => subscription.consumers as u64,
            SubscriptionMetric::Permits => subscription.permits,
            SubscriptionMetric::MarkDelete => subscription.status.mark_delete,
            SubscriptionMetric::Ranges => subscription.status.ranges as u64,
        }
    }
}

/// How many of so many entries stand behind those that the subscription acknowledged without a gap. They are told at two moments, so
/// that fewer may be told than it acknowledged.
pub(crate) fn backlog_of(entries: u64, subscription: &SubscriptionSummary) -> u64
    ensures { result ≡ backlog_of entries subscription.now }
{
    entries.saturating_sub(subscription.status.mark_delete)
}

fn backlogs_of(entries: u64, subscriptions: &[SubscriptionSummary]) -> u64
    ensures { result ≡ capped (sum_by (backlog_of entries) subscriptions.now) }
{
    let mut sum = 0u64;
    for subscription in subscriptions {
        sum = sum.saturating_add(backlog_of(entries, subscription));
    }
    sum
}

fn consumers_of(subscriptions: &[SubscriptionSummary]) -> u64
    ensures { result ≡ capped (sum_by (λ (s : Told). s.consumers) subscriptions.now) }
{
    let mut sum = 0u64;
    for subscription in subscriptions {
        sum = sum.saturating_add(subscription.consumers as u64);
    }
    sum
}

/// Writes the sample of a topic, where it can tell the number.
pub(crate) fn print_topic_metric<W: Write>(
    metric: TopicMetric,
    picture: &Picture,
    writer: &mut W,
) -> io::Result<()>
    ensures { OnOk result (Appends (W.contents writer.old) (W.contents writer.new) (topic_metric_text metric picture.now.topic picture.now.subscriptions.items)) }
{
    let topic = &picture.topic;
    match metric.value(topic, picture.subscriptions.as_slice()) {
        Some(value) => print_topic_sample(metric.name(), topic.name.as_str(), value, writer),
        None => Ok(()),
    }
}

/// Writes the samples of a topic's subscriptions.
pub(crate) fn print_subscription_metric<W: Write>(
    metric: SubscriptionMetric,
    topic: &TopicReport,
    subscriptions: &[SubscriptionSummary],
    writer: &mut W,
) -> io::Result<()>
    ensures { OnOk result (Appends (W.contents writer.old) (W.contents writer.new) (subscription_metric_text metric topic.now subscriptions.now)) }
{
    for subscription in subscriptions {
        print_number_of(metric, topic, subscription, writer)?;
    }
    Ok(())
}

// The sample of a subscription.
fn print_number_of<W: Write>(
    metric: SubscriptionMetric,
    topic: &TopicReport,
    subscription: &SubscriptionSummary,
    writer: &mut W,
) -> io::Result<()>
    ensures { OnOk result (Appends (W.contents writer.old) (W.contents writer.new) (subscription_number_text metric topic.now subscription.now)) }
{
    let value = metric.value(topic.summary.entries, subscription);
    let (name, of) = (topic.name.as_str(), subscription.status.name.as_str());
    print_subscription_sample(metric.name(), name, of, value, writer)
}

/// Writes the metrics of the whole broker.
pub(crate) fn print_broker<W: Write>(broker: &BrokerReport, writer: &mut W) -> io::Result<()>
    ensures { OnOk result (Appends (W.contents writer.old) (W.contents writer.new) (broker_text broker.now)) }
{
    let help = "Clients that are connected.";
    print_broker_metric(
        "pulsar_active_connections",
        help,
        broker.connections,
        writer,
    )?;
    print_since(broker.since, writer)?;
    Ok(())
}

fn print_since<W: Write>(since: Option<u64>, writer: &mut W) -> io::Result<()>
    ensures { OnOk result (Appends (W.contents writer.old) (W.contents writer.new) (since_text since)) }
{
    let help = "Since when the broker serves, in seconds since 1970.";
    match since {
        Some(since) => print_broker_metric("process_start_time_seconds", help, since, writer),
        None => Ok(()),
    }
}
