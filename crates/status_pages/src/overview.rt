// The page for people.
use crate::board::{Board, BrokerReport, TopicReport};
use crate::escapes::write_html;
use crate::metrics::backlog_of;
use crate::picture::{MOST_TOPICS, Picture, picture_of};
use jiff::Timestamp;
use std::alloc::Global;
use std::io;
use std::io::Write;
use subscriptions::{Mode, SubscriptionSummary};

const HEAD: &str = "<!DOCTYPE html>
<html lang=\"en\">
<head>
<meta charset=\"utf-8\">
<meta name=\"viewport\" content=\"width=device-width\">
<title>Zephyrslate broker</title>
<style>
body { font: 15px/1.5 sans-serif; margin: 2em; color: #202124; }
table { border-collapse: collapse; }
th, td { padding: .2em .8em; text-align: right; border-bottom: 1px solid #dadce0; }
th { font-weight: 600; }
.text { text-align: left; }
.failed { color: #b3261e; font-weight: 600; }
</style>
</head>
<body>
<h1>Zephyrslate broker</h1>
";

const LINKS: &str =
    "<p>This page only shows; nothing can be changed here. It is of the moment in which it was asked for.
There are also <a href=\"/status\">status lines</a>, <a href=\"/metrics\">metrics</a> and <a href=\"/health\">health</a>.</p>
";

const TOPICS: &str = "<h2>Topics</h2>
<table>
<tr><th>Number</th><th class=\"text\">Topic</th><th class=\"text\">State</th><th>Entries</th><th>Trimmed</th><th>Files</th><th>Waiting</th>
<th>Waiting bytes</th><th>Producers</th><th>Subscriptions</th></tr>
";

const WORK: &str = "<h2>Work since the broker began</h2>
<table>
<tr><th>Topic</th><th>Sends</th><th>Receipts</th><th>Messages</th><th>Acknowledgements</th><th>Flushes</th><th>Committed bytes</th></tr>
";

const SUBSCRIPTIONS: &str = "<h2>Subscriptions</h2>
<table>
<tr><th>Topic</th><th class=\"text\">Subscription</th><th class=\"text\">Type</th><th>Mark-delete</th><th>Ranges</th>
<th>Backlog</th><th>Consumers</th><th>Permits</th></tr>
";

const TABLE_END: &str = "</table>\n";

const END: &str = "</body>\n</html>\n";

/// Writes the page for people, in HTML: the broker, its topics, what they did, and their subscriptions.
///
/// A fault of the writer is handed on, and how much went out isn't said; so is want of memory.
pub fn print_overview<B: Board, W: Write>(
    alloc: Global,
    board: &B,
    writer: &mut W,
) -> io::Result<()> {
    writer.write_all(HEAD.as_bytes())?;
    print_broker(&board.broker(), writer)?;
    writer.write_all(LINKS.as_bytes())?;
    writer.write_all(TOPICS.as_bytes())?;
    print_topics(board, writer)?;
    writer.write_all(TABLE_END.as_bytes())?;
    writer.write_all(WORK.as_bytes())?;
    print_work(board, writer)?;
    writer.write_all(TABLE_END.as_bytes())?;
    writer.write_all(SUBSCRIPTIONS.as_bytes())?;
    print_all_subscriptions(alloc, board, writer)?;
    writer.write_all(TABLE_END.as_bytes())?;
    writer.write_all(END.as_bytes())
}

fn print_broker<W: Write>(broker: &BrokerReport, writer: &mut W) -> io::Result<()> {
    let connections = broker.connections;
    match time_of(broker.since) {
        Some(since) => writeln!(
            writer,
            "<p>Serving since {since}. Clients connected: {connections}.</p>"
        ),
        None => writeln!(writer, "<p>Clients connected: {connections}.</p>"),
    }
}

fn time_of(since: Option<u64>) -> Option<Timestamp> {
    let seconds = i64::try_from(since?).ok()?;
    Timestamp::from_second(seconds).ok()
}

fn print_topics<B: Board, W: Write>(board: &B, writer: &mut W) -> io::Result<()> {
    for number in 0..MOST_TOPICS {
        let Some(topic) = board.topic(number)? else {
            return Ok(());
        };
        print_topic(&topic, writer)?;
    }
    Ok(())
}

fn print_topic<W: Write>(topic: &TopicReport, writer: &mut W) -> io::Result<()> {
    let (number, summary) = (topic.number, &topic.summary);
    write!(writer, "<tr><td>{number}</td><td class=\"text\">")?;
    write_html(topic.name.as_str(), writer)?;
    if summary.is_failed {
        writer.write_all(b"</td><td class=\"text failed\">failed</td>")?;
    } else {
        writer.write_all(b"</td><td class=\"text\">works</td>")?;
    }
    print_number(summary.entries, writer)?;
    print_number(topic.base, writer)?;
    match topic.segments {
        Some(segments) => print_number(segments, writer)?,
        None => writer.write_all(b"<td>?</td>")?,
    }
    print_number(summary.waiting as u64, writer)?;
    print_number(summary.waiting_bytes, writer)?;
    print_number(summary.producers as u64, writer)?;
    print_number(summary.subscriptions as u64, writer)?;
    writer.write_all(b"</tr>\n")
}

fn print_work<B: Board, W: Write>(board: &B, writer: &mut W) -> io::Result<()> {
    for number in 0..MOST_TOPICS {
        let Some(topic) = board.topic(number)? else {
            return Ok(());
        };
        print_work_of(&topic, writer)?;
    }
    Ok(())
}

fn print_work_of<W: Write>(topic: &TopicReport, writer: &mut W) -> io::Result<()> {
    let (number, summary, activity) = (topic.number, &topic.summary, &topic.activity);
    write!(writer, "<tr><td>{number}</td>")?;
    print_number(summary.accepted, writer)?;
    print_number(summary.handed, writer)?;
    print_number(activity.messages, writer)?;
    print_number(activity.acknowledgements, writer)?;
    print_number(activity.flushes, writer)?;
    print_number(activity.bytes, writer)?;
    writer.write_all(b"</tr>\n")
}

fn print_number<W: Write>(number: u64, writer: &mut W) -> io::Result<()> {
    write!(writer, "<td>{number}</td>")
}

fn print_all_subscriptions<B: Board, W: Write>(
    alloc: Global,
    board: &B,
    writer: &mut W,
) -> io::Result<()> {
    for number in 0..MOST_TOPICS {
        let Some(picture) = picture_of(alloc, board, number, true)? else {
            return Ok(());
        };
        print_subscriptions(&picture, writer)?;
    }
    Ok(())
}

fn print_subscriptions<W: Write>(picture: &Picture, writer: &mut W) -> io::Result<()> {
    for subscription in &picture.subscriptions {
        print_subscription(&picture.topic, subscription, writer)?;
    }
    Ok(())
}

fn print_subscription<W: Write>(
    topic: &TopicReport,
    subscription: &SubscriptionSummary,
    writer: &mut W,
) -> io::Result<()> {
    let (number, mode) = (topic.number, name_of(subscription.mode));
    write!(writer, "<tr><td>{number}</td><td class=\"text\">")?;
    write_html(subscription.status.name.as_str(), writer)?;
    write!(writer, "</td><td class=\"text\">{mode}</td>")?;
    print_number(subscription.status.mark_delete, writer)?;
    print_number(subscription.status.ranges as u64, writer)?;
    print_number(backlog_of(topic.summary.entries, subscription), writer)?;
    print_number(subscription.consumers as u64, writer)?;
    print_number(subscription.permits, writer)?;
    writer.write_all(b"</tr>\n")
}

// A subscription's type, as Pulsar's documents name it.
fn name_of(mode: Mode) -> &'static str {
    match mode {
        Mode::Exclusive => "Exclusive",
        Mode::Failover => "Failover",
        Mode::Shared => "Shared",
        Mode::KeyShared => "Key_Shared",
    }
}
