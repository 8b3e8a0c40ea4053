// Lines in the text format of Prometheus.
ghost use Rattle.std.specs.Prelude.{OnOk};
ghost use Rattle.std.specs.Io.KnownBytes.{Appends};
ghost use Rattle.status_pages.specs.Metrics.{metric_head, topic_sample, subscription_sample, broker_metric_text};

use crate::escapes::write_label;
use std::io;
use std::io::Write;

/// Writes what stands before the samples of a metric.
pub(crate) fn print_metric_head<W: Write>(
    name: &str,
    help: &str,
    grows: bool,
    writer: &mut W,
) -> io::Result<()>
    ensures { OnOk result (Appends (W.contents writer.old) (W.contents writer.new) (metric_head name.now help.now grows)) }
{
    writeln!(writer, "# HELP {name} {help}")?;
    if grows {
        writeln!(writer, "# TYPE {name} counter")
    } else {
        writeln!(writer, "# TYPE {name} gauge")
    }
}

/// Writes a topic's sample.
pub(crate) fn print_topic_sample<W: Write>(
    name: &str,
    topic: &str,
    value: u64,
    writer: &mut W,
) -> io::Result<()>
    ensures { OnOk result (Appends (W.contents writer.old) (W.contents writer.new) (topic_sample name.now topic.now value)) }
{
    write!(writer, "{name}{{topic=\"")?;
    write_label(topic, writer)?;
    writeln!(writer, "\"}} {value}")
}

/// Writes a subscription's sample.
pub(crate) fn print_subscription_sample<W: Write>(
    name: &str,
    topic: &str,
    subscription: &str,
    value: u64,
    writer: &mut W,
) -> io::Result<()>
    ensures { OnOk result (Appends (W.contents writer.old) (W.contents writer.new) (subscription_sample name.now topic.now subscription.now value)) }
{
    write!(writer, "{name}{{topic=\"")?;
    write_label(topic, writer)?;
    write!(writer, "\",subscription=\"")?;
    write_label(subscription, writer)?;
    writeln!(writer, "\"}} {value}")
}

/// Writes a metric of the whole broker.
pub(crate) fn print_broker_metric<W: Write>(
    name: &str,
    help: &str,
    value: u64,
    writer: &mut W,
) -> io::Result<()>
    ensures { OnOk result (Appends (W.contents writer.old) (W.contents writer.new) (broker_metric_text name.now help.now value)) }
{
    print_metric_head(name, help, false, writer)?;
    writeln!(writer, "{name} {value}")
}
