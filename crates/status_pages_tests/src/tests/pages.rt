use crate::tests::board::Plain;
use status_pages::{is_healthy, print_metrics, print_overview, print_status};
use std::test::Fail;

#[test]
fn lines_are_those_of_inspect(rt: HostRuntime) -> Result<(), Fail> {
    let board = Plain::new(rt.alloc(), 2, false)?;
    let mut page = Vec::new(rt.alloc());
    print_status(rt.alloc(), &board, &mut page)?;
    let wanted = concat!(
        "T    0         20          4      2 persistent://a/b/c\n",
        "S    0         25      3 a\"\\\n<b>&'\n",
        "S    0          7      3 z\n",
        "T    1         20          4      ? persistent://a/b/c\n",
        "S    1         25      3 a\"\\\n<b>&'\n",
        "S    1          7      3 z\n",
    );
    assert_eq!(rt; str::from_utf8(&page)?, wanted);
    Ok(())
}

#[test]
fn metrics_are_in_the_format_of_prometheus(rt: HostRuntime) -> Result<(), Fail> {
    let board = Plain::new(rt.alloc(), 2, true)?;
    let mut page = Vec::new(rt.alloc());
    print_metrics(rt.alloc(), &board, &mut page)?;
    let page = str::from_utf8(&page)?;
    let begin = concat!(
        "# HELP pulsar_active_connections Clients that are connected.\n",
        "# TYPE pulsar_active_connections gauge\n",
        "pulsar_active_connections 3\n",
        "# HELP process_start_time_seconds Since when the broker serves, in seconds since 1970.\n",
        "# TYPE process_start_time_seconds gauge\n",
        "process_start_time_seconds 1700000000\n",
        "# HELP pulsar_in_messages_total SENDs that were accepted since the broker began.\n",
        "# TYPE pulsar_in_messages_total counter\n",
        "pulsar_in_messages_total{topic=\"persistent://a/b/c\"} 12\n",
    );
    assert!(rt; page.starts_with(begin), "{page}");
    for line in [
        "\nzephyrslate_receipts_total{topic=\"persistent://a/b/c\"} 8\n",
        "\npulsar_out_messages_total{topic=\"persistent://a/b/c\"} 31\n",
        " counter\nzephyrslate_acknowledgements_total{topic=\"persistent://a/b/c\"} 30\n",
        " counter\nzephyrslate_flushes_total{topic=\"persistent://a/b/c\"} 6\n",
        " counter\nzephyrslate_committed_bytes_total{topic=\"persistent://a/b/c\"} 700\n",
        "\nzephyrslate_entries{topic=\"persistent://a/b/c\"} 20\n",
        " gauge\nzephyrslate_trimmed_entries{topic=\"persistent://a/b/c\"} 4\n",
        " gauge\nzephyrslate_segments{topic=\"persistent://a/b/c\"} 2\n# HELP",
        "\nzephyrslate_waiting_entries{topic=\"persistent://a/b/c\"} 4\n",
        "\nzephyrslate_waiting_bytes{topic=\"persistent://a/b/c\"} 4096\n",
        "\npulsar_producers_count{topic=\"persistent://a/b/c\"} 1\n",
        "\npulsar_subscriptions_count{topic=\"persistent://a/b/c\"} 2\n",
        "\npulsar_consumers_count{topic=\"persistent://a/b/c\"} 4\n",
        "\npulsar_msg_backlog{topic=\"persistent://a/b/c\"} 13\n",
        "\nzephyrslate_topic_failed{topic=\"persistent://a/b/c\"} 1\n",
        "\npulsar_subscription_back_log{topic=\"persistent://a/b/c\",subscription=\"z\"} 13\n",
        "\nzephyrslate_subscription_permits{topic=\"persistent://a/b/c\",subscription=\"a\\\"\\\\\\n<b>&'\"} 1000\n",
        "\nzephyrslate_subscription_ranges{topic=\"persistent://a/b/c\",subscription=\"z\"} 3\n",
    ] {
        assert!(rt; page.contains(line), "{line} in {page}");
    }
    Ok(())
}

#[test]
fn a_failed_topic_is_told(rt: HostRuntime) -> Result<(), Fail> {
    assert!(rt; is_healthy(&Plain::new(rt.alloc(), 0, true)?)?);
    assert!(rt; is_healthy(&Plain::new(rt.alloc(), 64, false)?)?);
    assert!(rt; !is_healthy(&Plain::new(rt.alloc(), 64, true)?)?);
    Ok(())
}

#[test]
fn markup_of_names_is_text(rt: HostRuntime) -> Result<(), Fail> {
    let board = Plain::new(rt.alloc(), 1, true)?;
    let mut page = Vec::new(rt.alloc());
    print_overview(rt.alloc(), &board, &mut page)?;
    let page = str::from_utf8(&page)?;
    for text in [
        "a&quot;\\\n&lt;b&gt;&amp;&#39;",
        "Serving since 2023-11-14T22:13:20Z. Clients connected: 3.",
        "failed</td><td>20</td><td>4</td><td>2</td>",
        "<tr><td>0</td><td>12</td><td>8</td><td>31</td><td>30</td><td>6</td><td>700</td></tr>",
        "Key_Shared",
    ] {
        assert!(rt; page.contains(text), "{text} in {page}");
    }
    assert!(rt; !page.contains("<b>"));
    Ok(())
}
