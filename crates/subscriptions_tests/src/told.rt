// What a topic tells of its changes and of its subscriptions.
use anyhow::{Error, bail};
use permits::Gauge;
use records::Record;
use std::alloc::{AllocError, Global};
use subscriptions::{SubscriptionStatus, SubscriptionSummary, Subscriptions};

fn change(alloc: Global, change: &Record) -> Result<String, AllocError> {
    match change {
        Record::Made { name, start } => format!(in alloc; "made {} {start}, ", name.as_str()),
        Record::Removed { name } => format!(in alloc; "removed {}, ", name.as_str()),
        Record::Acknowledged { name, position } => {
            format!(in alloc; "acknowledged {} {position}, ", name.as_str())
        }
        Record::AcknowledgedThrough { name, position } => {
            format!(in alloc; "through {} {position}, ", name.as_str())
        }
        Record::AcknowledgedRange { name, first, last } => {
            format!(in alloc; "range {} {first} {last}, ", name.as_str())
        }
    }
}

/// Each change, the earliest first.
pub(crate) fn changes<G: Gauge>(alloc: Global, subs: &Subscriptions<G>) -> Result<String, Error> {
    let mut said = String::new(alloc);
    for record in subs.changes() {
        said.push_str(change(alloc, record)?.as_str())?;
    }
    Ok(said)
}

fn status(alloc: Global, status: &SubscriptionStatus) -> Result<String, AllocError> {
    let name = status.name.as_str();
    format!(in alloc; "{name} {} {}, ", status.mark_delete, status.ranges)
}

/// The status of each subscription.
pub(crate) fn statuses<G: Gauge>(alloc: Global, subs: &Subscriptions<G>) -> Result<String, Error> {
    let mut said = String::new(alloc);
    for one in &subs.statuses()? {
        said.push_str(status(alloc, one)?.as_str())?;
    }
    Ok(said)
}

fn summary(alloc: Global, summary: &SubscriptionSummary) -> Result<String, AllocError> {
    let SubscriptionSummary {
        status,
        mode,
        consumers,
        permits,
    } = summary;
    let name = status.name.as_str();
    format!(in alloc;
        "{name} {} {} {mode:?} {consumers} {permits}, ",
        status.mark_delete, status.ranges
    )
}

/// The summary of the subscription at each place. Behind the last one none is told.
pub(crate) fn summaries<G: Gauge>(alloc: Global, subs: &Subscriptions<G>) -> Result<String, Error> {
    let mut said = String::new(alloc);
    for place in 0..subs.len() {
        let Some(one) = subs.summary(place)? else {
            bail!("no subscription at {place}");
        };
        said.push_str(summary(alloc, &one)?.as_str())?;
    }
    if subs.summary(subs.len())?.is_some() {
        bail!("a subscription behind the last one");
    }
    Ok(said)
}
