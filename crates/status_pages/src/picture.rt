// What a board tells of a topic is gathered.
ghost use Rattle.std.specs.Prelude.{IfOk};
ghost use Rattle.std.specs.List.Sorted.{IsPermutation, IsSortedByKey};
ghost use Rattle.std.specs.Ordering.{nat_cmp};
ghost use Rattle.std.specs.Cmp.Lexicographic.{slice_cmp};
ghost use Rattle.subscriptions.specs.declared.summary.SubscriptionSummary.{SubscriptionSummary as Told};
ghost use Rattle.status_pages.specs.Told.{ArePlaces, AreSubscriptions, IsPictureOrNone};

use crate::board::{Board, TopicReport};
use std::alloc::{AllocError, Global};
use subscriptions::SubscriptionSummary;

/// How many topics there are at most. Our own rule.
pub(crate) const MOST_TOPICS: u64 = 64;

/// How many subscriptions a topic has at most. Our own rule.
const MOST_SUBSCRIPTIONS: usize = 64;

/// What is told of a topic and its subscriptions.
#[derive(Drop)]
pub(crate) struct Picture {
    pub(crate) topic: TopicReport,
    /// In the order of the names' bytes; none where these weren't asked for.
    pub(crate) subscriptions: Vec<SubscriptionSummary>,
}

/// What the board tells of the topic of this number, and of its subscriptions where these are asked for; none where there is no such
/// topic.
pub(crate) fn picture_of<B: Board>(
    alloc: Global,
    board: &B,
    number: u64,
    with_subscriptions: bool,
) -> Result<Option<Picture>, AllocError>
    ensures { IfOk result (IsPictureOrNone (B.topic_told board.now) (B.subscription_told board.now) with_subscriptions number) }
{
    let Some(topic) = board.topic(number)? else {
        return Ok(None);
    };
    if !with_subscriptions {
        let subscriptions = Vec::new(alloc);
        return Ok(Some(Picture {
            topic,
            subscriptions,
        }));
    }
    let subscriptions = subscriptions_of(alloc, board, number)?;
    Ok(Some(Picture {
        topic,
        subscriptions,
    }))
}

fn subscriptions_of<B: Board>(
    alloc: Global,
    board: &B,
    topic: u64,
) -> Result<Vec<SubscriptionSummary>, AllocError>
    ensures { IfOk result (λ told. AreSubscriptions (B.subscription_told board.now topic) told.items) }
{
    let mut subscriptions = places_of(alloc, board, topic)?;
    sort_by_name(&mut subscriptions);
    Ok(subscriptions)
}

// The same, in the order in which the board has them.
fn places_of<B: Board>(
    alloc: Global,
    board: &B,
    topic: u64,
) -> Result<Vec<SubscriptionSummary>, AllocError>
    ensures { IfOk result (λ told. ArePlaces (B.subscription_told board.now topic) told.items) }
{
    let mut subscriptions = Vec::new(alloc);
    for place in 0..MOST_SUBSCRIPTIONS {
        match board.subscription(topic, place)? {
            Some(subscription) => subscriptions.push(subscription)?,
            None => return Ok(subscriptions),
        }
    }
    Ok(subscriptions)
}

fn sort_by_name(subscriptions: &mut Vec<SubscriptionSummary>)
    ensures same { IsPermutation subscriptions.old.items subscriptions.new.items }
    ensures sorted { IsSortedByKey (λ (s : Told). s.status.name) (slice_cmp nat_cmp) subscriptions.new.items }
{
    subscriptions.sort_unstable_by(|a, b| a.status.name.as_str().cmp(b.status.name.as_str()));
}
