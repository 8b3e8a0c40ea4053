ghost use Rattle.std.specs.Prelude.{◌≡◌, ◌<◌, ◌≤◌, ℕ, true, List, [], ◌∷◌, length, Contains, IfSome, IfErr};
ghost use Rattle.gated_log.specs.declared.read_error.ReadError.{ReadError};
ghost use Rattle.topic_core.specs.Steps.{has_producer, has_consumer, Fits};
ghost use Rattle.session.specs.declared.told.Member.TheVariants.{Producer as IsProducer, Consumer as IsConsumer};
ghost use Rattle.session.specs.Broker.{Broker, topic_at, FindStep, IfFound, IfFailed, CommandStep, GrantAt, DispatchAt, SendsTo, IsQuiet, PassesOver, CollectedAt, left_at};

use crate::told::{Member, Told};
use commands::Reply;
use names::TopicName;
use permits::{Granter, TooManyPermits};
use topic_core::{Answer, Outgoing, ReadError, TopicCommand};

/// What looking for a topic gives.
#[derive(Clone, Copy, Debug, PartialEq, Eq)]
pub enum Found {
    /// The number of the topic.
    Topic(u64),
    /// The topic isn't there, and no other one may be made.
    TooMany,
    /// Memory was refused; at most the name in doubt was settled.
    NoMemory,
    /// The device failed in this call, in looking for the topic or in making it; whether a topic of this name is there is settled
    /// by the next search, or by a crash.
    Failed,
}

/// What a session asks of a broker.
pub trait Port {
    /// What a topic answers a command.
    type Answered: Told<Question = TopicCommand, Said = Answer>;

    /// What a topic gives a consumer, of this id.
    type Sent: Told<Question = u64, Said = Result<Option<Outgoing>, ReadError>>;

    /// Whether a session has a producer or a consumer there.
    type Had: Told<Question = Member, Said = bool>;

    /// That a topic looked what was granted to a consumer, of this id.
    type Looked: Told<Question = u64, Said = ()>;

    /// Whether a topic has nothing for the consumers of a session.
    type Quiet: Told<Question = (), Said = bool>;

    /// The first reply that a topic had due.
    type Collected: Told<Question = (), Said = Option<Reply>>;

    /// That a session left a topic.
    type Left: Told<Question = (), Said = ()>;

    /// The abstract broker.
    ghost broker: { Self → Broker };

    /// How many topics there are.
    ghost count: { Self → ℕ };

    /// Nobody else changes the broker between two calls.
    ghost sole: { Self → Type 0 };

    /// What calls may do besides what they do to the abstract broker.
    ghost passes: { Self → Self → Type 0 };

    /// What searches for these names may do besides, and what calls may do around them: a topic that is made is written.
    ghost works: { List (List ℕ) → Self → Self → Type 0 };

    /// The device failed between the two.
    ghost fails: { Self → Self → Type 0 };

    /// A message of the topic of this number was refused so between the two, and there is a cause for it.
    ghost refuses: { Self → ℕ → ReadError → Self → Type 0 };

    /// Where clients find the broker, of which it tells those that look for a topic's.
    fn service_url(&self) -> &str
        ensures url { sole self.now → result.now ≡ (broker self.now).service_url }
        ensures short { length result.now ≤ 65535 };

    /// How many topics there are. Their numbers count from 0.
    fn topics(&self) -> u64
        ensures { result ≡ count self.now };

    /// Whether the session has this producer on the topic, open or closing.
    fn has_producer(&self, topic: u64, who: u64, producer_id: u64) -> Self::Had
        requires { topic < count self.now }
        ensures about { (Self.Had.topic result ≡ topic) × (Self.Had.who result ≡ who) × (Self.Had.asked result ≡ IsProducer producer_id) }
        ensures told { sole self.now → Self.Had.said result ≡ has_producer (topic_at (broker self.now) topic) who producer_id };

    /// Whether the session has this consumer on the topic.
    fn has_consumer(&self, topic: u64, who: u64, consumer_id: u64) -> Self::Had
        requires { topic < count self.now }
        ensures about { (Self.Had.topic result ≡ topic) × (Self.Had.who result ≡ who) × (Self.Had.asked result ≡ IsConsumer consumer_id) }
        ensures told { sole self.now → Self.Had.said result ≡ has_consumer (topic_at (broker self.now) topic) who consumer_id };

    /// The number of the topic of this name, which is made where it isn't there.
    fn find(&mut self, name: &TopicName) -> Found
        ensures step { sole self.old → FindStep (broker self.old) name.now result (broker self.new) }
        ensures there { IfFound result (λ number. number < count self.new) }
        ensures failed { IfFailed result (fails self.old self.new) }
        ensures works { works (name.now ∷ []) self.old self.new };

    /// Has a topic work a session's command.
    fn command(&mut self, topic: u64, who: u64, command: TopicCommand) -> Self::Answered
        requires { topic < count self.old }
        ensures about { (Self.Answered.topic result ≡ topic) × (Self.Answered.who result ≡ who) × (Self.Answered.asked result ≡ command) }
        ensures step { sole self.old → CommandStep (broker self.old) topic who command (Self.Answered.said result) (broker self.new) }
        ensures fits { Fits command (Self.Answered.said result) }
        ensures passes { passes self.old self.new };

    /// The granter of the consumer that the session subscribed last, where the session is to keep it. It is given once.
    fn take_granter(&mut self) -> Option<Granter>
        ensures same { sole self.old → broker self.new ≡ broker self.old }
        ensures passes { passes self.old self.new };

    /// Grants so many messages more to a consumer of the session, by its granter where the session keeps that one.
    fn grant(
        &mut self,
        topic: u64,
        who: u64,
        consumer_id: u64,
        granter: &mut Option<Granter>,
        permits: u32,
    ) -> Result<(), TooManyPermits>
        requires { topic < count self.old }
        ensures step { sole self.old → GrantAt (broker self.old) topic who consumer_id permits result (broker self.new) }
        ensures passes { passes self.old self.new };

    /// Looks what the session granted to a consumer, where it may have granted permits since it was looked last. Changes nothing.
    fn look(&mut self, topic: u64, who: u64, consumer_id: u64) -> Self::Looked
        requires { topic < count self.old }
        ensures about { (Self.Looked.topic result ≡ topic) × (Self.Looked.who result ≡ who) × (Self.Looked.asked result ≡ consumer_id) }
        ensures same { sole self.old → broker self.new ≡ broker self.old }
        ensures passes { passes self.old self.new };

    /// A message for a consumer of the session, which holds it from then on.
    fn dispatch(&mut self, topic: u64, who: u64, consumer_id: u64) -> Self::Sent
        requires { topic < count self.old }
        ensures about { (Self.Sent.topic result ≡ topic) × (Self.Sent.who result ≡ who) × (Self.Sent.asked result ≡ consumer_id) }
        ensures step { sole self.old → DispatchAt (broker self.old) topic who consumer_id (Self.Sent.said result) (broker self.new) }
        ensures sends { SendsTo consumer_id (Self.Sent.said result) }
        ensures refused { IfErr (Self.Sent.said result) (λ why. refuses self.old topic why self.new) }
        ensures passes { passes self.old self.new };

    /// Whether a topic has nothing for the consumers of a session. Changes nothing.
    fn is_quiet(&mut self, topic: u64, who: u64) -> Self::Quiet
        requires { topic < count self.old }
        ensures about { (Self.Quiet.topic result ≡ topic) × (Self.Quiet.who result ≡ who) }
        ensures same { sole self.old → broker self.new ≡ broker self.old }
        ensures none { sole self.old → Self.Quiet.said result ≡ true → IsQuiet (broker self.old) topic who }
        ensures passes { passes self.old self.new };

    /// The first topic from this number on that may have something due to the session. Those that are passed over have nothing.
    fn next_due(&self, who: u64, from: u64) -> Option<u64>
        ensures there { IfSome result (λ topic. (from ≤ topic) × (topic < count self.now)) }
        ensures passed_over { sole self.now → PassesOver (broker self.now) who from result };

    /// Takes the first reply that a topic has due to the session.
    fn collect(&mut self, topic: u64, who: u64) -> Self::Collected
        requires { topic < count self.old }
        ensures about { (Self.Collected.topic result ≡ topic) × (Self.Collected.who result ≡ who) }
        ensures step { sole self.old → CollectedAt (broker self.old) topic who (Self.Collected.said result) (broker self.new) }
        ensures passes { passes self.old self.new };

    /// The session leaves a topic.
    fn leave(&mut self, topic: u64, who: u64) -> Self::Left
        requires { topic < count self.old }
        ensures about { (Self.Left.topic result ≡ topic) × (Self.Left.who result ≡ who) }
        ensures step { sole self.old → broker self.new ≡ left_at (broker self.old) topic who }
        ensures passes { passes self.old self.new };

    ghost passes_nothing: { (port : Self) → passes port port };

    ghost passes_both: { (a b c : Self) → passes a b → passes b c → passes a c };

    ghost passes_sole: { (a b : Self) → passes a b → sole a → sole b };

    ghost passes_works: { (names : List (List ℕ)) (a b : Self) → passes a b → works names a b };

    ghost works_both: { (names : List (List ℕ)) (a b c : Self) → works names a b → works names b c → works names a c };

    /// Searches for some names are searches for more.
    ghost works_more: { (few more : List (List ℕ)) (a b : Self) → ((name : List ℕ) → Contains few name → Contains more name) → works few a b → works more a b };

    ghost works_sole: { (names : List (List ℕ)) (a b : Self) → works names a b → sole a → sole b };

    /// The count never falls.
    ghost works_count: { (names : List (List ℕ)) (a b : Self) → works names a b → count a ≤ count b };

    /// A failure between two calls was one between an earlier one and a later one.
    ghost fails_within: { (names : List (List ℕ)) (a b c d : Self) → works names a b → works names b c → works names c d → fails b c → fails a d };

    /// What was refused between two calls was refused between an earlier one and a later one.
    ghost refuses_within: { (a b c d : Self) (topic : ℕ) (why : ReadError) → passes a b → passes b c → passes c d → refuses b topic why c → refuses a topic why d };

    /// The count never falls.
    ghost passes_count: { (a b : Self) → passes a b → count a ≤ count b };

    /// It is the abstract broker's.
    ghost counts_topics: { (port : Self) → sole port → count port ≡ length (broker port).topics };
}
