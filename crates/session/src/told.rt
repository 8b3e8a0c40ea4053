// What a broker tells its sessions.
ghost use Rattle.std.specs.Prelude.{◌≡◌, ℕ};

use std::snapshot::Snapshot;

/// Opens what a topic told a session. Sessions alone have ears.
#[derive(Drop)]
pub struct Ear {
    is_sealed: (),
}

/// What a session may have on a topic, by its id there.
#[derive(Clone, Copy, Debug, PartialEq, Eq)]
pub enum Member {
    Producer(u64),
    Consumer(u64),
}

/// What a topic told a session that asked it. A port may hand it on sealed, so that it can neither make one up nor open, alter or
/// drop one.
pub trait Told {
    /// What a session may ask, beside which topic and who asks.
    type Question;

    /// What it is told.
    type Said;

    /// The number of the topic.
    ghost topic: { Self → ℕ };

    /// The number of the session.
    ghost who: { Self → ℕ };

    /// What was asked.
    ghost asked: { Self → Self.Question };

    /// What was told.
    ghost said: { Self → Self.Said };

    /// What was told.
    fn open(self, ear: Ear) -> Self::Said
        ensures { result ≡ said self };
}

/// What a topic told the session that hears it.
pub(crate) fn hear<T: Told>(told: T) -> T::Said
    ensures { result ≡ T.said told }
{
    told.open(Ear { is_sealed: () })
}

/// What a topic told a session, over a port that seals nothing.
pub struct Plain<Q, X> {
    pub topic: u64,
    pub who: u64,
    pub asked: Snapshot<Q>,
    pub said: X,
}

impl<Q, X> Plain<Q, X> {
    /// What a topic told a session that asked this.
    pub fn new(topic: u64, who: u64, asked: &Q, said: X) -> Plain<Q, X>
        ensures about { (result.topic ≡ topic) × (result.who ≡ who) × (result.asked.value ≡ asked.now) }
        ensures said { result.said ≡ said }
    {
        Plain {
            topic,
            who,
            asked: Snapshot::of(asked),
            said,
        }
    }
}

impl<Q, X> Told for Plain<Q, X> {
    type Question = Q;

    type Said = X;

    ghost topic = { λ told. told.topic };

    ghost who = { λ told. told.who };

    ghost asked = { λ told. told.asked.value };

    ghost said = { λ told. told.said };

    fn open(self, _ear: Ear) -> X {
        let Plain {
            topic: _,
            who: _,
            asked,
            said,
        } = self;
        drop(asked);
        said
    }
}
