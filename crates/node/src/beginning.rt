// A topic of a node is made, or opened.
ghost use Rattle.std.specs.Prelude.{◌≡◌, ◌⊎◌, ◌≤◌, ◌^◌, None, IfOk, IfErr, IsErr, IsErrOf};
ghost use Rattle.disk.specs.Disk.{Same, Leaves, Kept, Failed};
ghost use Rattle.disk.specs.Areas.{Agree, OfTopic, Within};
ghost use Rattle.gated_log.specs.declared.refusal.Refusal.TheVariants.{Device, NoMemory};
ghost use Rattle.managed_ledger.specs.Entries.{end_of};
ghost use Rattle.topic_core.specs.Messages.{marks_of};
ghost use Rattle.topic_core.specs.State.{opened};
ghost use Rattle.topic_core.specs.Standing.{Match, resting};
ghost use Rattle.session.specs.Broker.{fresh};
ghost use Rattle.node.specs.Numbers.{IsNumbered};
ghost use Rattle.node.specs.Standing.{HeldStands};

use crate::held::{Core, Held};
use disk::{DeviceError, Shelf};
use gated_log::Refusal;
use std::alloc::Global;
use topic_core::TopicStore;

impl<T: TopicStore> Held<T> {
    /// A topic over its store, with no flush under way.
    fn at_rest(core: Core, stores: T) -> Held<T>
        requires { Match (resting core.failed) core (T.view stores) }
        ensures { (result.core ≡ core) × (result.stores ≡ stores) × (result.flight ≡ None) }
    {
        Held {
            core,
            stores,
            flight: None,
        }
    }

    /// Makes the files of a topic, whatever was in them, and the topic over them that nothing happened to. Takes no memory.
    pub(crate) fn create<S: Shelf>(
        alloc: Global,
        shelf: &mut S,
        number: u16,
        per_ledger: u32,
    ) -> Result<Held<T>, DeviceError>
        requires { 1 ≤ per_ledger }
        ensures fresh { IfOk result (λ held. held.core ≡ fresh per_ledger) }
        ensures rests { IfOk result (λ held. held.flight ≡ None) }
        ensures numbered { IfOk result (λ held. IsNumbered per_ledger number held) }
        ensures stands { (S.disk shelf.old).honest → IfOk result (λ held. HeldStands held (S.disk shelf.new)) }
        ensures others { (S.disk shelf.old).honest → Within (OfTopic number) (λ c. Unit {0}) (S.disk shelf.old) (S.disk shelf.new) }
        ensures cause { IsErr result → Failed (S.disk shelf.old) (S.disk shelf.new) }
        ensures kept { Kept (S.disk shelf.old) (S.disk shelf.new) }
    {
        let (core, stores) = Core::create(alloc, shelf, number, per_ledger)?;
        Ok(Held::at_rest(core, stores))
    }

    /// Opens the topic of a number, whatever its files hold. Each is synced once and read once, and nothing is written. The first
    /// fault that stands in them is told.
    pub(crate) fn open<S: Shelf>(
        alloc: Global,
        shelf: &mut S,
        number: u16,
        per_ledger: u32,
    ) -> Result<Held<T>, Refusal>
        requires { 1 ≤ per_ledger }
        ensures opened { IfOk result (λ held. held.core ≡ opened per_ledger held.core.ledger (marks_of held.core.ledger) held.core.kept) }
        ensures few { IfOk result (λ held. end_of held.core.ledger ≤ 2 ^ 62) }
        ensures rests { IfOk result (λ held. held.flight ≡ None) }
        ensures numbered { IfOk result (λ held. IsNumbered per_ledger number held) }
        ensures stands { (S.disk shelf.old).honest → IfOk result (λ held. HeldStands held (S.disk shelf.new)) }
        ensures found { (S.disk shelf.old).honest → IfOk result (λ held. T.stands number (S.disk shelf.old).seen held.core.ledger held.core.kept) }
        ensures refused { (S.disk shelf.old).honest → IfErr result (λ e. (e ≡ NoMemory) ⊎ ((e ≡ Device) ⊎ T.faulty number (S.disk shelf.old).seen e)) }
        ensures cause { IsErrOf result Device → Failed (S.disk shelf.old) (S.disk shelf.new) }
        ensures seen { (S.disk shelf.old).honest → ¬ IsErrOf result Device → Same (S.disk shelf.old).seen (S.disk shelf.new).seen }
        ensures others { (S.disk shelf.old).honest → Agree (λ f. ¬ OfTopic number f) (S.disk shelf.old).seen (S.disk shelf.new).seen }
        ensures any_moment { (S.disk shelf.old).honest → Leaves (S.disk shelf.old).may_leave (S.disk shelf.old) (S.disk shelf.new) }
        ensures kept { Kept (S.disk shelf.old) (S.disk shelf.new) }
    {
        let (core, stores) = Core::open(alloc, shelf, number, per_ledger)?;
        Ok(Held::at_rest(core, stores))
    }
}
