// FLOW by the granter of a consumer, without any topic's lock.
ghost use Rattle.std.specs.Prelude.{◌≡◌};
ghost use Rattle.topic_lock.specs.Granting.{GrantsBy};

use bells::Bells;
use permits::{Granter, TooManyPermits};

/// What grants permits to consumers of the connection at a place, and wakes its writer for them. It has neither the topics nor what a
/// thread waits by, so no topic's lock can be taken for a FLOW.
#[derive(Drop)]
pub(crate) struct Granting<'p> {
    pub(crate) bells: &'p Bells,
    pub(crate) place: u8,
}

impl<'p> Granting<'p> {
    /// Grants so many permits more by a granter, where there is one.
    pub(crate) fn grant(
        &self,
        granter: &mut Option<Granter>,
        permits: u32,
    ) -> Result<(), TooManyPermits>
        ensures { GrantsBy granter.old permits result granter.new }
    {
        let granted = match granter {
            Some(granter) => granter.grant(u64::from(permits)),
            None => Ok(()),
        };
        self.bells.ring_writer(self.place);
        granted
    }
}
