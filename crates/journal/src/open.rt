// A journal is opened, and its bodies are handed over in the same pass.
ghost use Rattle.std.specs.Prelude.{◌≡◌, ◌⊎◌, ◌≤◌, ◌^◌, [], false, IfOk, IfErr, IsErrOf};
ghost use Rattle.disk.specs.Disk.{Same, Leaves, Kept, Failed};
ghost use Rattle.disk.specs.Areas.{Agree};
ghost use Rattle.journal.specs.Chains.{Chain, SegmentsOf, links_of};
ghost use Rattle.journal.specs.Folded.{IsChainFault, refusal_of_named};
ghost use Rattle.journal.specs.Journals.{Settled, topic_of, first_of, failed};

use crate::Journal;
use crate::segment_fold::SegmentFold;
use disk::{FileId, Shelf, TopicId};
use gated_log::{Fold, GatedLog, Refusal};
use std::alloc::Global;
use std::collections::VecDeque;

// The refusal of a file that is named: no header is damage at its offset 0.
fn named(file: FileId, refusal: Refusal) -> Refusal
    ensures { result ≡ refusal_of_named file refusal }
{
    match refusal {
        Refusal::NotInitialised => Refusal::Damaged { file, offset: 0 },
        Refusal::Device
        | Refusal::Damaged { .. }
        | Refusal::Version
        | Refusal::NoMemory
        | Refusal::TooLarge => refusal,
    }
}

impl Journal {
    /// Opens the journal of a topic from this segment on, whatever a crash left of its segments, and
    /// hands the labels in their headers and their bodies to a fold. Each segment is synced first, so
    /// what is read stays, and read once. The first fault is told, with its segment and the offset of
    /// the gate behind which it stands.
    pub fn open_with<S: Shelf, F: Fold + Drop>(
        alloc: Global,
        shelf: &mut S,
        topic: TopicId,
        first: u64,
        fold: F,
    ) -> Result<(Journal, F), Refusal>
        requires { first ≤ 2 ^ 62 }
        // The journal is the chain whose bodies the fold has taken; where the device isn't honest it has taken some.
        ensures opened { F.holds fold [] →
            IfOk result (λ opened. (chain : Chain) × ((S.disk shelf.old).honest → Settled opened.0 (S.disk shelf.new) chain) × F.holds opened.1 (links_of chain)) }
        // Or the first fault that stands in the segments is told.
        ensures refused { (S.disk shelf.old).honest → F.holds fold [] →
            IfErr result (λ e. (e ≡ Refusal.NoMemory) ⊎ ((e ≡ Refusal.Device) ⊎ IsChainFault (F.form (F.rule fold)) topic first (S.disk shelf.old).seen e)) }
        ensures rule { IfOk result (λ opened. F.rule opened.1 ≡ F.rule fold) }
        ensures topic { IfOk result (λ opened. topic_of opened.0 ≡ topic) }
        ensures first { IfOk result (λ opened. first_of opened.0 ≡ first) }
        ensures works { IfOk result (λ opened. failed opened.0 ≡ false) }
        ensures cause { IsErrOf result Refusal.Device → Failed (S.disk shelf.old) (S.disk shelf.new) }
        ensures seen { (S.disk shelf.old).honest → ¬ IsErrOf result Refusal.Device → Same (S.disk shelf.old).seen (S.disk shelf.new).seen }
        ensures others { (S.disk shelf.old).honest → Agree (λ f. ¬ SegmentsOf topic f) (S.disk shelf.old).seen (S.disk shelf.new).seen }
        ensures any_moment { (S.disk shelf.old).honest → Leaves (S.disk shelf.old).may_leave (S.disk shelf.old) (S.disk shelf.new) }
        ensures kept { Kept (S.disk shelf.old) (S.disk shelf.new) }
    {
        let mut closed = VecDeque::new(alloc);
        let mut segment = SegmentFold { fold, ended: true };
        'segments: loop {
            let file = FileId::Segment {
                topic,
                number: first + closed.len() as u64,
            };
            let last = match GatedLog::open_with(alloc, shelf, file, &mut segment) {
                Ok(log) => log,
                Err(refusal) => return Err(named(file, refusal)),
            };
            if !segment.ended {
                let SegmentFold { fold, .. } = segment;
                let journal = Journal {
                    alloc,
                    topic,
                    first,
                    closed,
                    last,
                    failed: false,
                };
                return Ok((journal, fold));
            }
            closed.push_back(last)?;
        }
    }
}
