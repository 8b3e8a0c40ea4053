// A log is opened, and its bodies are handed over in the same pass.
ghost use Rattle.std.specs.Prelude.{◌≡◌, ◌⊎◌, ◌++◌, [], ◌∷◌, List, false, IfOk, IfErr, IsErrOf};
ghost use Rattle.disk.specs.Disk.{Same, Leaves, Kept, Failed};
ghost use Rattle.disk.specs.Areas.{Agree};
ghost use Rattle.gated_log.specs.Batches.{Bodies};
ghost use Rattle.gated_log.specs.Folds.{Link, IsFault, behind};
ghost use Rattle.gated_log.specs.Head.{HasHead, head_file};
ghost use Rattle.disk.specs.Contents.{Settled};
ghost use Rattle.gated_log.specs.Logs.{LogHolds, log_id, log_failed};

use crate::fold::Fold;
use crate::reader::LogReader;
use crate::{GatedLog, LogHead, Refusal};
use disk::{FileId, Shelf};
use std::alloc::Global;

impl GatedLog {
    /// Opens the file of a log, whatever a crash left of it, and hands its label and its bodies to
    /// a fold. It is synced first, so what is read stays, and read once. The first fault is told,
    /// with the offset of the gate behind which it stands.
    pub fn open_with<S: Shelf, F: Fold>(
        alloc: Global,
        shelf: &mut S,
        file: FileId,
        fold: &mut F,
    ) -> Result<GatedLog, Refusal>
        // The log holds the bodies that the fold has taken; where the device isn't honest it has taken some.
        ensures opened { (before : List Link) → F.holds fold.old before →
            IfOk result (λ log. (bodies : Bodies) × ((S.disk shelf.old).honest → Settled (LogHolds log) (S.disk shelf.new) bodies) × F.holds fold.new (before ++ record { label = (log_id log).label; bodies = bodies } ∷ [])) }
        // Or the fault that stands in the file is told.
        ensures refused { (before : List Link) → (S.disk shelf.old).honest → F.holds fold.old before →
            IfErr result (λ e. (e ≡ Refusal.NoMemory) ⊎ ((e ≡ Refusal.Device) ⊎ IsFault (behind (F.form (F.rule fold.old)) before) file ((S.disk shelf.old).seen file) e)) }
        ensures rule { F.rule fold.new ≡ F.rule fold.old }
        ensures file { IfOk result (λ log. (log_id log).file ≡ file) }
        ensures works { IfOk result (λ log. log_failed log ≡ false) }
        ensures cause { IsErrOf result Refusal.Device → Failed (S.disk shelf.old) (S.disk shelf.new) }
        ensures seen { (S.disk shelf.old).honest → ¬ IsErrOf result Refusal.Device → Same (S.disk shelf.old).seen (S.disk shelf.new).seen }
        ensures others { (S.disk shelf.old).honest → Agree (λ f. ¬ (f ≡ file)) (S.disk shelf.old).seen (S.disk shelf.new).seen }
        ensures any_moment { (S.disk shelf.old).honest → Leaves (S.disk shelf.old).may_leave (S.disk shelf.old) (S.disk shelf.new) }
        ensures kept { Kept (S.disk shelf.old) (S.disk shelf.new) }
    {
        let head = LogHead::read(shelf, file)?;
        GatedLog::open_from(alloc, shelf, &head, fold)
    }

    /// Goes on with an opening whose head was read, as `open_with`.
    pub fn open_from<S: Shelf, F: Fold>(
        alloc: Global,
        shelf: &mut S,
        head: &LogHead,
        fold: &mut F,
    ) -> Result<GatedLog, Refusal>
        ensures opened { (before : List Link) → F.holds fold.old before →
            IfOk result (λ log. (bodies : Bodies) × ((S.disk shelf.old).honest → HasHead head.now (S.disk shelf.old) → Settled (LogHolds log) (S.disk shelf.new) bodies) × F.holds fold.new (before ++ record { label = (log_id log).label; bodies = bodies } ∷ [])) }
        ensures refused { (before : List Link) → (S.disk shelf.old).honest → HasHead head.now (S.disk shelf.old) → F.holds fold.old before →
            IfErr result (λ e. (e ≡ Refusal.NoMemory) ⊎ ((e ≡ Refusal.Device) ⊎ IsFault (behind (F.form (F.rule fold.old)) before) (head_file head.now) ((S.disk shelf.old).seen (head_file head.now)) e)) }
        ensures rule { F.rule fold.new ≡ F.rule fold.old }
        ensures file { IfOk result (λ log. (log_id log).file ≡ head_file head.now) }
        ensures works { IfOk result (λ log. log_failed log ≡ false) }
        ensures cause { IsErrOf result Refusal.Device → Failed (S.disk shelf.old) (S.disk shelf.new) }
        ensures seen { (S.disk shelf.old).honest → Same (S.disk shelf.old).seen (S.disk shelf.new).seen }
        ensures any_moment { (S.disk shelf.old).honest → Leaves (S.disk shelf.old).may_leave (S.disk shelf.old) (S.disk shelf.new) }
        ensures kept { Kept (S.disk shelf.old) (S.disk shelf.new) }
    {
        let file = head.file;
        let mut reader = LogReader::begin(alloc, head)?;
        if !fold.begin(reader.id().label)? {
            return Err(Refusal::Damaged { file, offset: 0 });
        }
        'bodies: loop {
            let gate = reader.gate();
            let Some(body) = reader.next(shelf)? else {
                return Ok(reader.finish());
            };
            if !fold.body(&body)? {
                return Err(Refusal::Damaged { file, offset: gate });
            }
        }
    }
}
