// Laws of the files.
ghost use Rattle.std.specs.Prelude.{◌≡◌, ◌⊎◌, ◌+◌, ◌<◌, ◌++◌, [], ◌∷◌, List, ℕ, All, length, take, drop};
ghost use Rattle.disk.specs.declared.file_id.Folder.{Folder};
ghost use Rattle.disk.specs.Areas.{folder_of};
ghost use Rattle.gated_log.specs.declared.label.Label.{Label};
ghost use Rattle.gated_log.specs.Labels.{header_size};
ghost use Rattle.gated_log.specs.Batches.{Bodies, AllFit, IsLog, opened, first_bodies};
ghost use Rattle.disk.specs.declared.file_id.FileId.{FileId};
ghost use Rattle.gated_log.specs.declared.refusal.Refusal.{Refusal};
ghost use Rattle.gated_log.specs.Folds.{Link, IsFault, any, behind};

use crate::Fold;

/// A file stands for one label and one list of bodies.
pub fn file_stands_for_one_list()
    ensures { (folder : Folder) (l m : Label) (one other : Bodies) (file : List ℕ) → IsLog folder l one file → IsLog folder m other file → (l ≡ m) × (one ≡ other) }
{}

/// Whatever bytes a file holds, it stands for a log or has a fault that no log has.
pub fn every_file_is_a_log_or_has_a_fault()
    ensures { (name : FileId) (file : List ℕ) → All (λ byte. byte < 256) file → ((log : Link) × IsLog (folder_of name) log.label log.bodies file) ⊎ ((fault : Refusal) × IsFault any name file fault) }
{}

/// A file that begins with these batches gives their bodies, whatever stands behind them.
pub fn batches_give_their_bodies()
    ensures { (folder : Folder) (label : Label) (bodies : Bodies) (rest file : List ℕ) → AllFit bodies → file ≡ opened folder label bodies ++ rest → first_bodies (length bodies) (drop (header_size folder) file) ≡ bodies }
{}

/// A body stands behind its gate and its length, five bytes.
pub fn bodies_stand_behind_their_gates()
    ensures { (folder : Folder) (label : Label) (before : Bodies) (body : List ℕ) (more : Bodies) → take (length body) (drop (length (opened folder label before) + 5) (opened folder label (before ++ body ∷ more))) ≡ body }
{}

/// A file has one first fault, whatever fold reads it behind these logs.
pub fn files_have_one_fault<F: Fold>()
    ensures { (rule : F.Rule) (before : List Link) (name : FileId) (file : List ℕ) (one other : Refusal) → IsFault (behind (F.form rule) before) name file one → IsFault (behind (F.form rule) before) name file other → one ≡ other }
{}

/// And a log of its form has none.
pub fn logs_have_no_fault<F: Fold>()
    ensures { (rule : F.Rule) (before : List Link) (log : Link) (name : FileId) (file : List ℕ) (refusal : Refusal) → F.form rule (before ++ log ∷ []) → IsLog (folder_of name) log.label log.bodies file → ¬ IsFault (behind (F.form rule) before) name file refusal }
{}
