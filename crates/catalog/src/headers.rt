// The headers of the lists of topics of both folders.
ghost use Rattle.std.specs.Prelude.{◌≡◌, ◌⊎◌, ◌+◌, ◌≤◌, ◌∷◌, length, drop, IfOk, IfErr, OnOk, IsErr, IsErrOf, IsTrue, IsFalse};
ghost use Rattle.disk.specs.declared.file_id.FileId.{FileId};
ghost use Rattle.disk.specs.declared.file_id.Folder.{Folder};
ghost use Rattle.disk.specs.Disk.{Same, Changes, Torn, After, Leaves, Synced, Kept, Failed};
ghost use Rattle.disk.specs.Areas.{Agree, Within, catalog_file};
ghost use Rattle.gated_log.specs.declared.label.Label.{Label};
ghost use Rattle.gated_log.specs.Labels.{header_size};
ghost use Rattle.gated_log.specs.Headers.{HasOpenHeader, IsOpen};
ghost use Rattle.catalog.specs.Catalogs.{IsCatalogLabel, IsClosedOf, Own};
ghost use Rattle.catalog.specs.Folded.{IsHeaderFault};

use crate::names_fold::is_label_of_names;
use disk::{CATALOG, DeviceError, FileId, Folder, Shelf, persist};
use gated_log::{AtHeader, LogHead, LogReader, Refusal};
use std::alloc::Global;

/// The list of topics of a folder of version 1.
pub(crate) const OLD_CATALOG: FileId = FileId::Catalog(Folder::One);

/// Whether a folder of version 1 counts: the header of its list of topics is open, whatever else stands in that file. It is synced
/// first, so that this stays.
pub fn old_counts<S: Shelf>(shelf: &mut S) -> Result<bool, DeviceError>
    ensures counts { (S.disk shelf.old).honest → IfOk result (λ counts. IsTrue counts → HasOpenHeader Folder.One ((S.disk shelf.old).seen (FileId.Catalog Folder.One))) }
    ensures shut { (S.disk shelf.old).honest → IfOk result (λ counts. IsFalse counts → ¬ HasOpenHeader Folder.One ((S.disk shelf.old).seen (FileId.Catalog Folder.One))) }
    ensures synced { OnOk result ((S.disk shelf.old).honest → Synced (FileId.Catalog Folder.One) (S.disk shelf.new)) }
    ensures seen { (S.disk shelf.old).honest → OnOk result (Same (S.disk shelf.old).seen (S.disk shelf.new).seen) }
    ensures others { (S.disk shelf.old).honest → Agree (λ f. ¬ (f ≡ FileId.Catalog Folder.One)) (S.disk shelf.old).seen (S.disk shelf.new).seen }
    ensures any_moment { (S.disk shelf.old).honest → Leaves (S.disk shelf.old).may_leave (S.disk shelf.old) (S.disk shelf.new) }
    ensures cause { IsErr result → Failed (S.disk shelf.old) (S.disk shelf.new) }
    ensures kept { Kept (S.disk shelf.old) (S.disk shelf.new) }
{
    let head = LogHead::read(shelf, OLD_CATALOG)?;
    match head.header() {
        AtHeader::Closed => Ok(false),
        AtHeader::Damaged | AtHeader::OtherVersion | AtHeader::Labelled(_) => Ok(true),
    }
}

/// Ends a folder of version 1: closes the header of its list of topics, which is the only byte of it that is ever written. A write and
/// a sync.
pub fn close_old<S: Shelf>(shelf: &mut S) -> Result<(), DeviceError>
    ensures closed { OnOk result ((S.disk shelf.old).honest → ¬ HasOpenHeader Folder.One ((S.disk shelf.new).seen (FileId.Catalog Folder.One))) }
    ensures synced { OnOk result ((S.disk shelf.old).honest → Synced (FileId.Catalog Folder.One) (S.disk shelf.new)) }
    // Its gate is 0 then, and the rest as it was.
    ensures gate { OnOk result ((S.disk shelf.old).honest → (S.disk shelf.new).seen (FileId.Catalog Folder.One) ≡ 0 ∷ drop 1 ((S.disk shelf.old).seen (FileId.Catalog Folder.One))) }
    // A crash at any moment leaves all of the file, or its header isn't open.
    ensures within { (S.disk shelf.old).honest → Synced (FileId.Catalog Folder.One) (S.disk shelf.old) → HasOpenHeader Folder.One ((S.disk shelf.old).seen (FileId.Catalog Folder.One)) →
        Within (λ f. f ≡ FileId.Catalog Folder.One) (λ c. (c (FileId.Catalog Folder.One) ≡ (S.disk shelf.old).seen (FileId.Catalog Folder.One)) ⊎ (¬ HasOpenHeader Folder.One (c (FileId.Catalog Folder.One)))) (S.disk shelf.old) (S.disk shelf.new) }
    // It leaves all of the file, or all but its gate.
    ensures left { (S.disk shelf.old).honest → Synced (FileId.Catalog Folder.One) (S.disk shelf.old) → HasOpenHeader Folder.One ((S.disk shelf.old).seen (FileId.Catalog Folder.One)) →
        Within (λ f. f ≡ FileId.Catalog Folder.One) (λ c. (c (FileId.Catalog Folder.One) ≡ (S.disk shelf.old).seen (FileId.Catalog Folder.One)) ⊎ IsClosedOf ((S.disk shelf.old).seen (FileId.Catalog Folder.One)) (c (FileId.Catalog Folder.One))) (S.disk shelf.old) (S.disk shelf.new) }
    // Whatever the file was, nothing is written but its gate, and no other file.
    ensures any_moment { (S.disk shelf.old).honest → Leaves (After (S.disk shelf.old) (Changes (FileId.Catalog Folder.One) (Torn 0 1))) (S.disk shelf.old) (S.disk shelf.new) }
    ensures others { (S.disk shelf.old).honest → Within (λ f. f ≡ FileId.Catalog Folder.One) (λ c. Unit {0}) (S.disk shelf.old) (S.disk shelf.new) }
    ensures cause { IsErr result → Failed (S.disk shelf.old) (S.disk shelf.new) }
    ensures kept { Kept (S.disk shelf.old) (S.disk shelf.new) }
{
    persist(shelf, OLD_CATALOG, 0, &[0])
}

/// Whether the list of topics of a folder of version 2 can be opened, as far as its header tells.
pub fn check_header<S: Shelf>(alloc: Global, shelf: &mut S) -> Result<(), Refusal>
    ensures sound { (S.disk shelf.old).honest → OnOk result ((label : Label) × IsCatalogLabel label × IsOpen Folder.Two label ((S.disk shelf.old).seen catalog_file)) }
    // And a gate stands behind the header.
    ensures long { (S.disk shelf.old).honest → OnOk result (header_size Folder.Two + 1 ≤ length ((S.disk shelf.old).seen catalog_file)) }
    ensures synced { OnOk result ((S.disk shelf.old).honest → Synced catalog_file (S.disk shelf.new)) }
    ensures refused { (S.disk shelf.old).honest → IfErr result (λ e. (e ≡ Refusal.Device) ⊎ IsHeaderFault ((S.disk shelf.old).seen catalog_file) e) }
    ensures cause { IsErrOf result Refusal.Device → Failed (S.disk shelf.old) (S.disk shelf.new) }
    ensures seen { (S.disk shelf.old).honest → ¬ IsErrOf result Refusal.Device → Same (S.disk shelf.old).seen (S.disk shelf.new).seen }
    ensures others { (S.disk shelf.old).honest → Agree (λ f. ¬ Own f) (S.disk shelf.old).seen (S.disk shelf.new).seen }
    ensures any_moment { (S.disk shelf.old).honest → Leaves (S.disk shelf.old).may_leave (S.disk shelf.old) (S.disk shelf.new) }
    ensures kept { Kept (S.disk shelf.old) (S.disk shelf.new) }
{
    let head = LogHead::read(shelf, CATALOG)?;
    let reader = LogReader::begin(alloc, &head)?;
    if !is_label_of_names(reader.id().label) {
        return Err(Refusal::Damaged {
            file: CATALOG,
            offset: 0,
        });
    }
    Ok(())
}
