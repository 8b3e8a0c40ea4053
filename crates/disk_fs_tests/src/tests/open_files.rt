// Which files stay open, and what is synced when.
use super::steps::{Ask, Step};
use super::{FILE, OTHER, follow_by_plan};
use std::io::ErrorKind;
use std::test::Fail;
use watched_files::Call;

// Each file is looked for and made, and the folder is opened once: nineteen. Then the first one was closed, and behind it the
// one that was used least lately.
const NINE: [Step; 10] = [
    Step::Works(&[1, 2, 3, 4, 5, 6, 7, 8, 9], Ask::Write(0, b"a")),
    Step::Made(Call::Open, 19),
    Step::Works(&[9, 2, 3, 4, 5, 6, 7, 8, 2], Ask::Length(1)),
    Step::Made(Call::Open, 19),
    Step::Works(&[1], Ask::Length(1)),
    Step::Made(Call::Open, 20),
    Step::Works(&[3], Ask::Length(1)),
    Step::Made(Call::Open, 20),
    Step::Works(&[9], Ask::Length(1)),
    Step::Made(Call::Open, 21),
];

#[test]
fn eight_files_stay_open_and_the_last_used_ones(rt: HostRuntime) -> Result<(), Fail> {
    follow_by_plan(&rt, "disk_fs_eight", &[&NINE])
}

// The ninth file closes 1, which was written; the tenth 2, which was synced; and the eleventh 3, which was cut.
const CLOSED: [Step; 12] = [
    Step::Works(&[1, 2, 3, 4, 5, 6, 7, 8], Ask::Write(0, b"ab")),
    Step::Works(&[2, 3], Ask::Sync),
    Step::Works(&[3], Ask::Cut(1)),
    Step::Made(Call::SyncFile, 2),
    Step::Works(&[9], Ask::Write(0, b"ab")),
    Step::Made(Call::SyncFile, 3),
    Step::Works(&[4, 5, 6, 7, 8], Ask::Sync),
    Step::Made(Call::SyncFile, 8),
    Step::Works(&[10], Ask::Write(0, b"ab")),
    Step::Made(Call::SyncFile, 8),
    Step::Works(&[11], Ask::Write(0, b"ab")),
    Step::Made(Call::SyncFile, 9),
];

#[test]
fn what_is_closed_is_synced_where_it_was_written(rt: HostRuntime) -> Result<(), Fail> {
    follow_by_plan(&rt, "disk_fs_closed", &[&CLOSED])
}

const HALF_WRITTEN: [Step; 8] = [
    Step::Works(&[1, 2, 3, 4, 5, 6, 7, 8], Ask::Persist(0, b"ab")),
    Step::MoveAtMost(1),
    Step::Order(Call::Write, 2, ErrorKind::StorageFull),
    Step::Fails(&[1], Ask::Write(0, b"xy")),
    Step::Works(&[2, 3, 4, 5, 6, 7, 8], Ask::Length(2)),
    Step::Made(Call::SyncFile, 8),
    Step::Works(&[9], Ask::Write(0, b"ab")),
    Step::Made(Call::SyncFile, 9),
];

#[test]
fn a_write_that_failed_is_synced_before_its_file_is_closed(rt: HostRuntime) -> Result<(), Fail> {
    follow_by_plan(&rt, "disk_fs_half", &[&HALF_WRITTEN])
}

const NEW_FILES: [Step; 8] = [
    Step::Works(&[FILE], Ask::Length(0)),
    Step::Made(Call::SyncFolder, 0),
    Step::Works(&[FILE], Ask::Write(0, b"a")),
    Step::Made(Call::SyncFolder, 1),
    Step::Works(&[FILE], Ask::Write(1, b"b")),
    Step::Made(Call::SyncFolder, 1),
    Step::Works(&[OTHER], Ask::Write(0, b"a")),
    Step::Made(Call::SyncFolder, 2),
];

// A new shelf doesn't know whether they were synced.
const OLD_FILES: [Step; 3] = [
    Step::Works(&[FILE], Ask::Length(2)),
    Step::Works(&[OTHER], Ask::Length(1)),
    Step::Made(Call::SyncFolder, 3),
];

#[test]
fn the_folder_is_synced_for_each_new_file(rt: HostRuntime) -> Result<(), Fail> {
    follow_by_plan(&rt, "disk_fs_names", &[&NEW_FILES, &OLD_FILES])
}

// The third opening is the folder's own.
const UNSYNCED_NAME: [Step; 6] = [
    Step::Order(Call::Open, 3, ErrorKind::PermissionDenied),
    Step::Fails(&[FILE], Ask::Write(0, b"a")),
    Step::HasFailed,
    Step::Made(Call::SyncFolder, 0),
    Step::Works(&[FILE], Ask::Length(0)),
    Step::Made(Call::SyncFolder, 1),
];

#[test]
fn a_name_that_could_not_be_synced_is_synced_later(rt: HostRuntime) -> Result<(), Fail> {
    follow_by_plan(&rt, "disk_fs_later", &[&UNSYNCED_NAME])
}

const WRITTEN: [Step; 1] = [Step::Works(&[FILE], Ask::Write(0, b"a"))];

const SYNCED: [Step; 2] = [
    Step::Works(&[FILE], Ask::Sync),
    Step::Made(Call::SyncFile, 1),
];

#[test]
fn a_sync_is_asked_for_though_nothing_was_written_here(rt: HostRuntime) -> Result<(), Fail> {
    follow_by_plan(&rt, "disk_fs_asked", &[&WRITTEN, &SYNCED])
}
