// Calls of the system that fail, are interrupted, or move few bytes.
use super::steps::{Ask, Step};
use super::{FILE, OTHER, follow_by_plan};
use std::io::ErrorKind;
use std::test::Fail;
use watched_files::Call;

const FAILED_SYNC: [Step; 4] = [
    Step::Works(&[FILE], Ask::Write(0, b"abc")),
    Step::Order(Call::SyncFile, 1, ErrorKind::Other),
    Step::Fails(&[FILE], Ask::Sync),
    Step::HasGivenUp,
];

// A name and its folder are opened by three calls where the file is made, and by two behind it.
const SYNCED_BY_THE_SAME: [Step; 8] = [
    Step::Works(&[FILE], Ask::Write(0, b"abc")),
    Step::Order(Call::SyncFile, 1, ErrorKind::Other),
    Step::Fails(&[FILE], Ask::Sync),
    Step::HasGivenUp,
    Step::Made(Call::Open, 3),
    Step::Works(&[FILE], Ask::Sync),
    Step::Made(Call::Open, 5),
    Step::Works(&[FILE], Ask::Read(0, 3, *b"abc------")),
];

#[test]
fn a_sync_begins_anew(rt: HostRuntime) -> Result<(), Fail> {
    follow_by_plan(&rt, "disk_fs_anew", &[&SYNCED_BY_THE_SAME])
}

const MADE_BY_THE_SAME: [Step; 9] = [
    Step::Works(&[FILE], Ask::Write(0, b"abcd")),
    Step::Order(Call::SyncFile, 2, ErrorKind::Other),
    Step::Works(&[FILE], Ask::Sync),
    Step::Fails(&[FILE], Ask::Sync),
    Step::HasGivenUp,
    Step::Works(&[FILE], Ask::Cut(0)),
    Step::Works(&[FILE], Ask::Write(0, b"abc")),
    Step::Works(&[FILE], Ask::Sync),
    Step::Works(&[FILE], Ask::Length(3)),
];

#[test]
fn a_cut_to_nothing_begins_anew(rt: HostRuntime) -> Result<(), Fail> {
    follow_by_plan(&rt, "disk_fs_cut_anew", &[&MADE_BY_THE_SAME])
}

const SYNCED_ANEW: [Step; 3] = [
    Step::Works(&[FILE], Ask::Sync),
    Step::Works(&[FILE], Ask::Length(3)),
    Step::Works(&[FILE], Ask::Read(0, 3, *b"abc------")),
];

#[test]
fn after_a_sync_that_failed_all_fails(rt: HostRuntime) -> Result<(), Fail> {
    follow_by_plan(&rt, "disk_fs_sync", &[&FAILED_SYNC, &SYNCED_ANEW])
}

const FAILED_FOLDER_SYNC: [Step; 4] = [
    Step::Order(Call::SyncFolder, 1, ErrorKind::Other),
    Step::Fails(&[FILE], Ask::Write(0, b"abc")),
    Step::HasFailed,
    Step::HasGivenUp,
];

const WRITTEN_ANEW: [Step; 2] = [
    Step::Works(&[FILE], Ask::Write(0, b"abc")),
    Step::Works(&[FILE], Ask::Sync),
];

#[test]
fn after_a_folder_sync_that_failed_all_fails(rt: HostRuntime) -> Result<(), Fail> {
    follow_by_plan(
        &rt,
        "disk_fs_folder_sync",
        &[&FAILED_FOLDER_SYNC, &WRITTEN_ANEW],
    )
}

const FAILED_SYNC_BEFORE_A_CLOSE: [Step; 6] = [
    Step::Works(&[FILE], Ask::Write(0, b"abc")),
    Step::Works(&[4, 5, 6, 7, 8, 9, 10], Ask::Write(0, b"a")),
    Step::Order(Call::SyncFile, 1, ErrorKind::StorageFull),
    Step::Fails(&[OTHER], Ask::Write(0, b"a")),
    Step::HasFailed,
    Step::HasGivenUp,
];

#[test]
fn after_a_sync_before_a_close_that_failed_all_fails(rt: HostRuntime) -> Result<(), Fail> {
    follow_by_plan(&rt, "disk_fs_close_sync", &[&FAILED_SYNC_BEFORE_A_CLOSE])
}

const OTHER_FAILURES: [Step; 16] = [
    Step::Works(&[FILE], Ask::Write(0, b"abc")),
    Step::Order(Call::Read, 1, ErrorKind::Other),
    Step::Fails(&[FILE], Ask::Read(0, 3, *b"abc------")),
    Step::Order(Call::Write, 1, ErrorKind::StorageFull),
    Step::Fails(&[FILE], Ask::Write(3, b"d")),
    Step::Order(Call::Length, 1, ErrorKind::Other),
    Step::Fails(&[FILE], Ask::Length(3)),
    Step::Order(Call::Length, 1, ErrorKind::Other),
    Step::Fails(&[FILE], Ask::Cut(1)),
    Step::Order(Call::SetLength, 1, ErrorKind::Other),
    Step::Fails(&[FILE], Ask::Cut(1)),
    Step::Order(Call::Open, 1, ErrorKind::PermissionDenied),
    Step::Fails(&[OTHER], Ask::Length(0)),
    Step::HasFailed,
    Step::Works(&[FILE], Ask::Length(3)),
    Step::Works(&[FILE], Ask::Read(0, 3, *b"abc------")),
];

#[test]
fn any_other_failure_is_of_one_call(rt: HostRuntime) -> Result<(), Fail> {
    follow_by_plan(&rt, "disk_fs_one", &[&OTHER_FAILURES])
}

// The read makes five calls: three of two bytes, one that is interrupted, and the end.
const FEW_BYTES: [Step; 9] = [
    Step::MoveAtMost(2),
    Step::Order(Call::Write, 2, ErrorKind::Interrupted),
    Step::Works(&[FILE], Ask::Write(0, b"abcdefg")),
    Step::IsSpent,
    Step::Made(Call::Write, 5),
    Step::Order(Call::Read, 3, ErrorKind::Interrupted),
    Step::Works(&[FILE], Ask::Read(1, 6, *b"bcdefg---")),
    Step::IsSpent,
    Step::Made(Call::Read, 5),
];

#[test]
fn few_bytes_at_a_time_and_signals_change_nothing(rt: HostRuntime) -> Result<(), Fail> {
    follow_by_plan(&rt, "disk_fs_few", &[&FEW_BYTES])
}
