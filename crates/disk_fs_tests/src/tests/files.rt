// Real files, and what isn't one.
use super::steps::{Ask, Step};
use super::{FILE, OTHER, empty_folder, follow_in_a_new_one, follow_over_files};
use std::fs;
use std::io::Read;
use std::test::Fail;

const EACH_CALL: [Step; 11] = [
    Step::Works(&[FILE], Ask::Length(0)),
    Step::Works(&[FILE], Ask::Write(0, b"abcd")),
    Step::Works(&[FILE], Ask::Cut(3)),
    Step::Works(&[FILE], Ask::Sync),
    Step::Works(&[FILE], Ask::Persist(1, b"xyz")),
    Step::Works(&[FILE], Ask::Read(0, 4, *b"axyz-----")),
    Step::Works(&[FILE], Ask::Read(1, 3, *b"xyz------")),
    Step::Works(&[FILE], Ask::Read(4, 0, *b"---------")),
    Step::Works(&[FILE], Ask::Read(9, 0, *b"---------")),
    Step::Works(&[OTHER], Ask::Read(0, 0, *b"---------")),
    Step::Works(&[FILE], Ask::Length(4)),
];

#[test]
fn each_call_answers(rt: HostRuntime) -> Result<(), Fail> {
    follow_in_a_new_one(&rt, "disk_fs_answers", &EACH_CALL)
}

const WRITTEN: [Step; 1] = [Step::Works(&[FILE], Ask::Persist(0, b"abc"))];

const FOUND: [Step; 2] = [
    Step::Works(&[FILE], Ask::Length(3)),
    Step::Works(&[FILE], Ask::Read(0, 3, *b"abc------")),
];

#[test]
fn a_file_stands_by_its_name_and_is_found_again(rt: HostRuntime) -> Result<(), Fail> {
    follow_in_a_new_one(&rt, "disk_fs_again", &WRITTEN)?;
    let mut file = fs::open(&rt, "disk_fs_again/u00003-e00000012.dat")?;
    let mut text = [b'-'; 4];
    assert_eq!(rt; file.read(&mut text)?, 3);
    assert_eq!(rt; text, *b"abc-");
    follow_over_files(&rt, "disk_fs_again", &FOUND)
}

const OF_A_MISSING_FILE: [Step; 9] = [
    Step::Works(&[FILE], Ask::Cut(0)),
    Step::Works(&[FILE], Ask::Cut(7)),
    Step::Works(&[FILE], Ask::Sync),
    Step::Works(&[FILE], Ask::Length(0)),
    Step::Works(&[FILE], Ask::Read(0, 0, *b"---------")),
    Step::Stands("disk_fs_missing/u00003-e00000012.dat", false),
    Step::Works(&[FILE], Ask::Write(0, b"")),
    Step::Stands("disk_fs_missing/u00003-e00000012.dat", true),
    Step::Works(&[FILE], Ask::Length(0)),
];

#[test]
fn a_file_that_is_not_there_is_an_empty_one(rt: HostRuntime) -> Result<(), Fail> {
    follow_in_a_new_one(&rt, "disk_fs_missing", &OF_A_MISSING_FILE)
}

const CUTS: [Step; 6] = [
    Step::Works(&[FILE], Ask::Write(0, b"abc")),
    Step::Works(&[FILE], Ask::Cut(4)),
    Step::Works(&[FILE], Ask::Cut(u64::MAX)),
    Step::Works(&[FILE], Ask::Length(3)),
    Step::Works(&[FILE], Ask::Cut(0)),
    Step::Works(&[FILE], Ask::Length(0)),
];

#[test]
fn a_cut_makes_no_file_longer(rt: HostRuntime) -> Result<(), Fail> {
    follow_in_a_new_one(&rt, "disk_fs_cut", &CUTS)
}

const LONG: [Step; 5] = [
    Step::Fails(&[FILE], Ask::Write(1 << 62, b"a")),
    Step::Fails(&[FILE], Ask::Write(u64::MAX, b"ab")),
    Step::Works(&[FILE], Ask::Length(0)),
    Step::Works(&[FILE], Ask::Write(0, b"a")),
    Step::Works(&[FILE], Ask::Length(1)),
];

#[test]
fn no_file_gets_longer_than_it_may(rt: HostRuntime) -> Result<(), Fail> {
    follow_in_a_new_one(&rt, "disk_fs_long", &LONG)
}

const NOWHERE: [Step; 3] = [
    Step::Works(&[FILE], Ask::Length(0)),
    Step::Fails(&[FILE], Ask::Write(0, b"a")),
    Step::Works(&[FILE], Ask::Length(0)),
];

#[test]
fn in_a_folder_that_is_not_there_writes_fail(rt: HostRuntime) -> Result<(), Fail> {
    follow_over_files(&rt, "disk_fs_no_such_folder", &NOWHERE)
}

const ALL_FAIL: [Step; 5] = [
    Step::Fails(&[FILE], Ask::Read(0, 0, *b"---------")),
    Step::Fails(&[FILE], Ask::Write(0, b"a")),
    Step::Fails(&[FILE], Ask::Cut(0)),
    Step::Fails(&[FILE], Ask::Sync),
    Step::Fails(&[FILE], Ask::Length(0)),
];

const ALL_FAIL_ON_ONE: [Step; 7] = [
    Step::Fails(&[FILE], Ask::Read(0, 0, *b"---------")),
    Step::Fails(&[FILE], Ask::Write(0, b"a")),
    Step::Fails(&[FILE], Ask::Cut(0)),
    Step::Fails(&[FILE], Ask::Sync),
    Step::Fails(&[FILE], Ask::Length(0)),
    Step::Works(&[OTHER], Ask::Write(0, b"a")),
    Step::Works(&[OTHER], Ask::Length(1)),
];

#[test]
fn a_folder_in_the_place_of_a_file_fails(rt: HostRuntime) -> Result<(), Fail> {
    empty_folder(&rt, "disk_fs_folder")?;
    fs::create_dir(&rt, "disk_fs_folder/u00003-e00000012.dat")?;
    follow_over_files(&rt, "disk_fs_folder", &ALL_FAIL_ON_ONE)
}

#[test]
fn a_file_in_the_place_of_the_folder_fails(rt: HostRuntime) -> Result<(), Fail> {
    empty_folder(&rt, "disk_fs_file")?;
    fs::write(&rt, "disk_fs_file/a", "text")?;
    follow_over_files(&rt, "disk_fs_file/a", &ALL_FAIL)
}

#[test]
fn an_empty_path_names_no_folder(rt: HostRuntime) -> Result<(), Fail> {
    follow_over_files(&rt, "", &ALL_FAIL)?;
    assert!(rt; !fs::exists(&rt, "/u00003-e00000012.dat")?);
    Ok(())
}
