// Folders of the system.
use super::refusing::Refusing;
use catalog::EntriesPerLedger;
use folder::{Folder, FolderFault, exit_status, init, inspect};
use gated_log::Refusal;
use std::alloc::Global;
use std::fs;
use std::fs::File;
use std::io::ErrorKind;
use std::process::Abort;
use std::rt::Files;
use std::test::Fail;

// There is no folder of this name.
fn without(rt: &impl Files, alloc: Global, path: &str) -> Result<(), Fail> {
    if fs::exists(rt, path)? {
        rt.remove_dir_all(alloc, path)?;
    }
    Ok(())
}

fn seven(rt: &impl Abort) -> EntriesPerLedger {
    EntriesPerLedger::new(7).expect(rt, "a ledger may have seven entries")
}

// Why it ended, where it wasn't for want of memory, which is handed on.
fn told(done: Result<(), FolderFault>) -> Result<Option<FolderFault>, FolderFault> {
    match done {
        Ok(()) => Ok(None),
        Err(FolderFault::Refused(Refusal::NoMemory)) => {
            Err(FolderFault::Refused(Refusal::NoMemory))
        }
        Err(fault) => Ok(Some(fault)),
    }
}

// The same where no failure of the device is looked for: the device tells want of memory so.
fn told_of_files(done: Result<(), FolderFault>) -> Result<Option<FolderFault>, FolderFault> {
    match told(done)? {
        Some(FolderFault::Refused(Refusal::Device)) => Err(FolderFault::Refused(Refusal::Device)),
        why => Ok(why),
    }
}

#[test]
fn a_node_is_made_once(rt: HostRuntime) -> Result<(), Fail> {
    without(&rt, rt.alloc(), "folder_once")?;
    let mut lines = Vec::new(rt.alloc());
    init(&rt, "folder_once", seven(&rt), &mut lines)?;
    assert_eq!(rt;
        str::from_utf8(&lines)?,
        "initialised, 7 entries a ledger\n"
    );
    inspect(&rt, "folder_once", &mut lines)?;
    let again = told_of_files(init(&rt, "folder_once", seven(&rt), &mut lines))?;
    assert_eq!(rt; again, Some(FolderFault::AlreadyInitialised));
    assert_eq!(rt; lines.len(), 32, "nothing else was printed");
    Ok(())
}

#[test]
fn a_folder_is_held_until_it_is_dropped(rt: HostRuntime) -> Result<(), Fail> {
    without(&rt, rt.alloc(), "folder_held")?;
    let folder = Folder::make(&rt, "folder_held")?;
    let mut lines = Vec::new(rt.alloc());
    for _ in 0..2 {
        let made = told_of_files(init(&rt, "folder_held", seven(&rt), &mut lines))?;
        assert_eq!(rt; made, Some(FolderFault::InUse));
        let looked = told_of_files(inspect(&rt, "folder_held", &mut lines))?;
        assert_eq!(rt; looked, Some(FolderFault::InUse));
    }
    drop(folder);
    drop(Folder::open(&rt, "folder_held")?);
    init(&rt, "folder_held", seven(&rt), &mut lines)?;
    Ok(())
}

#[test]
fn what_is_not_there_is_not_initialised(rt: HostRuntime) -> Result<(), Fail> {
    without(&rt, rt.alloc(), "folder_bare")?;
    let mut lines = Vec::new(rt.alloc());
    let missing = Some(FolderFault::Refused(Refusal::NotInitialised));
    assert_eq!(rt; told(inspect(&rt, "", &mut lines))?, missing);
    assert_eq!(rt; told(inspect(&rt, "folder_bare", &mut lines))?, missing);
    assert!(rt; !fs::exists(&rt, "folder_bare")?);
    fs::create_dir(&rt, "folder_bare")?;
    assert_eq!(rt; told(inspect(&rt, "folder_bare", &mut lines))?, missing);
    assert!(rt; !fs::exists(&rt, "folder_bare/lock")?);
    drop(Folder::make(&rt, "folder_bare")?);
    assert_eq!(rt;
        told_of_files(inspect(&rt, "folder_bare", &mut lines))?,
        missing
    );
    Ok(())
}

#[test]
fn without_a_sync_of_the_folder_above_nothing_is_made(rt: HostRuntime) -> Result<(), Fail> {
    without(&rt, rt.alloc(), "folder_above")?;
    let mut lines = Vec::new(rt.alloc());
    for kind in [ErrorKind::PermissionDenied, ErrorKind::NotFound] {
        let refusing = Refusing {
            rt: &rt,
            end: "folder_above/..",
            kind,
        };
        let made = told(init(&refusing, "folder_above", seven(&rt), &mut lines))?;
        assert_eq!(rt; made, Some(FolderFault::Refused(Refusal::Device)));
    }
    assert!(rt; !fs::exists(&rt, "folder_above/lock")?);
    init(&rt, "folder_above", seven(&rt), &mut lines)?;
    Ok(())
}

#[test]
fn a_lock_file_that_cannot_be_opened_is_told(rt: HostRuntime) -> Result<(), Fail> {
    without(&rt, rt.alloc(), "folder_lock")?;
    let mut lines = Vec::new(rt.alloc());
    for (kind, opened) in [
        (ErrorKind::PermissionDenied, Refusal::Device),
        (ErrorKind::NotFound, Refusal::NotInitialised),
    ] {
        let refusing = Refusing {
            rt: &rt,
            end: "/lock",
            kind,
        };
        let made = told(init(&refusing, "folder_lock", seven(&rt), &mut lines))?;
        assert_eq!(rt; made, Some(FolderFault::Refused(Refusal::Device)));
        let looked = told(inspect(&refusing, "folder_lock", &mut lines))?;
        assert_eq!(rt; looked, Some(FolderFault::Refused(opened)));
    }
    assert_eq!(rt; lines.len(), 0);
    Ok(())
}

#[test]
fn a_lacking_lock_file_is_made_beside_a_list(rt: HostRuntime) -> Result<(), Fail> {
    without(&rt, rt.alloc(), "folder_copied")?;
    let mut lines = Vec::new(rt.alloc());
    init(&rt, "folder_copied", seven(&rt), &mut lines)?;
    fs::remove_file(&rt, "folder_copied/lock")?;
    let as_it_is = Folder::as_it_is(&rt, "folder_copied")?;
    assert!(rt; !as_it_is.is_locked());
    assert!(rt; !fs::exists(&rt, "folder_copied/lock")?);
    let looked_at = Folder::look(&rt, "folder_copied")?;
    assert!(rt; looked_at.is_locked());
    drop(looked_at);
    let opened = Folder::open(&rt, "folder_copied")?;
    assert!(rt; opened.is_locked());
    Ok(())
}

#[test]
fn no_node_is_made_over_files_of_topics(rt: HostRuntime) -> Result<(), Fail> {
    let mut lines = Vec::new(rt.alloc());
    for name in [
        "folder_of_topics/t00000-c0.dat",
        "folder_of_topics/u00000-c0.dat",
    ] {
        without(&rt, rt.alloc(), "folder_of_topics")?;
        fs::create_dir(&rt, "folder_of_topics")?;
        drop(File::create(&rt, name)?);
        let made = told_of_files(init(&rt, "folder_of_topics", seven(&rt), &mut lines))?;
        assert_eq!(rt; made, Some(FolderFault::HoldsTopics));
        assert!(rt; !fs::exists(&rt, "folder_of_topics/lock")?);
        assert!(rt; !fs::exists(&rt, "folder_of_topics/catalog2.dat")?);
    }
    assert_eq!(rt; lines.len(), 0);
    Ok(())
}

#[test]
fn each_fault_has_its_text(rt: HostRuntime) -> Result<(), Fail> {
    for (fault, text) in [
        (FolderFault::Refused(Refusal::Device), "device"),
        (
            FolderFault::Refused(Refusal::NotInitialised),
            "not initialised",
        ),
        (FolderFault::Refused(Refusal::Version), "version"),
        (FolderFault::AlreadyInitialised, "already initialised"),
        (FolderFault::HoldsTopics, "not initialised"),
        (FolderFault::InUse, "device"),
    ] {
        assert_eq!(rt; format!(in rt.alloc(); "{fault}")?.as_str(), text);
        assert_eq!(rt; exit_status(&fault), 1);
    }
    Ok(())
}
