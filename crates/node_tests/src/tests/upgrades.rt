// A folder of version 1 is upgraded, while the device stops or fails, and the power is cut.
use disk::{CrashForm, CrashShelf, CursorSlot, DeviceError, FileId, Folder, Fuse, Shelf, TopicId};
use disk_mem::MemShelf;
use node::{Node, Refusal, ReplyText, Site, Upgraded, upgrade};
use std::alloc::Global;
use std::test::Fail;
use topic_core::FileStores;

const OLD: TopicId = TopicId {
    folder: Folder::One,
    number: 0,
};

/// Two entries a ledger, and the topic `persistent://a/b/c`.
const LIST: [u8; 40] = [
    1, 0x50, 0x55, 0x4c, 0x53, 0x41, 0x52, 1, 2, 0, 0, 0, 0, 0, 0, 0, 1, 0x12, 0, 0, 0, 0x70, 0x65,
    0x72, 0x73, 0x69, 0x73, 0x74, 0x65, 0x6e, 0x74, 0x3a, 0x2f, 0x2f, 0x61, 0x2f, 0x62, 0x2f, 0x63,
    0,
];

/// Two entries, and an end mark.
const FIRST: [u8; 65] = [
    1, 0x50, 0x55, 0x4c, 0x53, 0x41, 0x52, 1, 0, 0, 0, 0, 0, 0, 0, 0, 1, 0x25, 0, 0, 0, 0, 0x0e, 0,
    0, 0, 0, 0, 0, 0x0a, 0x0a, 1, 0x70, 0x10, 0, 0x18, 1, 0xc0, 0x3e, 5, 0x0e, 0, 0, 0, 0, 0, 0,
    0x0a, 0x0a, 1, 0x70, 0x10, 0, 0x18, 1, 0xc0, 0x3e, 5, 1, 1, 0, 0, 0, 1, 0,
];

/// One entry.
const SECOND: [u8; 41] = [
    1, 0x50, 0x55, 0x4c, 0x53, 0x41, 0x52, 1, 2, 0, 0, 0, 0, 0, 0, 0, 1, 0x13, 0, 0, 0, 0, 0x0e, 0,
    0, 0, 0, 0, 0, 0x0a, 0x0a, 1, 0x70, 0x10, 0, 0x18, 1, 0xc0, 0x3e, 5, 0,
];

/// A slot that counts.
const COUNTS: [u8; 17] = [
    1, 0x50, 0x55, 0x4c, 0x53, 0x41, 0x52, 1, 1, 0, 0, 0, 0, 0, 0, 0, 0,
];

/// A slot that is closed.
const CLOSED: [u8; 17] = [
    0, 0x50, 0x55, 0x4c, 0x53, 0x41, 0x52, 1, 0, 0, 0, 0, 0, 0, 0, 0, 0,
];

/// More device calls than the upgrade has.
const CALLS: u64 = 60;

const FORMS: [CrashForm; 4] = [
    CrashForm::Old,
    CrashForm::New,
    CrashForm::Fill(0),
    CrashForm::Fill(1),
];

fn put(shelf: &mut MemShelf, file: FileId, bytes: &[u8]) -> Result<(), DeviceError> {
    shelf.write_at(file, 0, bytes)?;
    shelf.sync(file)
}

/// Lays the folder of version 1.
fn lay(shelf: &mut MemShelf) -> Result<(), DeviceError> {
    let topic = OLD;
    put(shelf, FileId::Catalog(Folder::One), &LIST)?;
    put(shelf, FileId::Segment { topic, number: 0 }, &FIRST)?;
    put(shelf, FileId::Segment { topic, number: 1 }, &SECOND)?;
    let slot = CursorSlot::Zero;
    put(shelf, FileId::Slot { topic, slot }, &COUNTS)?;
    let slot = CursorSlot::One;
    put(shelf, FileId::Slot { topic, slot }, &CLOSED)
}

/// How many entries the topic of the node on this device has, and in how many segments; none where a folder of version 1 counts. The
/// device comes back.
fn found(alloc: Global, shelf: MemShelf) -> Result<(Option<(u64, u64)>, MemShelf), Fail> {
    let url = ReplyText::new(String::from_str(alloc, "pulsar://test")?);
    match Node::<FileStores, MemShelf>::open(alloc, Site { url, shelf }) {
        Ok(node) => {
            let status = node.status(0)?;
            let told = match &status {
                Some(status) => Some((status.entries, status.segments)),
                None => None,
            };
            drop(status);
            let Site { shelf, .. } = node.into_site();
            Ok((told, shelf))
        }
        Err((Refusal::Version, Site { shelf, .. })) => Ok((None, shelf)),
        Err((refusal, site)) => {
            drop(site);
            Err(Fail::from(refusal))
        }
    }
}

/// An upgrade that the device stops in at this call, the cut of its power in this form, and another one: whether the first went well, and
/// what is found before and behind the second.
fn stopped(alloc: Global, call: u64, form: CrashForm) -> Result<bool, Fail> {
    let mut shelf = MemShelf::new(alloc);
    lay(&mut shelf)?;
    shelf.arm(Fuse::CrashAs(form))?;
    shelf.arm(Fuse::Stop(call))?;
    let first = upgrade(alloc, &mut shelf);
    shelf.crash();
    let (before, mut shelf) = found(alloc, shelf)?;
    let again = upgrade(alloc, &mut shelf);
    let (behind, shelf) = found(alloc, shelf)?;
    drop(shelf);
    let is_whole = behind == Some((3, 2)) && (before == behind || before.is_none());
    let is_told = match (first, again) {
        (Ok(Upgraded::Done(1)), Ok(Upgraded::Already)) => before == behind,
        (Err(Refusal::Device), Ok(Upgraded::Done(1))) => before.is_none(),
        (Err(Refusal::Device), Ok(Upgraded::Already)) => before == behind,
        (Err(refusal), _) | (Ok(_), Err(refusal)) => return Err(Fail::from(refusal)),
        (Ok(_), Ok(_)) => false,
    };
    if !is_whole || !is_told {
        return Err(Fail::new("neither the old folder nor the new one"));
    }
    Ok(first.is_ok())
}

#[test]
fn a_crash_in_an_upgrade_leaves_one_folder_or_the_other(rt: HostRuntime) -> Result<(), Fail> {
    for form in FORMS {
        let mut done = 0u64;
        for call in 1..=CALLS {
            done = done.saturating_add(u64::from(stopped(rt.alloc(), call, form)?));
        }
        assert!(rt; 10 < done && done < CALLS, "{done}");
    }
    Ok(())
}

/// An upgrade of which this call of the device fails, once, and another one: whether the first went well, since it has fewer calls.
fn fails(alloc: Global, call: u64) -> Result<bool, Fail> {
    let mut shelf = MemShelf::new(alloc);
    lay(&mut shelf)?;
    shelf.arm(Fuse::Fail(call))?;
    let first = upgrade(alloc, &mut shelf);
    if first == Ok(Upgraded::Done(1)) {
        drop(shelf);
        return Ok(true);
    }
    let again = upgrade(alloc, &mut shelf);
    let (behind, shelf) = found(alloc, shelf)?;
    drop(shelf);
    let is_told = match (first, again) {
        (Err(Refusal::Device), Ok(_)) => true,
        (Err(refusal), _) | (Ok(_), Err(refusal)) => return Err(Fail::from(refusal)),
        (Ok(_), Ok(_)) => false,
    };
    if behind != Some((3, 2)) || !is_told {
        return Err(Fail::new("neither the old folder nor the new one"));
    }
    Ok(false)
}

#[test]
fn a_failure_in_an_upgrade_is_told_and_it_can_be_made_again(rt: HostRuntime) -> Result<(), Fail> {
    let mut done = 0u64;
    for call in 1..=CALLS {
        done = done.saturating_add(u64::from(fails(rt.alloc(), call)?));
    }
    assert!(rt; 10 < done && done < CALLS, "{done}");
    Ok(())
}
