use script::{
    CrashAs, Line, Outcome, Script, ScriptFault, Sequence, SessionFault, StorageRefusal,
    one_reading, output_line, printed_bytes_are_read, read_script,
};
use std::process::Abort;
use std::test::Fail;

const EACH: &[u8] =
    b"init 0000000000000000000001000\nopen\nbytes 18446744073709551615 00fFAb\npump 7\nclose 08\nflush 0";

const EACH_OF_A_DEVICE: &[u8] =
    b"init 2\nfail 0\nfail 4\nstop 18446744073709551615\nreopen 3\ncrash old\ncrash new\ncrash fill 07\ncrash fill aF\nstatus\nfailread 5\n";

// The first bad line of a script; want of memory is handed on.
fn first_bad(rt: &HostRuntime, script: &[u8]) -> Result<Option<u64>, ScriptFault> {
    match read_script(rt.alloc(), script) {
        Ok(_) => Ok(None),
        Err(ScriptFault::BadLine(number)) => Ok(Some(number)),
        Err(ScriptFault::NoMemory) => Err(ScriptFault::NoMemory),
    }
}

fn assert_bytes(rt: &impl Abort, line: &Line, number: u64, want: &[u8]) {
    match line {
        Line::Bytes { session, bytes } => {
            assert_eq!(rt; *session, number);
            assert_eq!(rt; bytes.as_slice(), want);
        }
        _ => panic!(rt; "bytes"),
    }
}

#[test]
fn reads_each_line(rt: HostRuntime) -> Result<(), Fail> {
    let Script { per_ledger, lines } = read_script(rt.alloc(), EACH)?;
    assert_eq!(rt; per_ledger, 1000);
    let lines = lines.into_vec();
    assert_eq!(rt; lines.len(), 5);
    assert!(rt; matches!(&lines[0], Line::Open));
    assert_bytes(&rt, &lines[1], 18_446_744_073_709_551_615, b"\x00\xff\xab");
    assert!(rt; matches!(&lines[2], Line::Pump(7)));
    assert!(rt; matches!(&lines[3], Line::Close(8)));
    assert!(rt; matches!(&lines[4], Line::Flush(0)));
    Ok(())
}

#[test]
fn reads_each_line_of_a_device(rt: HostRuntime) -> Result<(), Fail> {
    let lines = read_script(rt.alloc(), EACH_OF_A_DEVICE)?.lines.into_vec();
    assert_eq!(rt; lines.len(), 10);
    assert!(rt; matches!(&lines[0], Line::Fail(0)));
    assert!(rt; matches!(&lines[1], Line::Fail(4)));
    assert!(rt; matches!(&lines[2], Line::Stop(u64::MAX)));
    assert!(rt; matches!(&lines[3], Line::Reopen(3)));
    assert!(rt; matches!(&lines[4], Line::Crash(CrashAs::Old)));
    assert!(rt; matches!(&lines[5], Line::Crash(CrashAs::New)));
    assert!(rt; matches!(&lines[6], Line::Crash(CrashAs::Fill(7))));
    assert!(rt; matches!(&lines[7], Line::Crash(CrashAs::Fill(0xaf))));
    assert!(rt; matches!(&lines[8], Line::Status));
    assert!(rt; matches!(&lines[9], Line::FailRead(5)));
    Ok(())
}

#[test]
fn takes_scripts_with_and_without_a_last_line_feed(rt: HostRuntime) -> Result<(), Fail> {
    for script in [
        b"init 1".as_slice(),
        b"init 50000\n".as_slice(),
        b"init 1\nopen".as_slice(),
        b"init 1\nopen\n".as_slice(),
    ] {
        assert_eq!(rt; first_bad(&rt, script)?, None);
    }
    Ok(())
}

#[test]
fn finds_a_bad_first_line(rt: HostRuntime) -> Result<(), Fail> {
    for script in [
        b"".as_slice(),
        b"\n".as_slice(),
        b"open\n".as_slice(),
        b"init\n".as_slice(),
        b"init \n".as_slice(),
        b"init 0\n".as_slice(),
        b"init 50001\n".as_slice(),
        b"init  1\n".as_slice(),
        b"init 1 \n".as_slice(),
        b"init 1\r\n".as_slice(),
        b" init 1\n".as_slice(),
        b"INIT 1\n".as_slice(),
        b"init +1\n".as_slice(),
    ] {
        assert_eq!(rt; first_bad(&rt, script)?, Some(1), "{script:?}");
    }
    Ok(())
}

#[test]
fn finds_a_bad_number(rt: HostRuntime) -> Result<(), Fail> {
    for script in [
        b"init 1\npump 18446744073709551616\n".as_slice(),
        b"init 1\nflush -1\n".as_slice(),
        b"init 1\nflush +1\n".as_slice(),
        b"init 1\nflush\n".as_slice(),
        b"init 1\nflush 1 2\n".as_slice(),
        b"init 1\nclose 0x1\n".as_slice(),
        b"init 1\nopen 1\n".as_slice(),
        b"init 1\nopen  \n".as_slice(),
        b"init 1\ninit 1\n".as_slice(),
        b"init 1\n\nopen\n".as_slice(),
        b"init 1\n\n".as_slice(),
        b"init 1\nopen\r\n".as_slice(),
    ] {
        assert_eq!(rt; first_bad(&rt, script)?, Some(2), "{script:?}");
    }
    Ok(())
}

#[test]
fn finds_a_bad_line_of_a_device(rt: HostRuntime) -> Result<(), Fail> {
    for script in [
        b"init 1\nfail\n".as_slice(),
        b"init 1\nfail 18446744073709551616\n".as_slice(),
        b"init 1\nfail -1\n".as_slice(),
        b"init 1\nfail 1 1\n".as_slice(),
        b"init 1\nstop\n".as_slice(),
        b"init 1\nstop  1\n".as_slice(),
        b"init 1\nstop 1 \n".as_slice(),
        b"init 1\nstop x\n".as_slice(),
        b"init 1\nreopen\n".as_slice(),
        b"init 1\nreopen +0\n".as_slice(),
        b"init 1\nstatus \n".as_slice(),
        b"init 1\nstatus 0\n".as_slice(),
        b"init 1\nSTATUS\n".as_slice(),
        b"init 1\ncrash\n".as_slice(),
        b"init 1\ncrash \n".as_slice(),
        b"init 1\ncrash Old\n".as_slice(),
        b"init 1\ncrash  old\n".as_slice(),
        b"init 1\ncrash old \n".as_slice(),
        b"init 1\ncrash old new\n".as_slice(),
        b"init 1\ncrash 0\n".as_slice(),
        b"init 1\ncrash fill\n".as_slice(),
        b"init 1\ncrash fill \n".as_slice(),
        b"init 1\ncrash fill 7\n".as_slice(),
        b"init 1\ncrash fill 007\n".as_slice(),
        b"init 1\ncrash fill 0007\n".as_slice(),
        b"init 1\ncrash fill 0g\n".as_slice(),
        b"init 1\ncrash fill -\n".as_slice(),
        b"init 1\ncrash fill  07\n".as_slice(),
        b"init 1\ncrash fill 07 \n".as_slice(),
        b"init 1\nfailread\n".as_slice(),
        b"init 1\nfailread  1\n".as_slice(),
        b"init 1\nfailread 1 1\n".as_slice(),
        b"init 1\nfailreads 1\n".as_slice(),
        b"init 1\ntake\n".as_slice(),
        b"init 1\nwrite\n".as_slice(),
        b"init 1\nfinish\n".as_slice(),
    ] {
        assert_eq!(rt; first_bad(&rt, script)?, Some(2), "{script:?}");
    }
    Ok(())
}

#[test]
fn finds_bad_hex(rt: HostRuntime) -> Result<(), Fail> {
    for script in [
        b"init 1\nopen\nbytes 0 0g\n".as_slice(),
        b"init 1\nopen\nbytes 0 000\n".as_slice(),
        b"init 1\nopen\nbytes 0 \n".as_slice(),
        b"init 1\nopen\nbytes 0\nfoo\n".as_slice(),
        b"init 1\nopen\nbytes 0 -\n".as_slice(),
        b"init 1\nopen\nbytes 0 00 00\n".as_slice(),
    ] {
        assert_eq!(rt; first_bad(&rt, script)?, Some(3), "{script:?}");
    }
    Ok(())
}

#[test]
fn prints_lines(rt: HostRuntime) -> Result<(), Fail> {
    let alloc = rt.alloc();
    for (number, bytes, outcome, want) in [
        (1, b"".as_slice(), Outcome::Done, "1 - ok\n"),
        (
            10,
            b"\x00\xab\x0f".as_slice(),
            Outcome::Done,
            "10 00ab0f ok\n",
        ),
        (
            3,
            b"".as_slice(),
            Outcome::Refused(StorageRefusal::NoMemory),
            "3 - S5\n",
        ),
        (4, b"".as_slice(), Outcome::Full, "4 - full\n"),
        (
            u64::MAX,
            b"".as_slice(),
            Outcome::Unknown,
            "18446744073709551615 - none\n",
        ),
    ] {
        assert_eq!(rt; output_line(alloc, number, bytes, outcome)?.as_str(), want);
    }
    Ok(())
}

#[test]
fn names_each_fault(rt: HostRuntime) {
    for (fault, want) in [
        (SessionFault::TooLarge, "F1"),
        (SessionFault::BadSizes, "F2"),
        (SessionFault::Unreadable, "F3"),
        (SessionFault::Missing, "F4"),
        (SessionFault::BadPayload, "F5"),
        (SessionFault::UnknownCommand, "F6"),
        (SessionFault::OutOfTurn, "F7"),
        (SessionFault::TooManyPermits, "F8"),
        (SessionFault::NoMemory, "F9"),
    ] {
        assert_eq!(rt; fault.as_str(), want);
        assert_eq!(rt; Outcome::Ended(fault).as_str(), want);
    }
    one_reading();
    printed_bytes_are_read();
}

#[test]
fn names_each_storage_refusal(rt: HostRuntime) {
    for (refusal, want) in [
        (StorageRefusal::Device, "S1"),
        (StorageRefusal::Damaged, "S2"),
        (StorageRefusal::NotInitialised, "S3"),
        (StorageRefusal::Version, "S4"),
        (StorageRefusal::NoMemory, "S5"),
        (StorageRefusal::TooLarge, "S6"),
    ] {
        assert_eq!(rt; refusal.as_str(), want);
        assert_eq!(rt; Outcome::Refused(refusal).as_str(), want);
    }
}

#[test]
fn says_which_line_is_bad(rt: HostRuntime) -> Result<(), Fail> {
    let alloc = rt.alloc();
    assert_eq!(rt;
        format!(in alloc; "{}", ScriptFault::BadLine(12))?.as_str(),
        "script line 12"
    );
    assert_eq!(rt;
        format!(in alloc; "{}", ScriptFault::NoMemory)?.as_str(),
        "no memory"
    );
    Ok(())
}

#[test]
fn a_sequence_keeps_its_values(rt: HostRuntime) -> Result<(), Fail> {
    let sequence = Sequence::new([3u8, 1, 2].to_vec(rt.alloc())?);
    assert_eq!(rt; sequence.as_slice(), [3, 1, 2].as_slice());
    assert_eq!(rt; sequence.into_vec().as_slice(), [3, 1, 2].as_slice());
    Ok(())
}
