use folder::FolderFault;
use gated_log::Refusal;
use server::{ServeFault, exit_status};
use std::test::Fail;

// Each fault has its text, and the program that meets it ends with 1.
#[test]
fn faults_have_their_texts(rt: HostRuntime) -> Result<(), Fail> {
    let faults = [
        (ServeFault::CannotBind, "cannot bind"),
        (ServeFault::Device, "device"),
        (
            ServeFault::Folder(FolderFault::Refused(Refusal::NotInitialised)),
            "not initialised",
        ),
        (ServeFault::Folder(FolderFault::InUse), "device"),
        (ServeFault::from(Refusal::NoMemory), "no memory"),
    ];
    for (fault, text) in faults {
        let told = format!(in rt.alloc(); "{fault}")?;
        assert_eq!(rt; told.as_str(), text);
        assert_eq!(rt; exit_status(&fault), 1);
    }
    Ok(())
}
