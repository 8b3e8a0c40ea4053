use disk::CATALOG;
use frames::Fault as FrameFault;
use session::{
    Fault, PumpFault, consumers_rise, ended_sessions_leave, pumps_finish, pumps_serve,
    writes_whole_frames,
};
use std::test::Fail;

#[test]
fn texts_of_faults(rt: HostRuntime) -> Result<(), Fail> {
    let texts = [
        (
            Fault::from(FrameFault::TooLarge),
            "the frame is larger than 5242880 bytes",
        ),
        (
            Fault::from(FrameFault::BadSizes),
            "the sizes of the frame don't agree",
        ),
        (
            Fault::from(FrameFault::Unreadable),
            "the command can't be read",
        ),
        (
            Fault::from(FrameFault::Missing),
            "the command of this type is missing",
        ),
        (
            Fault::from(FrameFault::BadPayload),
            "the part behind the command can't be read",
        ),
        (Fault::UnknownCommand, "the type is no command of a client"),
        (Fault::OutOfTurn, "the command is out of turn"),
        (Fault::TooManyPermits, "the permits are too many"),
        (Fault::from(FrameFault::NoMemory), "no memory"),
    ];
    for (fault, text) in texts {
        assert_eq!(rt; format!(in rt.alloc(); "{fault}")?.as_str(), text);
        let pumped = PumpFault::Ended(fault);
        assert_eq!(rt; format!(in rt.alloc(); "{pumped}")?.as_str(), text);
    }
    writes_whole_frames();
    pumps_finish();
    pumps_serve();
    consumers_rise();
    ended_sessions_leave();
    Ok(())
}

#[test]
fn texts_of_pump_faults(rt: HostRuntime) -> Result<(), Fail> {
    let file = CATALOG;
    let damaged = PumpFault::Damaged { file, offset: 40 };
    for (fault, text) in [
        (PumpFault::Device, "device"),
        (damaged, "damaged catalog2.dat at 40"),
    ] {
        assert_eq!(rt; format!(in rt.alloc(); "{fault}")?.as_str(), text);
    }
    Ok(())
}
