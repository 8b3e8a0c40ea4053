use super::{RECEIPT_AND_MESSAGE, SUBSCRIBE, SUBSCRIBE_NEXT, Stage};
use permits::permits;
use session::{Fault, List, More, PumpFault};
use std::alloc::Global;
use std::test::Fail;

// FLOW of consumer 2, of 5 permits.
const FLOW: &[u8] = b"\0\0\0\x0c\0\0\0\x08\x08\x0b\x5a\x04\x08\x02\x10\x05";

impl Stage {
    // Two consumers, of which the first one has a granter, and a dispatch to come.
    fn lend(&mut self, alloc: Global) -> Result<(), Fault> {
        let Ok((granter, _taker)) = permits(alloc) else {
            return Err(Fault::NoMemory);
        };
        self.board.granter = Some(granter);
        self.begin(&[SUBSCRIBE, SUBSCRIBE_NEXT], &[None])
    }

    fn list(&mut self) -> Result<List, Fault> {
        match self.session.list(&mut self.board, &mut self.out) {
            Ok(list) => Ok(list),
            Err(_) => Err(Fault::NoMemory),
        }
    }

    // Collects what is due, with nothing before in the bytes out, serves the session by a list, and tells it what came of that.
    fn serve(&mut self) -> Result<Result<More, PumpFault>, Fault> {
        self.out.clear();
        let list = self.list()?;
        let answer = list.serve(&mut self.board, &mut self.out);
        self.session.end_as_served(&answer);
        Ok(answer)
    }
}

// How many permits the granter granted, the consumer that was looked for beside how many dispatches were to come then, and how
// often one was looked for by then and behind one more call.
type Looks = (u64, Option<(u64, usize)>, [u32; 2]);

fn looks_of_pumps(stage: &mut Stage, alloc: Global) -> Result<Looks, Fault> {
    stage.lend(alloc)?;
    stage.feed(FLOW)?;
    let _ = stage.pumped()?;
    let first = stage.board.looks;
    let _ = stage.pumped()?;
    let board = &stage.board;
    Ok((board.granted, board.looked, [first, board.looks]))
}

#[test]
fn a_pump_looks_once_for_a_raised_consumer(rt: HostRuntime) -> Result<(), Fail> {
    let mut stage = Stage::new(rt.alloc());
    let looks = looks_of_pumps(&mut stage, rt.alloc());
    drop(stage);
    assert_eq!(rt; looks?, (5, Some((2, 1)), [1, 1]));
    Ok(())
}

fn looks_of_lists(stage: &mut Stage, alloc: Global) -> Result<Looks, Fault> {
    stage.lend(alloc)?;
    stage.feed(FLOW)?;
    let _ = stage.serve()?;
    let first = stage.board.looks;
    let _ = stage.serve()?;
    let board = &stage.board;
    Ok((board.granted, board.looked, [first, board.looks]))
}

#[test]
fn a_list_looks_once_for_a_raised_consumer(rt: HostRuntime) -> Result<(), Fail> {
    let mut stage = Stage::new(rt.alloc());
    let looks = looks_of_lists(&mut stage, rt.alloc());
    drop(stage);
    assert_eq!(rt; looks?, (5, Some((2, 1)), [1, 1]));
    Ok(())
}

// What is looked for by a pump behind a list that nobody serves, or that is refused for want of memory; and whether it was refused.
fn looks_behind_list(stage: &mut Stage, alloc: Global) -> Result<(bool, u32), Fault> {
    stage.lend(alloc)?;
    stage.feed(FLOW)?;
    let is_refused = stage.list().is_err();
    let _ = stage.pumped()?;
    Ok((is_refused, stage.board.looks))
}

// Where no allocation fails this is the first case alone.
#[test]
fn a_refused_list_leaves_its_consumer_raised(rt: HostRuntime) -> Result<(), Fail> {
    let mut stage = Stage::new(rt.alloc());
    let looks = looks_behind_list(&mut stage, rt.alloc());
    drop(stage);
    let (is_refused, looks) = looks?;
    assert_eq!(rt; looks, if is_refused { 1 } else { 0 });
    Ok(())
}

// What a list that is served hands out of a receipt and a message, and whether a pump finds nothing behind it.
fn serves(stage: &mut Stage) -> Result<(Result<More, PumpFault>, [bool; 2]), Fault> {
    stage.begin(&[SUBSCRIBE], &[None])?;
    stage.owe();
    let answer = stage.serve()?;
    let handed_out = stage.out.as_slice() == RECEIPT_AND_MESSAGE;
    let _ = stage.pumped()?;
    Ok((answer, [handed_out, stage.out.is_empty()]))
}

#[test]
fn a_list_serves_as_a_pump_does(rt: HostRuntime) -> Result<(), Fail> {
    let mut stage = Stage::new(rt.alloc());
    let went = serves(&mut stage);
    drop(stage);
    assert_eq!(rt; went?, (Ok(More::No), [true; 2]));
    Ok(())
}

// A receipt comes due while a list is served. Tells whether a pump behind that has it and the list the message alone.
fn serves_meanwhile(stage: &mut Stage) -> Result<bool, Fault> {
    stage.begin(&[SUBSCRIBE], &[None])?;
    stage.out.clear();
    let list = stage.list()?;
    stage.owe();
    let answer = list.serve(&mut stage.board, &mut stage.out);
    stage.session.end_as_served(&answer);
    let receipt = RECEIPT_AND_MESSAGE.strip_suffix(stage.out.as_slice());
    let _ = stage.pumped()?;
    Ok(!stage.out.is_empty() && receipt == Some(stage.out.as_slice()))
}

#[test]
fn a_reply_that_comes_due_while_a_list_is_served_waits(rt: HostRuntime) -> Result<(), Fail> {
    let mut stage = Stage::new(rt.alloc());
    let waits = serves_meanwhile(&mut stage);
    drop(stage);
    assert!(rt; waits?);
    Ok(())
}

#[test]
fn a_list_that_finds_no_memory_ends_the_session(rt: HostRuntime) -> Result<(), Fail> {
    let no_memory = PumpFault::Ended(Fault::NoMemory);
    let mut stage = Stage::new(rt.alloc());
    let begun = stage.begin(&[SUBSCRIBE], &[None, Some(no_memory)]);
    let (first, second) = (stage.serve(), stage.serve());
    let ended = (stage.session.fault(), stage.board.left);
    drop(stage);
    begun?;
    assert_eq!(rt; [first?, second?], [Err(no_memory); 2]);
    assert_eq!(rt; ended, (Some(Fault::NoMemory), Some(3)));
    Ok(())
}
