// What comes to a node of one session and one topic, and what happens to its machine, as data.
use super::octets;
use node::{Event, Happening, TopicEvent};
use std::alloc::{AllocError, Global};

/// An event of session 0 and topic 0, or that the power is cut and comes back.
#[derive(Clone, Copy)]
pub enum Step {
    Open,
    Bytes(&'static [u8]),
    Pump,
    Close,
    Flush,
    /// The topic of that number is to be opened again.
    Reopen(u64),
    Crash,
}

fn happening(alloc: Global, step: Step) -> Result<Happening, AllocError> {
    match step {
        Step::Open => Ok(Happening::Event(Event::Open)),
        Step::Bytes(bytes) => Ok(Happening::Event(Event::Bytes(0, octets(alloc, bytes)?))),
        Step::Pump => Ok(Happening::Event(Event::Pump(0))),
        Step::Close => Ok(Happening::Event(Event::Close(0))),
        Step::Flush => Ok(Happening::Event(Event::OnTopic(0, TopicEvent::Flush))),
        Step::Reopen(topic) => Ok(Happening::Event(Event::OnTopic(topic, TopicEvent::Reopen))),
        Step::Crash => Ok(Happening::Crash),
    }
}

fn add_happenings(
    alloc: Global,
    steps: &[Step],
    all: &mut Vec<Happening>,
) -> Result<(), AllocError> {
    for step in steps {
        all.push(happening(alloc, *step)?)?;
    }
    Ok(())
}

/// What happens to a machine.
pub fn happenings(alloc: Global, steps: &[Step]) -> Result<Vec<Happening>, AllocError> {
    let mut all = Vec::new(alloc);
    if add_happenings(alloc, steps, &mut all).is_err() {
        drop(all);
        return Err(AllocError);
    }
    Ok(all)
}

fn add_events(alloc: Global, steps: &[Step], all: &mut Vec<Event>) -> Result<(), AllocError> {
    for step in steps {
        if let Happening::Event(event) = happening(alloc, *step)? {
            all.push(event)?;
        }
    }
    Ok(())
}

/// What comes to a node; a crash does not.
pub fn events(alloc: Global, steps: &[Step]) -> Result<Vec<Event>, AllocError> {
    let mut all = Vec::new(alloc);
    if add_events(alloc, steps, &mut all).is_err() {
        drop(all);
        return Err(AllocError);
    }
    Ok(all)
}
