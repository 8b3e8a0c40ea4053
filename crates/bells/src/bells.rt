// What the threads of connections and the flushers sleep on.
use crate::marks::Marks;
use crate::members::Members;
use std::alloc::{AllocError, Global};
use std::sync::atomic::{AtomicBool, AtomicU64, Ordering};
use std::sync::{Mutex, Wait};
use std::thread::Parker;
use std::time::Duration;

/// How many connections there are at most.
pub const PLACES: u16 = 256;

/// How many topics there are at most, each with a flusher.
const TOPICS: u8 = 64;

/// How long a flusher sleeps that was refused memory, in milliseconds.
const PAUSE: u64 = 20;

/// A reader's and a writer's sleep.
#[derive(Drop)]
struct Pair {
    reader: Parker,
    writer: Parker,
    /// How long the writer sleeps at most when it next waits, in milliseconds; until it is rung, where that is 0.
    patience: AtomicU64,
    /// Whether the connection is to end.
    is_to_end: AtomicBool,
}

/// What threads sleep on: those of connections by the places of these, flushers by the numbers of their topics, and the ringer, who
/// wakes writers for the flushers.
#[derive(Drop)]
pub struct Bells {
    pairs: Vec<Pair>,
    flushers: Vec<Parker>,
    ringer: Parker,
    /// Whom the ringer is to wake.
    asked: Mutex<Marks>,
}

impl Bells {
    pub fn new(alloc: Global) -> Result<Bells, AllocError> {
        Ok(Bells {
            pairs: pairs(alloc)?,
            flushers: flushers(alloc)?,
            ringer: Parker::new(),
            asked: Mutex::new(Marks::new()),
        })
    }

    pub fn ring_writer(&self, place: u8) {
        if let Some(pair) = self.pairs.get(usize::from(place)) {
            pair.writer.unpark();
        }
    }

    pub fn ring_reader(&self, place: u8) {
        if let Some(pair) = self.pairs.get(usize::from(place)) {
            pair.reader.unpark();
        }
    }

    pub fn ring_flusher(&self, topic: u64) {
        if let Some(flusher) = self.flushers.get(topic as usize) {
            flusher.unpark();
        }
    }

    /// Sleeps until it is rung, also where it was rung before, or for as long as it was last told.
    pub fn wait_writer<R: Wait>(&self, rt: &R, place: u8) {
        let Some(pair) = self.pairs.get(usize::from(place)) else {
            return;
        };
        let patience = pair.patience.swap(0, Ordering::SeqCst);
        if patience == 0 {
            pair.writer.park(rt);
        } else {
            pair.writer
                .park_timeout(rt, Duration::from_millis(patience));
        }
    }

    /// The writer sleeps for so many milliseconds at most when it next waits.
    pub fn hurry_writer(&self, place: u8, patience: u64) {
        if let Some(pair) = self.pairs.get(usize::from(place)) {
            pair.patience.store(patience, Ordering::SeqCst);
        }
    }

    /// A connection begins at this place: nobody has told it to end.
    pub fn begin(&self, place: u8) {
        if let Some(pair) = self.pairs.get(usize::from(place)) {
            pair.patience.store(0, Ordering::SeqCst);
            pair.is_to_end.store(false, Ordering::SeqCst);
        }
    }

    /// The connections at these places are to end: their writers are woken.
    pub fn end_all(&self, members: &Members) {
        for place in 0..=u8::MAX {
            if members.has(place) {
                self.end(place);
            }
        }
    }

    /// The connection at this place is to end.
    fn end(&self, place: u8) {
        if let Some(pair) = self.pairs.get(usize::from(place)) {
            pair.is_to_end.store(true, Ordering::SeqCst);
            pair.writer.unpark();
        }
    }

    /// Whether the connection at this place is to end.
    pub fn is_to_end(&self, place: u8) -> bool {
        match self.pairs.get(usize::from(place)) {
            Some(pair) => pair.is_to_end.load(Ordering::SeqCst),
            None => true,
        }
    }

    /// Sleeps until it is rung, also where it was rung before.
    pub fn wait_reader<R: Wait>(&self, rt: &R, place: u8) {
        if let Some(pair) = self.pairs.get(usize::from(place)) {
            pair.reader.park(rt);
        }
    }

    /// Sleeps until it is rung, also where it was rung before.
    pub fn wait_flusher<R: Wait>(&self, rt: &R, topic: u64) {
        if let Some(flusher) = self.flushers.get(topic as usize) {
            flusher.park(rt);
        }
    }

    /// Sleeps for 20 milliseconds at most, and doesn't sleep when it next waits.
    pub fn pause_flusher<R: Wait>(&self, rt: &R, topic: u64) {
        if let Some(flusher) = self.flushers.get(topic as usize) {
            flusher.park_timeout(rt, Duration::from_millis(PAUSE));
            flusher.unpark();
        }
    }

    /// Wakes the writers of these places.
    pub fn ring_all(&self, marks: &Marks) {
        if marks.is_empty() {
            return;
        }
        for place in 0..=u8::MAX {
            if marks.has(place) {
                self.ring_writer(place);
            }
        }
    }

    /// Wakes the first of the writers of these places, and has the ringer wake the others: to wake many takes as long as a write.
    pub fn ring_by_another<R: Wait>(&self, rt: &R, marks: &Marks) {
        let Some(first) = first_of(marks) else {
            return;
        };
        self.ring_writer(first);
        if self.ask(rt, marks, first) {
            self.ringer.unpark();
        }
    }

    /// Asks the ringer to wake the writers behind a place, and answers whether there is any.
    fn ask<R: Wait>(&self, rt: &R, marks: &Marks, first: u8) -> bool {
        let mut asked = self.asked.lock(rt);
        let mut any = false;
        for place in first..=u8::MAX {
            if place != first && marks.has(place) {
                asked.add(place);
                any = true;
            }
        }
        any
    }

    /// The ringer's turn: sleeps until it is asked or woken, and wakes whom it is asked to.
    pub fn ring_asked<R: Wait>(&self, rt: &R) {
        self.ringer.park(rt);
        let asked = self.asked.lock(rt).take();
        self.ring_all(&asked);
    }

    /// Wakes the ringer, who may have to end.
    pub fn wake_ringer(&self) {
        self.ringer.unpark();
    }
}

/// The first place that is marked.
fn first_of(marks: &Marks) -> Option<u8> {
    if marks.is_empty() {
        return None;
    }
    for place in 0..=u8::MAX {
        if marks.has(place) {
            return Some(place);
        }
    }
    None
}

fn pairs(alloc: Global) -> Result<Vec<Pair>, AllocError> {
    let mut pairs = Vec::new(alloc);
    for _ in 0..PLACES {
        pairs.push(Pair {
            reader: Parker::new(),
            writer: Parker::new(),
            patience: AtomicU64::new(0),
            is_to_end: AtomicBool::new(false),
        })?;
    }
    Ok(pairs)
}

fn flushers(alloc: Global) -> Result<Vec<Parker>, AllocError> {
    let mut flushers = Vec::new(alloc);
    for _ in 0..TOPICS {
        flushers.push(Parker::new())?;
    }
    Ok(flushers)
}
