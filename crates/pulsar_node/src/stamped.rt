// Lines of the log that begin with the time.
use jiff::Timestamp;
use log::kv::Source;
use log::span::Spans;
use log::{Line, Log, Metadata, Record};
use std::fmt::Display;
use std::rt::Clock;

/// Writes each record to standard error, behind the time in UTC, to the millisecond. Where the clock can't be read the line has none.
#[derive(Clone, Copy, Debug, Drop)]
pub(crate) struct Stamped<R>(pub(crate) R);

impl<R: Eprint + Clock> Log for Stamped<R> {
    fn enabled(&self, _metadata: &Metadata<'_>) -> bool {
        true
    }

    fn log<D: Display, K: Source, S: Spans>(&self, record: &Record<'_, D, K, S>) {
        let line = Line::new(record);
        // Where standard error fails nothing is left to tell that by.
        let _ = match now(&self.0) {
            Some(time) => eprintln!(self.0; "{time:.3} {line}"),
            None => eprintln!(self.0; "{line}"),
        };
    }

    fn flush(&self) {}

    fn target(&self) -> &str {
        ""
    }
}

fn now<R: Clock>(rt: &R) -> Option<Timestamp> {
    let since = rt.since_1970().ok()?;
    let milliseconds = i64::try_from(since.as_millis()).ok()?;
    Timestamp::from_millisecond(milliseconds).ok()
}
