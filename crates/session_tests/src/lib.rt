//! A session over a plain stand-in for a broker, mostly in what no exchange of the program can show: a broker without room or
//! memory for a topic, or whose device fails in looking for one and settles it by the next search, names that are none of a
//! topic, lookups that make none, a topic that is gone, permits beyond all bounds, pumps whose device fails, whose file is
//! damaged or whose message finds no memory, what a pump answers at its bound, how a session that ended answers, and texts of
//! faults. They stand in a crate of their own, so that the check of the session is short. Nothing is promised here.
#![tactic(auto)]

#[cfg(test)]
mod tests;
