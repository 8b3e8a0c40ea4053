// What a node keeps through a life, and what no output of one is.
ghost use Rattle.node.specs.Keeping.{NamesAreKept, OutputsTellNoFault};

/// A number keeps its name, and the broker its URL and how many entry ids a ledger id has, through failures, openings and crashes.
pub fn names_are_kept()
    ensures { NamesAreKept }
{}

/// No output of a run or a life tells damage, another version, a missing list or something that is too large: a refusal is for want of
/// memory or for a failure of the device.
pub fn outputs_tell_no_fault()
    ensures { OutputsTellNoFault }
{}
