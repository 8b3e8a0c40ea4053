ghost use Rattle.frames.specs.Laws.{HasReading, OneReading, NoFrameAtFault, AnyPieces, AnyCut, WritesFrames, WritesApart, WritesLists, WritesReplies};

/// Each stream of bytes has one reading: its frames, and an unfinished frame or a fault behind
/// them.
pub fn one_reading()
    ensures some { HasReading }
    ensures no_other { OneReading }
    ensures faulty { NoFrameAtFault }
{}

/// However a stream is cut into pieces, a parser reads it as if it came in one.
pub fn any_cut()
    ensures pieces { AnyPieces }
    ensures cuts { AnyCut }
{}

/// Written frames, one after another, can be told apart, and tell their replies.
pub fn written_frames()
    ensures form { WritesFrames }
    ensures apart { WritesApart }
    ensures lists { WritesLists }
    ensures replies { WritesReplies }
{}
