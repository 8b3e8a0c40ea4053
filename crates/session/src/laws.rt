ghost use Rattle.session.specs.Laws.{FeedsWriteFrames, PumpsWriteFrames, FramesTell, PumpsFinish, PumpsServe, ConsumersRise, EndedFeedsLeave, EndedPumpsLeave, LostRepliesAreAbsorbed, WantOfMemoryIsNamed};

/// What a session appends to its bytes out are frames, each whole, of replies within their bounds; and no other such frames
/// have these bytes.
pub fn writes_whole_frames()
    ensures feeds { FeedsWriteFrames }
    ensures pumps { PumpsWriteFrames }
    ensures tells { FramesTell }
{}

/// A pump that stopped by itself left nothing due to the session.
pub fn pumps_finish()
    ensures { PumpsFinish }
{}

/// A pump that stopped by itself left no position that a consumer of its session may get.
pub fn pumps_serve()
    ensures { PumpsServe }
{}

/// A session's consumers stand in rising id, in which a pump serves them.
pub fn consumers_rise()
    ensures { ConsumersRise }
{}

/// A session that a call ended has no producer or consumer on a topic any more, and no topic owes it a reply.
pub fn ended_sessions_leave()
    ensures feeds { EndedFeedsLeave }
    ensures pumps { EndedPumpsLeave }
{}

/// A session that leaves absorbs a reply that it took and that found no memory: the count of receipts that were handed on
/// alone tells of it.
pub fn lost_replies_are_absorbed()
    ensures { LostRepliesAreAbsorbed }
{}

/// A frame ends its session for want of memory only where its command may: never a REDELIVER, and a CLOSE_CONSUMER only where its
/// reply finds none.
pub fn want_of_memory_is_named()
    ensures { WantOfMemoryIsNamed }
{}
