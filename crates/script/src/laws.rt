ghost use Rattle.script.specs.Laws.{LinesHaveOneReading, ScriptsHaveOneReading, IsScriptOrBad, ScriptsHaveNoBadLine, OneLineIsFirstBad, PrintedBytesAreRead};

/// Bytes are one script, or have one first bad line.
pub fn one_reading()
    ensures lines { LinesHaveOneReading }
    ensures scripts { ScriptsHaveOneReading }
    ensures either { IsScriptOrBad }
    ensures not_both { ScriptsHaveNoBadLine }
    ensures first { OneLineIsFirstBad }
{}

/// What is printed of some bytes is hex that a script may hold.
pub fn printed_bytes_are_read()
    ensures { PrintedBytesAreRead }
{}
