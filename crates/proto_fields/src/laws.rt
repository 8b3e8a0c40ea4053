ghost use Rattle.proto_fields.specs.Laws.{ReadsVarints, ReadsSpellings, NamesFaults, ReadsWhole, ReadsFirstFault, HasOneReading, KeepsFault, WritesShortest, ReadsWhatIsPut};

/// A varint is read exactly where a spelling of its number stands at the front, and refused for the reason that stands.
pub fn reads_varints()
    ensures { ReadsVarints }
{}

/// A field is read exactly where a spelling of it stands at the front of the bytes.
pub fn reads_spellings()
    ensures { ReadsSpellings }
{}

/// A fault is answered exactly where it is the first that stands: of the tag's varint, the field number, the wire type, the value.
pub fn names_faults()
    ensures { NamesFaults }
{}

/// The fields of a string are those whose spellings, one after another, are the whole string.
pub fn reads_whole()
    ensures { ReadsWhole }
{}

/// The fault of a string is that behind the fields that can be read.
pub fn reads_first_fault()
    ensures { ReadsFirstFault }
{}

/// A string has one list of fields.
pub fn has_one_reading()
    ensures { HasOneReading }
{}

/// After a fault `Fields::next` answers the same fault ever after.
pub fn keeps_fault()
    ensures { KeepsFault }
{}

/// A number is written as a varint of it; each other varint of it is longer.
pub fn writes_shortest()
    ensures { WritesShortest }
{}

/// A field that is put is read again, whatever follows it.
pub fn reads_what_is_put()
    ensures { ReadsWhatIsPut }
{}
