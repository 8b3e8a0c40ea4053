// The files of a node's folder, and their names.
ghost use Rattle.std.specs.Prelude.{◌≡◌};
ghost use Rattle.disk.specs.Areas.{folder_of, served};

use std::fmt;

/// The version of a folder. Each has names of its own, so that the files of both may stand in one folder.
#[derive(Clone, Copy, Debug, PartialEq, Eq, PartialOrd, Ord, Hash)]
pub enum Folder {
    One,
    Two,
}

/// A topic in a folder of one version, by its number there.
#[derive(Clone, Copy, Debug, PartialEq, Eq, PartialOrd, Ord, Hash)]
pub struct TopicId {
    pub folder: Folder,
    pub number: u16,
}

/// A cursor file's place: each topic keeps its subscriptions in one of two files in turn.
#[derive(Clone, Copy, Debug, PartialEq, Eq, PartialOrd, Ord, Hash)]
pub enum CursorSlot {
    Zero,
    One,
}

/// A file of the folder. A missing file is an empty one.
///
/// It prints as its file name (our own rule): `catalog2.dat`, `u00003-e00000012.dat` for segment 12
/// of topic 3, `u00003-c0.dat` and `u00003-c1.dat` for the topic's two cursor files; those of folder
/// version 1 are `catalog.dat`, `t00003-e00000012.dat` and so on.
#[derive(Clone, Copy, Debug, PartialEq, Eq, PartialOrd, Ord, Hash)]
pub enum FileId {
    Catalog(Folder),
    Segment { topic: TopicId, number: u64 },
    Slot { topic: TopicId, slot: CursorSlot },
}

/// The topic of this number in a folder that is served.
pub fn served(number: u16) -> TopicId
    ensures { result ≡ served number }
{
    TopicId {
        folder: Folder::Two,
        number,
    }
}

/// The list of topics in a folder that is served.
pub const CATALOG: FileId = FileId::Catalog(Folder::Two);

/// The version of the folder that a file is of.
pub fn folder_of(file: FileId) -> Folder
    ensures { result ≡ folder_of file }
{
    match file {
        FileId::Catalog(folder) => folder,
        FileId::Segment { topic, .. } => topic.folder,
        FileId::Slot { topic, .. } => topic.folder,
    }
}

impl fmt::Display for CursorSlot {
    fn fmt<W: fmt::Write>(&self, f: &mut fmt::Formatter<W>) -> fmt::Result {
        match self {
            CursorSlot::Zero => write!(f, "0"),
            CursorSlot::One => write!(f, "1"),
        }
    }
}

impl fmt::Display for TopicId {
    fn fmt<W: fmt::Write>(&self, f: &mut fmt::Formatter<W>) -> fmt::Result {
        let number = self.number;
        match self.folder {
            Folder::One => write!(f, "t{number:05}"),
            Folder::Two => write!(f, "u{number:05}"),
        }
    }
}

impl fmt::Display for FileId {
    fn fmt<W: fmt::Write>(&self, f: &mut fmt::Formatter<W>) -> fmt::Result {
        match self {
            FileId::Catalog(Folder::One) => write!(f, "catalog.dat"),
            FileId::Catalog(Folder::Two) => write!(f, "catalog2.dat"),
            FileId::Segment { topic, number } => write!(f, "{topic}-e{number:08}.dat"),
            FileId::Slot { topic, slot } => write!(f, "{topic}-c{slot}.dat"),
        }
    }
}
