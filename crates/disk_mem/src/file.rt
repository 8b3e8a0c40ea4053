// One file of the device in memory.
ghost use Rattle.std.specs.Prelude.{◌≤◌, vec_capacity};
ghost use Rattle.disk.specs.Disk.{Filled};
ghost use Rattle.disk_mem.specs.FileState.{IsSound};

use crate::settle::{fill_spans, overwrite, settle};
use crate::span::Span;
use disk::CrashForm;
use std::alloc::{AllocError, Global};

// Both buffers have room for the greatest end, so that a sync and a crash need no memory.
#[derive(Drop)]
pub(crate) struct File {
    // What reads give.
    pub(crate) bytes: Vec<u8>,
    // What they gave at the last good sync.
    pub(crate) synced: Vec<u8>,
    // The ranges written since.
    pub(crate) written: Vec<Span>,
    // The least and the greatest end since.
    pub(crate) least: usize,
    pub(crate) greatest: usize,
    ghost sound: { IsSound (record { bytes = bytes.items; synced = synced.items; written = written.items; least = least; greatest = greatest }) },
    ghost room: { greatest ≤ vec_capacity bytes },
    ghost synced_room: { greatest ≤ vec_capacity synced },
}

impl File {
    ghost use Rattle.std.specs.Prelude.{◌≡◌, ◌≤◌, ◌+◌, ◌^◌, length, OnOk, OnErr};
    ghost use Rattle.disk.specs.Disk.{Filled};
    ghost use Rattle.disk_mem.specs.FileState.{empty, after_write, after_cut, settled, CrashesTo, IsFilled};
    ghost use Rattle.disk_mem.specs.Files.{state};

    pub(crate) fn new(alloc: Global) -> File
        ensures { state result ≡ empty }
    {
        File {
            bytes: Vec::new(alloc),
            synced: Vec::new(alloc),
            written: Vec::new(alloc),
            least: 0,
            greatest: 0,
        }
    }

    pub(crate) fn len(&self) -> usize
        ensures len { result ≡ length (state self.now).bytes }
        ensures bounded { result ≤ 2 ^ 62 }
    {
        self.bytes.len()
    }

    // Reads from an offset on.
    pub(crate) fn read(&self, offset: u64, buffer: &mut [u8]) -> usize
        ensures { Filled (state self.now).bytes offset buffer.old result buffer.new }
    {
        read_at(&self.bytes, offset as usize, buffer)
    }

    // Writes, from the end on where the offset lies past it. Without memory nothing changes.
    pub(crate) fn write(&mut self, offset: u64, bytes: &[u8]) -> Result<(), AllocError>
        requires { offset + length bytes.now ≤ 2 ^ 62 }
        ensures ok { OnOk result (state self.new ≡ after_write offset bytes.now (state self.old)) }
        ensures err { OnErr result (state self.new ≡ state self.old) }
    {
        let at = (offset as usize).min(self.bytes.len());
        let end = at + bytes.len();
        let greatest = self.greatest.max(end);
        self.bytes.reserve(greatest - self.bytes.len())?;
        self.synced.reserve(greatest - self.synced.len())?;
        self.written.reserve(1)?;
        overwrite(&mut self.bytes, at, bytes);
        self.written.push_reserved(Span { start: at, end });
        self.greatest = greatest;
        Ok(())
    }

    pub(crate) fn cut(&mut self, len: u64)
        ensures { state self.new ≡ after_cut len (state self.old) }
    {
        let len = len as usize;
        self.bytes.truncate(len);
        self.least = self.least.min(len);
    }

    pub(crate) fn sync(&mut self)
        ensures { state self.new ≡ settled (state self.old).bytes }
    {
        settle(&mut self.synced, &self.bytes, &self.written, self.least);
        self.written.clear();
        self.least = self.bytes.len();
        self.greatest = self.bytes.len();
    }

    // Cuts the power.
    pub(crate) fn crash(&mut self, form: CrashForm)
        ensures { CrashesTo form (state self.old) (state self.new) }
    {
        match form {
            CrashForm::Old => settle(&mut self.bytes, &self.synced, &self.written, self.least),
            CrashForm::New => {}
            CrashForm::Fill(byte) => self.fill(byte),
        }
        self.sync();
    }

    // Fills all that may be anything.
    fn fill(&mut self, byte: u8)
        ensures bytes { IsFilled byte (state self.old) (state self.new).bytes }
        ensures others { state self.new ≡ record (state self.old) { bytes = (state self.new).bytes } }
    {
        self.bytes.truncate(self.least);
        fill_spans(&mut self.bytes, &self.written, byte);
        let grown = self.bytes.resize(self.greatest, byte);
        prove!(grown.is_ok());
    }
}

// Copies what there is from the offset on.
fn read_at(bytes: &[u8], offset: usize, buffer: &mut [u8]) -> usize
    ensures { Filled bytes.now offset buffer.old result buffer.new }
{
    let from = offset.min(bytes.len());
    let count = buffer.len().min(bytes.len() - from);
    buffer[..count].copy_from_slice(&bytes[from..from + count]);
    count
}
