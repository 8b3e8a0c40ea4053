use std::marker::Model;

/// Bytes of the input that a field holds, which contracts see as the list of them.
pub struct ByteSlice<'a> {
    bytes: &'a [u8],
}

impl<'a> Model for ByteSlice<'a> {
    ghost use Rattle.std.specs.Prelude.{List, ℕ};

    ghost Value = { List ℕ };

    ghost view = { λ s. s.bytes.now };
}

impl<'a> Drop for ByteSlice<'a> {
    fn drop(self) {
        let ByteSlice { bytes: _ } = self;
    }
}

impl<'a> ByteSlice<'a> {
    ghost use Rattle.std.specs.Prelude.{◌≡◌};

    /// The whole of the bytes.
    pub fn new(bytes: &'a [u8]) -> ByteSlice<'a>
        ensures { result ≡ bytes.now }
    {
        ByteSlice { bytes }
    }

    /// The bytes, which outlive this value: they are the input's.
    pub fn as_slice(&self) -> &'a [u8]
        ensures { result.now ≡ self.now }
    {
        self.bytes
    }
}
