ghost use Rattle.std.specs.Prelude.{◌≡◌};
ghost use Rattle.script.specs.Reading.{number_of};

/// The number below 2^64 that decimal digits write. A sign is no digit.
pub fn read_number(text: &[u8]) -> Option<u64>
    ensures { result ≡ number_of text.now }
{
    let first = *text.first()?;
    if first == b'+' {
        return None;
    }
    str::from_utf8(text).ok()?.parse().ok()
}
