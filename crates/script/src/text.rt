ghost use Rattle.std.specs.Prelude.{◌≡◌, ◌∷◌, ◌<◌, ◌==◌, List, ℕ, option_map, length, position, IfSome};
ghost use Rattle.std.specs.List.{slice_split};
ghost use Rattle.script.specs.Script.{is_line_feed};
ghost use Rattle.script.specs.Reading.{after as what_follows, around as parts_around, pieces_of};

/// What follows `front`, where the text begins with it.
pub(crate) fn after<'a>(front: &[u8], text: &'a [u8]) -> Option<&'a [u8]>
    ensures { option_map (λ rest. rest.now) result ≡ what_follows front.now text.now }
{
    text.strip_prefix(front)
}

/// What stands before and behind the first of a byte, if there is one.
#[tactic(auto, unfolding(crate::specs::Reading::around))]
pub(crate) fn around(byte: u8, bytes: &[u8]) -> Option<(&[u8], &[u8])>
    ensures { option_map (λ parts. (parts.0.now, parts.1.now)) result ≡ parts_around byte bytes.now }
{
    let at = place_of(byte, bytes)?;
    Some((&bytes[..at], &bytes[at + 1..]))
}

/// The first of the pieces between line feeds, and what stands behind its line feed, if it has one.
pub(crate) fn first_piece(bytes: &[u8]) -> (&[u8], Option<&[u8]>)
    ensures pieces { slice_split is_line_feed bytes.now ≡ result.0.now ∷ pieces_of (option_map (λ rest. rest.now) result.1) }
    ensures shorter { IfSome result.1 (λ rest. length rest.now < length bytes.now) }
{
    match around(b'\n', bytes) {
        Some((piece, rest)) => (piece, Some(rest)),
        None => (bytes, None),
    }
}

// The first place of a byte.
fn place_of(byte: u8, bytes: &[u8]) -> Option<usize>
    ensures place { result ≡ position (λ other. other == byte) bytes.now }
    ensures within { IfSome result (λ at. at < length bytes.now) }
{
    bytes.iter().position(|other| *other == byte)
}
