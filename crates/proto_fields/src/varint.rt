ghost use Rattle.std.specs.Prelude.{◌≡◌, ◌<◌, ◌∷◌, [], MatchOption, IfSome};
ghost use Rattle.proto_fields.specs.Varint.{varint_at};
ghost use Rattle.proto_fields.specs.Reading.{Gives};

use crate::fault::FieldFault;

/// Nine groups of seven bits leave one bit of 64 to the tenth byte.
const MAX_TENTH_BYTE: u8 = 1;

/// The first byte, and the bytes after it.
fn first_byte(bytes: &[u8]) -> Option<(u8, &[u8])>
    ensures front { MatchOption result (bytes.now ≡ []) (λ x. bytes.now ≡ x.0 ∷ x.1.now) }
    ensures byte { IfSome result (λ x. x.0 < 256) }
{
    let (first, rest) = bytes.split_first()?;
    Some((*first, rest))
}

/// The varint at the front, and the bytes after it. Protocol Buffers encoding guide, Base 128 Varints.
pub fn varint_at(bytes: &[u8]) -> Result<(u64, &[u8]), FieldFault>
    ensures { Gives (λ x. (x.0, x.1.now)) result (varint_at bytes.now) }
{
    let mut value: u64 = 0;
    let mut weight: u64 = 1;
    let mut rest = bytes;
    'groups: for _ in 0..9u32 {
        let Some((first, after)) = first_byte(rest) else {
            return Err(FieldFault::Cut);
        };
        if first < 128 {
            return Ok((value + u64::from(first) * weight, after));
        }
        value += u64::from(first - 128) * weight;
        weight *= 128;
        rest = after;
    }
    let Some((tenth, after)) = first_byte(rest) else {
        return Err(FieldFault::Cut);
    };
    if tenth > MAX_TENTH_BYTE {
        return Err(FieldFault::TooLong);
    }
    Ok((value + u64::from(tenth) * weight, after))
}
