// The hash of a key: MurmurHash3 for x86, 32 bits, with seed 0, by Austin Appleby.
ghost use Rattle.std.specs.Prelude.{◌≡◌, ◌<◌, length};
ghost use Rattle.key_shared.specs.Murmur.{scrambled, mixed, finished, murmur, slot_of, little_endian};

/// The slot of a key: the low 16 bits of its hash.
pub fn slot(key: &[u8]) -> u16
    ensures { result ≡ slot_of key.now }
{
    (murmur(key) % 0x1_0000) as u16
}

/// The hash of a byte string.
pub(crate) fn murmur(bytes: &[u8]) -> u32
    ensures { result ≡ murmur bytes.now }
{
    let mut hash = 0u32;
    let mut rest = bytes;
    while let [a, b, c, d, later @ ..] = rest {
        hash = mixed(hash, u32::from_le_bytes([*a, *b, *c, *d]));
        rest = later;
    }
    let tail = scrambled(little_endian(rest));
    let length = (bytes.len() % 0x1_0000_0000) as u32;
    finished(hash ^ tail ^ length)
}

/// The number that up to three bytes spell, the low one first.
fn little_endian(bytes: &[u8]) -> u32
    requires { length bytes.now < 4 }
    ensures { result ≡ little_endian bytes.now }
{
    match bytes {
        [] => 0,
        [a] => u32::from_le_bytes([*a, 0, 0, 0]),
        [a, b] => u32::from_le_bytes([*a, *b, 0, 0]),
        [a, b, c, ..] => u32::from_le_bytes([*a, *b, *c, 0]),
    }
}

/// The three steps on the number of a block.
fn scrambled(block: u32) -> u32
    ensures { result ≡ scrambled block }
{
    block
        .wrapping_mul(0xcc9e_2d51)
        .rotate_left(15)
        .wrapping_mul(0x1b87_3593)
}

/// The hash behind a whole block.
fn mixed(hash: u32, block: u32) -> u32
    ensures { result ≡ mixed hash block }
{
    (hash ^ scrambled(block))
        .rotate_left(13)
        .wrapping_mul(5)
        .wrapping_add(0xe654_6b64)
}

/// Spreads each bit of the hash over all of it.
fn finished(hash: u32) -> u32
    ensures { result ≡ finished hash }
{
    let once = (hash ^ (hash >> 16)).wrapping_mul(0x85eb_ca6b);
    let twice = (once ^ (once >> 13)).wrapping_mul(0xc2b2_ae35);
    twice ^ (twice >> 16)
}
