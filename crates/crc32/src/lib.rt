// CRC-32 (IEEE 802.3): the checksum of a message that comes whole or in parts, sixteen bytes a step, the rest by fours and ones.
#![tactic(auto)]

ghost use Rattle.std.specs.Prelude.{◌≡◌, ◌+◌, ◌*◌, ◌≤◌, bit_xor};
ghost use Rattle.crc32.specs.Crc.{steps, crc_of, crc32, fresh, feed, finish_of};

mod pieces;
mod table;

use table::entry;

// A checksum under way: the register after the bytes fed. Every value has an answer.
#[derive(Clone, Copy)]
pub struct Crc32 {
    pub register: u32,
}

// The register x after four bytes of zeros and k more.
fn four(k: usize, x: u32) -> u32
    requires { k ≤ 12 }
    ensures { result ≡ steps (8 * (k + 4)) x }
{
    let [a, b, c, d] = x.to_be_bytes();
    entry(k, a) ^ entry(k + 1, b) ^ entry(k + 2, c) ^ entry(k + 3, d)
}

// The register after the byte b.
fn byte(r: u32, b: u8) -> u32
    ensures { result ≡ steps 8 (bit_xor r b) }
{
    let x = r ^ u32::from(b);
    let [low, _, _, _] = x.to_le_bytes();
    (x >> 8) ^ entry(0, low)
}

// The register after the four bytes of s.
fn four_bytes(r: u32, s: &[u8; 4]) -> u32
    ensures { result ≡ crc_of r s.now }
{
    four(0, r ^ u32::from_le_bytes(*s))
}

// The register after the sixteen bytes of s. What waits for r comes last.
fn sixteen(r: u32, s: &[u8; 16]) -> u32
    ensures { result ≡ crc_of r s.now }
{
    let (words, _) = s.as_chunks::<4>();
    four(0, u32::from_le_bytes(words[3]))
        ^ four(4, u32::from_le_bytes(words[2]))
        ^ four(8, u32::from_le_bytes(words[1]))
        ^ four(12, r ^ u32::from_le_bytes(words[0]))
}

// The register after s, a byte at a time.
fn bytes(r: u32, s: &[u8]) -> u32
    ensures { result ≡ crc_of r s.now }
{
    s.iter().copied().fold(r, byte)
}

// The register after s, a word at a time. Apart from `sixteens`: a bound `Fn` that names a const parameter, the width, is not covered yet.
fn words(r: u32, s: &[u8]) -> u32
    ensures { result ≡ crc_of r s.now }
{
    let (words, rest) = s.as_chunks::<4>();
    bytes(words.iter().fold(r, four_bytes), rest)
}

// The register after s, sixteen bytes at a time.
fn sixteens(r: u32, s: &[u8]) -> u32
    ensures { result ≡ crc_of r s.now }
{
    let (blocks, rest) = s.as_chunks::<16>();
    words(blocks.iter().fold(r, sixteen), rest)
}

impl Crc32 {
    pub fn new() -> Crc32
        ensures { result ≡ fresh }
    {
        Crc32 {
            register: 0xffff_ffff,
        }
    }

    // The checksum under way after the bytes of data.
    pub fn update(self, data: &[u8]) -> Crc32
        ensures { result ≡ feed self «data».now }
    {
        Crc32 {
            register: sixteens(self.register, data),
        }
    }

    // The checksum of all that was fed.
    pub fn finish(self) -> u32
        ensures { result ≡ finish_of self }
    {
        self.register ^ 0xffff_ffff
    }
}

// The checksum of data.
pub fn checksum(data: &[u8]) -> u32
    ensures { result ≡ crc32 «data».now }
{
    Crc32::new().update(data).finish()
}
