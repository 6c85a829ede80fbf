// MD5, RFC 1321: the digest of a message that comes whole or in parts.
#![tactic(auto)]

ghost use Rattle.std.specs.Prelude.{◌≡◌, ◌+◌, ◌%◌, ◌≤◌, ◌++◌, length, take, fold};
ghost use Rattle.md5_digest.specs.Rfc1321.{block_of, word_bytes, length_bytes, run, output, md5};
ghost use Rattle.md5_digest.specs.Pieces.{rest, fill, held, fresh, feed, finish_of};
ghost use Rattle.md5_digest.specs.declared.Md5.{Md5 as Digest};

use block::Sines;

mod block;
mod pieces;

// A digest under way: the state after the whole blocks, the bytes after them at the front of tail, and how many bytes were fed,
// modulo 2^64. Every value has an answer. The tail is an array, and fed says how much of it counts: there is no heap, C passes the
// fields one by one, and the definitions of specs/Pieces.antt name them.
#[derive(Clone, Copy)]
pub struct Md5 {
    pub state: [u32; 4],
    pub tail: [u8; 64],
    pub fed: u64,
}

// The bytes of front, then those of s, then zeros.
#[tactic(auto, using(crate::proofs::Bytes::laid))]
fn lay(front: &[u8], s: &[u8]) -> [u8; 64]
    requires { length front.now + length s.now ≤ 64 }
    ensures { result ≡ fill (front.now ++ s.now) }
{
    let mut r = [0u8; 64];
    let n = front.len();
    r[..n].copy_from_slice(front);
    r[n..n + s.len()].copy_from_slice(s);
    r
}

// The state after each of the blocks. The only caller of `block`, so that the state stays in registers from block to block.
fn absorb(st: [u32; 4], blocks: &[[u8; 64]], t: &Sines) -> [u32; 4]
    ensures { result ≡ fold (λ q b. block_of b q) st blocks.now }
{
    let mut q = st;
    for b in blocks {
        let next = block::block(q, b, t);
        q = next;
    }
    q
}

// What follows a last whole block: the state after those of s, the rest held back.
#[tactic(auto, using(crate::proofs::Stream::absorbed), unfolding(crate::specs::Pieces::rest))]
fn taken(st: [u32; 4], s: &[u8], fed: u64) -> Md5
    ensures { ◌≡◌ {A = Digest} result (record { state = run s.now st; tail = fill (rest s.now); fed = fed }) }
{
    let (blocks, rest) = s.as_chunks::<64>();
    let state = absorb(st, blocks, &Sines::new());
    let tail = lay(&[], rest);
    Md5 { state, tail, fed }
}

// The first 56 bytes of t, and the number of bits in n bytes.
fn with_length(mut t: [u8; 64], n: u64) -> [u8; 64]
    ensures { result ≡ take 56 t ++ length_bytes n }
{
    let bits = n << 3;
    t[56..].copy_from_slice(&bits.to_le_bytes());
    t
}

// The four bytes of x, low byte first.
fn bytes_of(x: u32) -> [u8; 4]
    ensures { result ≡ word_bytes x }
{
    x.to_le_bytes()
}

// The 16 bytes of a state.
fn output_of(st: [u32; 4]) -> [u8; 16]
    ensures { result ≡ output st }
{
    let mut r = [0u8; 16];
    let bytes = st.map(bytes_of);
    r.copy_from_slice(bytes.as_flattened());
    r
}

impl Md5 {
    pub fn new() -> Md5
        ensures { result ≡ fresh }
    {
        Md5 {
            state: [0x67452301, 0xefcdab89, 0x98badcfe, 0x10325476],
            tail: [0; 64],
            fed: 0,
        }
    }

    // The bytes that are held back, those after the last whole block.
    #[tactic(auto, unfolding(crate::specs::Pieces::held))]
    fn held(&self) -> &[u8]
        ensures bytes { result.now ≡ held self.now }
        ensures len { length result.now ≡ self.now.fed % 64 }
    {
        // there is no `From<u64>` for `usize`: the check proves that nothing is lost
        &self.tail[..(self.fed % 64) as usize]
    }

    // The digest under way after the bytes of data. Whole blocks of data are read where they lie.
    pub fn update(self, data: &[u8]) -> Md5
        ensures { result ≡ feed self «data».now }
    {
        // nor a `From<usize>` for `u64`
        let fed = self.fed.wrapping_add(data.len() as u64);
        let held = self.held();
        if held.is_empty() {
            return taken(self.state, data, fed);
        }
        let room = 64 - held.len();
        if data.len() < room {
            let tail = lay(held, data);
            return Md5 { tail, fed, ..self };
        }
        let first = lay(held, &data[..room]);
        let state = absorb(self.state, &[first], &Sines::new());
        taken(state, &data[room..], fed)
    }

    // The digest of all that was fed.
    pub fn finish(self) -> [u8; 16]
        ensures { result ≡ finish_of self }
    {
        let held = self.held();
        let bit = [0x80u8];
        let last = lay(held, &bit);
        let sines = Sines::new();
        let fits = held.len() < 56;
        if fits {
            let block = with_length(last, self.fed);
            return output_of(absorb(self.state, &[block], &sines));
        }
        let state = absorb(self.state, &[last], &sines);
        let block = with_length([0; 64], self.fed);
        output_of(absorb(state, &[block], &sines))
    }
}

// The digest of data.
pub fn digest(data: &[u8]) -> [u8; 16]
    ensures { result ≡ md5 «data».now }
{
    Md5::new().update(data).finish()
}
