// The block function of MD5 (RFC 1321, section 3.4): the state after one block of 64 bytes, which is read where it lies.
ghost use Rattle.std.specs.Prelude.{◌≡◌, ℕ, ◌+◌, ◌%◌, ◌^◌, ◌<◌, ◌≤◌, slice_index};
ghost use Rattle.std.proofs.Common.{lit≤};
ghost use Rattle.md5_digest.specs.Rfc1321.{sines, shifts, words, mix_of, step_of, steps_of, block_of};

// The 64 additive constants, T[1] to T[64] of the RFC.
const SINES: [u32; 64] = [
    0xd76aa478, 0xe8c7b756, 0x242070db, 0xc1bdceee, 0xf57c0faf, 0x4787c62a, 0xa8304613, 0xfd469501,
    0x698098d8, 0x8b44f7af, 0xffff5bb1, 0x895cd7be, 0x6b901122, 0xfd987193, 0xa679438e, 0x49b40821,
    0xf61e2562, 0xc040b340, 0x265e5a51, 0xe9b6c7aa, 0xd62f105d, 0x02441453, 0xd8a1e681, 0xe7d3fbc8,
    0x21e1cde6, 0xc33707d6, 0xf4d50d87, 0x455a14ed, 0xa9e3e905, 0xfcefa3f8, 0x676f02d9, 0x8d2a4c8a,
    0xfffa3942, 0x8771f681, 0x6d9d6122, 0xfde5380c, 0xa4beea44, 0x4bdecfa9, 0xf6bb4b60, 0xbebfbc70,
    0x289b7ec6, 0xeaa127fa, 0xd4ef3085, 0x04881d05, 0xd9d4d039, 0xe6db99e5, 0x1fa27cf8, 0xc4ac5665,
    0xf4292244, 0x432aff97, 0xab9423a7, 0xfc93a039, 0x655b59c3, 0x8f0ccc92, 0xffeff47d, 0x85845dd1,
    0x6fa87e4f, 0xfe2ce6e0, 0xa3014314, 0x4e0811a1, 0xf7537e82, 0xbd3af235, 0x2ad7d2bb, 0xeb86d391,
];

// The shift amounts of the 64 operations.
static SHIFTS: [u32; 64] = [
    7, 12, 17, 22, 7, 12, 17, 22, 7, 12, 17, 22, 7, 12, 17, 22, 5, 9, 14, 20, 5, 9, 14, 20, 5, 9,
    14, 20, 5, 9, 14, 20, 4, 11, 16, 23, 4, 11, 16, 23, 4, 11, 16, 23, 4, 11, 16, 23, 6, 10, 15,
    21, 6, 10, 15, 21, 6, 10, 15, 21, 6, 10, 15, 21,
];

// The shift amount of operation i + 1.
fn shift(i: usize) -> u32
    requires { i < 64 }
    ensures is { result ≡ slice_index shifts i }
    ensures within { (0 < result) × (result < 32) }
{
    SHIFTS[i]
}

// The constants, laid out to be lent. From a static they become operands, which are added last, so that the next operation waits for
// them: 421 MiB/s instead of 632 (measured).
#[derive(Drop)]
pub struct Sines {
    table: [u32; 64],
    ghost exact: { table ≡ sines },
}

impl Sines {
    pub fn new() -> Sines
        ensures { result.table ≡ sines }
    {
        Sines { table: SINES }
    }

    // T[i + 1].
    fn at(&self, i: usize) -> u32
        requires { i < 64 }
        ensures { result ≡ slice_index sines i }
    {
        self.table[i]
    }
}

// One of the four rounds: operations FIRST + 1 to FIRST + 16, which share a function of b, c and d.
trait Round {
    // How many operations come before the round: for the code, and under the same name for the clauses.
    const FIRST: usize;

    ghost FIRST: { ℕ };

    // The word of the block that operation n of the round takes.
    fn word_of(n: usize) -> usize
        requires { n < 16 }
        ensures is { result ≡ slice_index words (FIRST + n) }
        ensures below { result < 16 };

    // a, what each operation of the round makes of b, c and d, and x, added modulo 2^32. What waits for b comes last.
    fn sum(q: [u32; 4], x: u32) -> u32
        ensures { (n : ℕ) → n < 16 → result ≡ (slice_index q 0 + mix_of (FIRST + n) (slice_index q 1) (slice_index q 2) (slice_index q 3) + x) % 2 ^ 32 };

    // A law: so that the tables of 64 have an entry for each operation.
    ghost within: { FIRST + 16 ≤ 64 };
}

// The rounds, by the names of their functions.
struct F;

struct G;

struct H;

struct I;

impl Round for F {
    const FIRST: usize = 0;

    ghost FIRST = { 0 };

    ghost within = { lit≤ tt };

    fn word_of(n: usize) -> usize {
        n
    }

    fn sum(q: [u32; 4], x: u32) -> u32 {
        q[0].wrapping_add(x)
            .wrapping_add((q[1] & q[2]) | (!q[1] & q[3]))
    }
}

impl Round for G {
    const FIRST: usize = 16;

    ghost FIRST = { 16 };

    ghost within = { lit≤ tt };

    fn word_of(n: usize) -> usize {
        (1 + 5 * n) % 16
    }

    // The two parts have no bit in common, so that they are added, the one that waits for b last.
    fn sum(q: [u32; 4], x: u32) -> u32 {
        q[0].wrapping_add(x.wrapping_add(q[2] & !q[3]))
            .wrapping_add(q[1] & q[3])
    }
}

impl Round for H {
    const FIRST: usize = 32;

    ghost FIRST = { 32 };

    ghost within = { lit≤ tt };

    fn word_of(n: usize) -> usize {
        (5 + 3 * n) % 16
    }

    fn sum(q: [u32; 4], x: u32) -> u32 {
        q[0].wrapping_add(x).wrapping_add(q[1] ^ q[2] ^ q[3])
    }
}

impl Round for I {
    const FIRST: usize = 48;

    ghost FIRST = { 48 };

    ghost within = { lit≤ tt };

    fn word_of(n: usize) -> usize {
        7 * n % 16
    }

    fn sum(q: [u32; 4], x: u32) -> u32 {
        q[0].wrapping_add(x).wrapping_add(q[2] ^ (q[1] | !q[3]))
    }
}

// Operation n of a round: a = b + ((a + f + x + t) <<< s), and the words in the order of the next.
#[inline(always)]
fn operation<R: Round>(q: [u32; 4], p: &[u8; 64], n: usize, t: &Sines) -> [u32; 4]
    requires { n < 16 }
    ensures { result ≡ step_of p.now (R.FIRST + n) q }
{
    let i = R::FIRST + n;
    let (words, _) = p.as_chunks::<4>();
    let x = u32::from_le_bytes(words[R::word_of(n)]);
    let sum = R::sum(q, x.wrapping_add(t.at(i)));
    let a = q[1].wrapping_add(sum.rotate_left(shift(i)));
    [q[3], a, q[1], q[2]]
}

// The 16 operations of a round. Both are inlined, so that the state stays in registers and the shift amounts are known.
#[inline(always)]
#[tactic(auto, unfolding(crate::specs::Rfc1321::steps_of))]
fn run_round<R: Round>(st: [u32; 4], p: &[u8; 64], t: &Sines) -> [u32; 4]
    ensures { result ≡ steps_of p.now R.FIRST 16 st }
{
    let mut q = st;
    for n in 0..16 {
        // by way of `next`, here and in `absorb`: the borrow checker does not cover `q = f(q, ..)` for an array yet
        let next = operation::<R>(q, p, n, t);
        q = next;
    }
    q
}

// The state after the block p.
#[tactic(auto, unfolding(crate::specs::Rfc1321::block_of))]
pub fn block(st: [u32; 4], p: &[u8; 64], t: &Sines) -> [u32; 4]
    ensures { result ≡ block_of p.now st }
{
    let q = run_round::<F>(st, p, t);
    let q = run_round::<G>(q, p, t);
    let q = run_round::<H>(q, p, t);
    let q = run_round::<I>(q, p, t);
    [
        st[0].wrapping_add(q[0]),
        st[1].wrapping_add(q[1]),
        st[2].wrapping_add(q[2]),
        st[3].wrapping_add(q[3]),
    ]
}
