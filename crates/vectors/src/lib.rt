// What the programs that run outside vectors share, over any digest or checksum in pieces.
#![tactic(auto)]

ghost use Rattle.std.specs.Prelude.{◌≡◌, ◌+◌, ◌*◌, ◌%◌, cond, length, map};
ghost use Rattle.std.specs.List.{range_with_len};

use in_pieces::InPieces;
use std::fmt::Display;
use std::{array, io};

// The greatest length of a message of `lengths`.
pub const LONGEST: usize = 300;

// A sum that can be printed as the outside tools do: in hex, each byte by two digits.
pub trait Hex {
    fn print_hex(&self, rt: &impl Print) -> io::Result<()>;

    // A line of the sum, with what stands before it and after it.
    fn print_line<B: Display + Drop, A: Display + Drop>(
        &self,
        rt: &impl Print,
        before: B,
        after: A,
    ) -> io::Result<()> {
        print!(rt; "{before}")?;
        self.print_hex(rt)?;
        println!(rt; "{after}")
    }
}

impl Hex for u32 {
    fn print_hex(&self, rt: &impl Print) -> io::Result<()> {
        print!(rt; "{self:08x}")
    }

    // In one write, so that no other program's output gets into the line.
    fn print_line<B: Display + Drop, A: Display + Drop>(
        &self,
        rt: &impl Print,
        before: B,
        after: A,
    ) -> io::Result<()> {
        println!(rt; "{before}{self:08x}{after}")
    }
}

// An array is no type of ours, so it cannot have `Display`.
impl Hex for [u8; 16] {
    fn print_hex(&self, rt: &impl Print) -> io::Result<()> {
        for byte in self {
            print!(rt; "{byte:02x}")?;
        }
        Ok(())
    }
}

// A line of a name and a sum.
pub fn named<H: Hex>(rt: &impl Print, name: &str, sum: &H) -> io::Result<()> {
    sum.print_line(rt, format_args!("{name} "), "")
}

// Byte i of a message of n bytes: it depends on n too, so that the messages of two lengths do not start alike.
fn byte(i: usize, n: usize) -> u8
    ensures { result ≡ (i * 7 + n) % 256 }
{
    // no `From` narrows: the check proves that nothing is lost
    ((i % 256 * 7 + n % 256) % 256) as u8
}

// A message of n bytes, at the front of an array of N, or as much of it as there is place for.
pub fn message<const N: usize>(n: usize) -> [u8; N]
    ensures { result ≡ map (λ i. (i * 7 + n) % 256) (range_with_len 0 N) }
{
    array::from_fn(|i| byte(i, n))
}

// The sum of s in two pieces, the first of k bytes, or of all where s has fewer.
pub fn in_two<S: InPieces>(s: &[u8], k: usize) -> S::Sum
    ensures { result ≡ S.whole s.now }
{
    let (first, second) = s.split_at(k.min(s.len()));
    in_pieces::of_two::<S>(first, second)
}

// In how many of the places where s can be cut in two the pieces give the sum.
pub fn agreeing<S: InPieces>(s: &[u8], sum: &S::Sum) -> usize
where
    S::Sum: PartialEq + Drop,
    ensures { result ≡ cond (S.Sum.eq (S.whole s.now) sum.now) (length s.now + 1) 0 }
{
    (0..s.len() + 1)
        .filter(|&k| in_two::<S>(s, k) == *sum)
        .count()
}

// A line of the length of s, its sum, and the number of places where the pieces agree.
fn line<S: InPieces>(rt: &impl Print, s: &[u8]) -> io::Result<()>
where
    S::Sum: Hex + PartialEq + Drop,
{
    let len = s.len();
    let sum = in_pieces::of::<S>(s);
    let cuts = agreeing::<S>(s, &sum);
    sum.print_line(rt, format_args!("{len} "), format_args!(" {cuts}"))
}

// A line for a message of each length from first to last, or to LONGEST.
pub fn lengths<S: InPieces>(rt: &impl Print, first: usize, last: usize) -> io::Result<()>
where
    S::Sum: Hex + PartialEq + Drop,
{
    for n in first..=last.min(LONGEST) {
        let m = message::<LONGEST>(n);
        line::<S>(rt, &m[..n])?;
    }
    Ok(())
}

// 1000 is no multiple of 16 or 64: the pieces start at different places of a block.
pub fn million<S: InPieces>(rt: &impl Print) -> io::Result<()>
where
    S::Sum: Hex + Drop,
{
    let piece = [b'a'; 1000];
    named(
        rt,
        "million a",
        &in_pieces::repeated::<S>(&piece, 1000).finish(),
    )
}

#[cfg(test)]
mod tests;
