// Runs outside vectors through the compiled `md5_digest` and prints what it gets. Nothing expected stands here: the gate compares the
// output with `stdout`, which md5sum made.
#![tactic(auto)]

use in_pieces::repeated;
use md5_digest::{Md5, digest};
use std::io;
use vectors::{Hex, lengths, million, named};

// A line of RFC 1321, A.5.
fn quoted(rt: &impl Print, text: &str) -> io::Result<()> {
    print!(rt; "MD5 (\"{text}\") = ")?;
    digest(text.as_bytes()).print_hex(rt)?;
    println!(rt; "")
}

fn rfc1321(rt: &impl Print) -> io::Result<()> {
    quoted(rt, "")?;
    quoted(rt, "a")?;
    quoted(rt, "abc")?;
    quoted(rt, "message digest")?;
    quoted(rt, "abcdefghijklmnopqrstuvwxyz")?;
    quoted(
        rt,
        "ABCDEFGHIJKLMNOPQRSTUVWXYZabcdefghijklmnopqrstuvwxyz0123456789",
    )?;
    quoted(
        rt,
        "12345678901234567890123456789012345678901234567890123456789012345678901234567890",
    )
}

// 2^29 zero bytes and one more: the number of bits needs the high word of the length field.
fn over_four_gigabits(rt: &impl Print) -> io::Result<()> {
    let piece = [0u8; 65536];
    let under_way: Md5 = repeated(&piece, 8192);
    named(rt, "2^32 bits", &under_way.update(b"\x00").finish())
}

// The lengths go past two blocks, so that the padding's edges, at 56 and 120 bytes, lie within.
fn main(rt: HostRuntime) -> io::Result<()> {
    rfc1321(&rt)?;
    lengths::<Md5>(&rt, 0, 130)?;
    million::<Md5>(&rt)?;
    over_four_gigabits(&rt)
}
