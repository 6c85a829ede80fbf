// Runs outside vectors through the compiled `crc32` and prints what it gets. Nothing expected stands here: the gate compares the output
// with `stdout`, which zlib made.
#![tactic(auto)]

use crc32::{Crc32, checksum};
use std::io;
use vectors::{lengths, million, named};

// The lengths run past two steps of 16 bytes, so that what is left over takes each value, and from 240 on past many.
fn main(rt: HostRuntime) -> io::Result<()> {
    named(&rt, "123456789", &checksum(b"123456789"))?;
    named(&rt, "empty", &checksum(b""))?;
    lengths::<Crc32>(&rt, 0, 40)?;
    lengths::<Crc32>(&rt, 240, 300)?;
    million::<Crc32>(&rt)
}
