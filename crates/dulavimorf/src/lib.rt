// The calls for programs in C or Rust. `rt lib` in this folder puts them into one library. A state is the fields of its struct,
// each behind a pointer of its own, since that is what C passes; bytes are a pointer and a length.
// An array in a field is read into a variable before it is stored: the borrow checker covers no other way yet.
#![tactic(auto)]

ghost use Rattle.std.specs.Prelude.{◌≡◌};
ghost use Rattle.md5_digest.specs.Rfc1321.{md5};
ghost use Rattle.md5_digest.specs.Pieces.{fresh as fresh_digest, feed as feed_digest, finish_of as finish_digest};
ghost use Rattle.md5_digest.specs.declared.Md5.{Md5 as Digest};
ghost use Rattle.crc32.specs.Crc.{crc32, fresh, feed, finish_of};
ghost use Rattle.crc32.specs.declared.Crc32.{Crc32 as Sum};

use crc32::Crc32;
use md5_digest::Md5;

#[unsafe(no_mangle)]
pub extern "C" fn dulavimorf_md5_new(state: &mut [u32; 4], tail: &mut [u8; 64], fed: &mut u64)
    ensures { ◌≡◌ {A = Digest} (record { state = state.new; tail = tail.new; fed = fed.new }) fresh_digest }
{
    let m = Md5::new();
    let s = m.state;
    let t = m.tail;
    *state = s;
    *tail = t;
    *fed = m.fed;
}

#[unsafe(no_mangle)]
pub extern "C" fn dulavimorf_md5_update(
    state: &mut [u32; 4],
    tail: &mut [u8; 64],
    fed: &mut u64,
    data: &[u8],
)
    ensures { ◌≡◌ {A = Digest} (record { state = state.new; tail = tail.new; fed = fed.new }) (feed_digest (record { state = state.old; tail = tail.old; fed = fed.old }) «data».now) }
{
    let m = Md5 {
        state: *state,
        tail: *tail,
        fed: *fed,
    };
    let n = m.update(data);
    let s = n.state;
    let t = n.tail;
    *state = s;
    *tail = t;
    *fed = n.fed;
}

#[unsafe(no_mangle)]
pub extern "C" fn dulavimorf_md5_finish(
    state: &[u32; 4],
    tail: &[u8; 64],
    fed: u64,
    out: &mut [u8; 16],
)
    ensures { out.new ≡ finish_digest (record { state = state.now; tail = tail.now; fed = fed }) }
{
    let m = Md5 {
        state: *state,
        tail: *tail,
        fed: fed,
    };
    *out = m.finish();
}

#[unsafe(no_mangle)]
pub extern "C" fn dulavimorf_md5(data: &[u8], out: &mut [u8; 16])
    ensures { out.new ≡ md5 «data».now }
{
    *out = md5_digest::digest(data);
}

#[unsafe(no_mangle)]
pub extern "C" fn dulavimorf_crc32_new() -> u32
    ensures { ◌≡◌ {A = Sum} (record { register = result }) fresh }
{
    Crc32::new().register
}

#[unsafe(no_mangle)]
pub extern "C" fn dulavimorf_crc32_update(register: u32, data: &[u8]) -> u32
    ensures { ◌≡◌ {A = Sum} (record { register = result }) (feed (record { register = register }) «data».now) }
{
    let c = Crc32 { register };
    c.update(data).register
}

#[unsafe(no_mangle)]
pub extern "C" fn dulavimorf_crc32_finish(register: u32) -> u32
    ensures { result ≡ finish_of (record { register = register }) }
{
    let all = Crc32 { register };
    all.finish()
}

#[unsafe(no_mangle)]
pub extern "C" fn dulavimorf_crc32(data: &[u8]) -> u32
    ensures { result ≡ crc32 «data».now }
{
    crc32::checksum(data)
}
