// How a line is printed: over the least sum in pieces, by a printer that counts.
ghost use Rattle.std.specs.Prelude.{◌≡◌};
ghost use Rattle.std.proofs.Common.{refl};

use super::*;
use std::cell::Cell;

// The least sum in pieces, 0 of every message, with no call of its own for a whole one.
#[derive(Drop)]
struct Zero;

impl InPieces for Zero {
    type Sum = u32;

    ghost whole = { λ a. 0 };

    ghost fresh = { record {} };

    ghost feed = { λ m a. m };

    ghost finish_of = { λ m. 0 };

    fn new() -> Zero {
        Zero
    }

    fn update(self, _data: &[u8]) -> Zero {
        self
    }

    fn finish(self) -> u32 {
        0
    }

    ghost feed_none = { refl };

    ghost feed_feed = { λ a b. refl };

    ghost fresh_fed = { λ a. refl };
}

// Counts what is printed: each call of it is a write of its own.
#[derive(Drop)]
struct Writes(Cell<u64>);

impl Writes {
    fn one_more(&self) -> io::Result<()> {
        self.0.set(self.0.get().wrapping_add(1));
        Ok(())
    }
}

impl Print for Writes {
    fn print<D: Display + Drop>(&self, _value: D) -> io::Result<()> {
        self.one_more()
    }

    fn println<D: Display + Drop>(&self, _value: D) -> io::Result<()> {
        self.one_more()
    }

    fn write_all(&self, _bytes: &[u8]) -> io::Result<()> {
        self.one_more()
    }
}

#[test]
fn a_number_goes_out_with_its_line(rt: HostRuntime) {
    let writes = Writes(Cell::new(0));
    assert!(rt; named(&writes, "name", &Zero::at_once(b"abc")).is_ok());
    assert_eq!(rt; writes.0.get(), 1);
    assert!(rt; line::<Zero>(&writes, b"abc").is_ok());
    assert_eq!(rt; writes.0.get(), 2);
}

#[test]
fn sixteen_bytes_go_out_one_by_one(rt: HostRuntime) {
    let writes = Writes(Cell::new(0));
    assert!(rt; named(&writes, "name", &[0u8; 16]).is_ok());
    assert_eq!(rt; writes.0.get(), 18);
}
