// What a digest or a checksum of a message in pieces promises, and what follows for each.
#![tactic(auto)]

ghost use Rattle.std.specs.Prelude.{◌≡◌, ℕ, List, [], ◌++◌};
ghost use Rattle.std.specs.List.{repeat};

// A digest or a checksum under way. Every value has an answer.
pub trait InPieces {
    // A digest or a checksum.
    type Sum;

    // The sum of a whole message.
    ghost whole: { List ℕ → Self.Sum };

    // Before the first byte.
    ghost fresh: { Self };

    // After these bytes too.
    ghost feed: { Self → List ℕ → Self };

    // The sum of all that was fed.
    ghost finish_of: { Self → Self.Sum };

    fn new() -> Self
        ensures { result ≡ fresh };

    fn update(self, data: &[u8]) -> Self
        ensures { result ≡ feed self «data».now };

    fn finish(self) -> Self::Sum
        ensures { result ≡ finish_of self };

    // The sum of data at once: an impl whose crate has a call for that passes it on.
    fn at_once(data: &[u8]) -> Self::Sum
        ensures { result ≡ whole «data».now }
    {
        Self::new().update(data).finish()
    }

    // To feed nothing changes nothing.
    ghost feed_none: { feed fresh [] ≡ fresh };

    // To feed a and then b is to feed a ++ b. From the first byte on is enough: a state that was fed p is `feed fresh p`.
    ghost feed_feed: { (a b : List ℕ) → feed (feed fresh a) b ≡ feed fresh (a ++ b) };

    // All that was fed is the message.
    ghost fresh_fed: { (a : List ℕ) → finish_of (feed fresh a) ≡ whole a };
}

// The sum of data.
pub fn of<S: InPieces>(data: &[u8]) -> S::Sum
    ensures { result ≡ S.whole «data».now }
{
    S::at_once(data)
}

// The sum of a message in two pieces.
pub fn of_two<S: InPieces>(first: &[u8], second: &[u8]) -> S::Sum
    ensures { result ≡ S.whole (first.now ++ second.now) }
{
    S::new().update(first).update(second).finish()
}

// After times copies of piece.
pub fn repeated<S: InPieces>(piece: &[u8], times: u64) -> S
    ensures { result ≡ S.feed S.fresh (repeat times piece.now) }
{
    let mut under_way = S::new();
    for _ in 0..times {
        under_way = under_way.update(piece);
    }
    under_way
}
