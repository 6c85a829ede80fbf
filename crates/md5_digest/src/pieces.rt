// A digest under way is one of a message in pieces.
ghost use Rattle.md5_digest.specs.Rfc1321.{md5};
ghost use Rattle.md5_digest.specs.Pieces as digest;
ghost use Rattle.md5_digest.specs.Laws.{fresh-whole, feed-none, feed-feed, fresh-fed};

use super::Md5;
use in_pieces::InPieces;

impl InPieces for Md5 {
    type Sum = [u8; 16];

    ghost whole = { md5 };

    ghost fresh = { digest.fresh };

    ghost feed = { digest.feed };

    ghost finish_of = { digest.finish_of };

    fn new() -> Md5 {
        Md5::new()
    }

    fn update(self, data: &[u8]) -> Md5 {
        self.update(data)
    }

    fn finish(self) -> [u8; 16] {
        self.finish()
    }

    fn at_once(data: &[u8]) -> [u8; 16] {
        super::digest(data)
    }

    ghost feed_none = { feed-none };

    ghost feed_feed = { feed-feed digest.fresh fresh-whole };

    ghost fresh_fed = { fresh-fed };
}
