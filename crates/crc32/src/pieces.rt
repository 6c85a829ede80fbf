// A checksum under way is one of a message in pieces.
ghost use Rattle.crc32.specs.Crc as checksum;
ghost use Rattle.crc32.specs.Laws.{feed-none, feed-feed, fresh-fed};

use super::Crc32;
use in_pieces::InPieces;

impl InPieces for Crc32 {
    type Sum = u32;

    ghost whole = { checksum.crc32 };

    ghost fresh = { checksum.fresh };

    ghost feed = { checksum.feed };

    ghost finish_of = { checksum.finish_of };

    fn new() -> Crc32 {
        Crc32::new()
    }

    fn update(self, data: &[u8]) -> Crc32 {
        self.update(data)
    }

    fn finish(self) -> u32 {
        self.finish()
    }

    fn at_once(data: &[u8]) -> u32 {
        super::checksum(data)
    }

    ghost feed_none = { feed-none };

    ghost feed_feed = { feed-feed checksum.fresh };

    ghost fresh_fed = { fresh-fed };
}
