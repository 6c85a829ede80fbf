// What several crates share: ids and checksums, the record of a kept row, what a volume's scan reports, a budget, and the refusals.
#![tactic(auto)]

ghost use Rattle.std.specs.Prelude.{◌≡◌};
ghost use Rattle.types.specs.Answers.{number, refusal_of, read_to_end};

// 16-byte MD5 hash.
pub type Md5Hash = [u8; 16];

// 16-byte identifier: of a recovery set, of a file.
pub type Id16 = [u8; 16];

// The checksums of one slice, zero-padded to the slice size.
#[derive(Debug, Clone, Copy, PartialEq, Eq)]
pub struct SliceChecksum {
    pub md5: Md5Hash,
    pub crc32: u32,
}

// A kept row: its exponent, and the slot of the store that holds its data. A number, since there is no heap: the store is lent.
#[derive(Debug, Clone, Copy, PartialEq, Eq)]
pub struct RowRecord {
    pub exponent: u32,
    pub slot: u32,
}

// How reading one volume ended.
#[derive(Debug, Clone, Copy, PartialEq, Eq)]
pub enum VolumeEnd {
    // To its end: the volume carries no more rows than were seen.
    Complete,
    // Inside a packet. Rows after the cut are unknown.
    Truncated,
    // At the cap, with data left unread.
    CapReached,
}

impl VolumeEnd {
    // Whether no byte of the volume was left unread.
    pub fn read_to_end(self) -> bool
        ensures { result ≡ read_to_end self }
    {
        match self {
            VolumeEnd::Complete => true,
            VolumeEnd::Truncated => false,
            VolumeEnd::CapReached => false,
        }
    }
}

// What reading one volume found. `seen` counts packets passed over unwanted too, whose digest nobody tests.
#[derive(Debug, Clone, Copy, PartialEq, Eq)]
pub struct VolumeScan {
    pub seen: u64,
    pub kept: u64,
    pub corrupt: u64,
    pub bytes_read: u64,
    pub end: VolumeEnd,
}

// How many rows a reader may hold: the tighter of the two bounds, each of which may be absent.
#[derive(Debug, Clone, Copy, PartialEq, Eq)]
pub struct RecoveryBudget {
    pub max_rows: Option<u64>,
    pub max_bytes: Option<u64>,
}

// Why a call was refused, in the order of the numbers, 1 to 11.
// A call that only changes its state or what it was lent answers `Result<(), Refusal>`, and reading a volume `Result<VolumeScan, Refusal>`:
// a refused volume has no scan, so that no ending can be mistaken for one.
#[derive(Debug, Clone, Copy, PartialEq, Eq)]
pub enum Refusal {
    BadSliceSize,
    BadCapacity,
    StoreShort,
    BadState,
    CounterFull,
    NoPackets,
    NoMain,
    CutHeader,
    TableFull,
    HashTooLong,
    ListShort,
}

impl From<Refusal> for u8 {
    ghost from_gives = { λ why n. n ≡ number why };

    // The number of a refusal.
    #[tactic(auto, unfolding(crate::specs::Answers::number))]
    fn from(why: Refusal) -> u8 {
        match why {
            Refusal::BadSliceSize => 1,
            Refusal::BadCapacity => 2,
            Refusal::StoreShort => 3,
            Refusal::BadState => 4,
            Refusal::CounterFull => 5,
            Refusal::NoPackets => 6,
            Refusal::NoMain => 7,
            Refusal::CutHeader => 8,
            Refusal::TableFull => 9,
            Refusal::HashTooLong => 10,
            Refusal::ListShort => 11,
        }
    }
}

// A number that no refusal has.
#[derive(Debug, Clone, Copy, PartialEq, Eq)]
pub struct UnknownRefusal;

impl TryFrom<u8> for Refusal {
    type Error = UnknownRefusal;

    ghost try_from_gives = { λ n answer. answer ≡ refusal_of n };

    // The refusal of a number.
    #[tactic(auto, unfolding(crate::specs::Answers::refusal_of))]
    fn try_from(n: u8) -> Result<Refusal, UnknownRefusal> {
        match n {
            1 => Ok(Refusal::BadSliceSize),
            2 => Ok(Refusal::BadCapacity),
            3 => Ok(Refusal::StoreShort),
            4 => Ok(Refusal::BadState),
            5 => Ok(Refusal::CounterFull),
            6 => Ok(Refusal::NoPackets),
            7 => Ok(Refusal::NoMain),
            8 => Ok(Refusal::CutHeader),
            9 => Ok(Refusal::TableFull),
            10 => Ok(Refusal::HashTooLong),
            11 => Ok(Refusal::ListShort),
            _ => Err(UnknownRefusal),
        }
    }
}
