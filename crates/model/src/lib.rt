// The locked bucket as definitions and theorems, in specs/ and proofs/; the code's names for its numbers.
#![tactic(auto)]

ghost use Rattle.std.specs.Prelude.{◌≡◌};
ghost use Rattle.model.specs.Refusal.{number_of};
ghost use Rattle.model.specs.Kinds.{kind_number, mode_number};
ghost use Rattle.model.specs.declared.Fate.{Fate};
ghost use Rattle.model.specs.Fates.{same_fate, same_back, fate_byte, fate_of, byte_back};

// Why a line is refused.
#[derive(Clone, Copy, Debug, PartialEq, Eq)]
pub enum Refusal {
    Unsound = 1,
    ShortAnswer = 2,
    Unreadable = 3,
    HalfGiven = 4,
    NoRight = 5,
    PastDate = 6,
    NoRow = 7,
    IsMarker = 8,
    Locked = 9,
    DateTooLate = 10,
    NumbersSpent = 11,
    TableFull = 12,
    ShortForPage = 13,
}

// `number`, not `From`: `u64::from(refusal)` says less where it is read.
impl Refusal {
    // Its number, from 1 on, since 0 stands for no refusal.
    pub fn number(self) -> u64
        ensures { result ≡ number_of self }
    {
        self as u64
    }
}

// The kinds of a row, with the numbers that a table has for them.
#[derive(Clone, Copy, Debug, PartialEq, Eq)]
pub enum Kind {
    Data = 1,
    Marker = 2,
}

impl Kind {
    // Its number in a table.
    pub fn number(self) -> u64
        ensures { result ≡ kind_number self }
    {
        self as u64
    }
}

// The modes of a retention, with the numbers that a table and the settings have for them, where 0 is none.
#[derive(Clone, Copy, Debug, PartialEq, Eq)]
pub enum Mode {
    Governance = 1,
    Compliance = 2,
}

impl Mode {
    // Its number in a table and in the settings.
    pub fn number(self) -> u64
        ensures { result ≡ mode_number self }
    {
        self as u64
    }
}

// What a sweep does to a row: it stays, it goes, or it gains a marker.
#[derive(Clone, Copy, Debug, PartialEq, Eq)]
pub enum Fate {
    Stays,
    Goes,
    Gains,
}

// What a buffer keeps of a row's fate: the fate itself, or a byte.
pub trait FateCell: Copy {
    ghost cell: { Fate → Self };

    ghost fate_in: { Self → Fate };

    // What is kept of a fate.
    fn of(fate: Fate) -> Self
        ensures { result ≡ cell fate };

    // The fate that is kept.
    fn fate(self) -> Fate
        ensures { result ≡ fate_in self };

    ghost back: { (f : Fate) → fate_in (cell f) ≡ f };
}

impl FateCell for Fate {
    ghost cell = { same_fate };

    ghost fate_in = { same_fate };

    ghost back = { same_back };

    fn of(fate: Fate) -> Fate {
        fate
    }

    fn fate(self) -> Fate {
        self
    }
}

// As a byte a fate is 0 if the row stays, 1 if it goes, 2 if it gains a marker; any other byte stays too.
impl FateCell for u8 {
    ghost cell = { fate_byte };

    ghost fate_in = { fate_of };

    ghost back = { byte_back };

    fn of(fate: Fate) -> u8 {
        match fate {
            Fate::Stays => 0,
            Fate::Goes => 1,
            Fate::Gains => 2,
        }
    }

    fn fate(self) -> Fate {
        match self {
            1 => Fate::Goes,
            2 => Fate::Gains,
            _ => Fate::Stays,
        }
    }
}

// The largest length of a body, in bytes.
pub const LARGEST_SIZE: u64 = 5497558138880;

// The largest version number, and the next version number that means spent.
pub const LARGEST_NUMBER: u64 = 18446744073709551614;

pub const SPENT: u64 = 18446744073709551615;

// The longest period, in days and in years; a rule's days have the same limit.
pub const MOST_DAYS: u64 = 36500;

pub const MOST_YEARS: u64 = 100;

// The largest capacity of a table.
pub const MOST_ROWS: usize = 1024;

// The bytes of its rows, which are also those of its keys.
pub const TABLE_BYTES: usize = 65536;

// The bytes of the settings.
pub const SETTINGS_BYTES: usize = 688;

// The least length of an answer buffer.
pub const LEAST_ROOM: usize = 256;

// What a row's line in a page may take of it.
pub const ROW_ROOM: usize = 256;

// The most rows that a page may have.
pub const LARGEST_COUNT: u64 = 1000;
