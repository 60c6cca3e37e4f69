// The values of a request line's single fields. The definitions are in specs/.
#![tactic(auto)]

ghost use Rattle.std.specs.Prelude.{◌≡◌, ◌<◌};
ghost use Rattle.fields.specs.Fields.{with_letter, read_rights, read_key, read_prefix, read_version, read_mode, read_until, read_either, read_switch, read_hold, read_bypass, read_period};
ghost use Rattle.fields.specs.Meaning.{period_means};

use model::Mode;
use text::{Line, Place};

// A default retention's period.
#[derive(Clone, Copy)]
pub enum Period {
    Days(u64),
    Years(u64),
}

impl Period {
    // How many days or years.
    pub fn count(self) -> u64
        ensures { result ≡ (period_means self).count }
    {
        match self {
            Period::Days(n) | Period::Years(n) => n,
        }
    }

    // Its unit as the settings have it: 1 days, 2 years.
    pub fn unit(self) -> u64
        ensures { result ≡ (period_means self).unit }
    {
        match self {
            Period::Days(_) => 1,
            Period::Years(_) => 2,
        }
    }
}

// The fields mode and date, `None` for a `-`.
#[derive(Clone, Copy)]
pub struct Retention {
    pub mode: Option<Mode>,
    pub until: Option<u64>,
}

// The lock fields of a PUT or COPY; the hold is true for ON, `None` for a `-`.
#[derive(Clone, Copy)]
pub struct Terms {
    pub retention: Retention,
    pub hold: Option<bool>,
}

// The letters r w d t h b c.
#[derive(Clone, Copy)]
pub struct Rights {
    // A letter each, of which a line has any.
    pub r: bool,
    pub w: bool,
    pub d: bool,
    pub t: bool,
    pub h: bool,
    pub b: bool,
    pub c: bool,
}

const NO_RIGHTS: Rights = Rights {
    r: false,
    w: false,
    d: false,
    t: false,
    h: false,
    b: false,
    c: false,
};

// The rights with one more letter, unless that is none or is there already.
#[tactic(auto, unfolding(crate::specs::Fields::with_letter))]
fn with_letter(held: Rights, letter: u8) -> Option<Rights>
    ensures { result ≡ with_letter held letter }
{
    match letter {
        b'r' if !held.r => Some(Rights { r: true, ..held }),
        b'w' if !held.w => Some(Rights { w: true, ..held }),
        b'd' if !held.d => Some(Rights { d: true, ..held }),
        b't' if !held.t => Some(Rights { t: true, ..held }),
        b'h' if !held.h => Some(Rights { h: true, ..held }),
        b'b' if !held.b => Some(Rights { b: true, ..held }),
        b'c' if !held.c => Some(Rights { c: true, ..held }),
        _ => None,
    }
}

// `-`, or some of the letters, each at most once.
#[tactic(auto, using(crate::proofs::Readers::rights_cases), unfolding(crate::specs::Fields::read_rights))]
pub fn read_rights(text: &[u8]) -> Option<Rights>
    ensures { result ≡ read_rights text.now }
{
    if text::is_word(text, b"-") {
        return Some(NO_RIGHTS);
    }
    if text.len() == 0 {
        return None;
    }
    let mut held = NO_RIGHTS;
    for &letter in text {
        held = with_letter(held, letter)?;
    }
    Some(held)
}

// `read_key` and `read_prefix` differ in their test: a function with the test as a closure would promise by the closure's clause.
// Field i as a key.
#[tactic(auto, unfolding(crate::specs::Fields::read_key))]
pub fn read_key(line: &Line, i: usize) -> Option<Place>
    requires { i < 9 }
    ensures { result ≡ read_key line.now i }
{
    if text::is_key(line.field(i)) {
        Some(line.place(i))
    } else {
        None
    }
}

// Field i as a prefix.
#[tactic(auto, unfolding(crate::specs::Fields::read_prefix))]
pub fn read_prefix(line: &Line, i: usize) -> Option<Place>
    requires { i < 9 }
    ensures { result ≡ read_prefix line.now i }
{
    if text::is_prefix(line.field(i)) {
        Some(line.place(i))
    } else {
        None
    }
}

// The readers of a `-` or a value are four: over a closure that reads the value they would promise by its clause.
// A version number or `-`. Here and below `None` is a field that can't be read, `Some(None)` a `-`.
#[tactic(auto, unfolding(crate::specs::Fields::read_version))]
pub fn read_version(text: &[u8]) -> Option<Option<u64>>
    ensures { result ≡ read_version text.now }
{
    if text::is_word(text, b"-") {
        return Some(None);
    }
    let n = text::read_positive(text, model::LARGEST_NUMBER)?;
    Some(Some(n))
}

// GOVERNANCE, COMPLIANCE or `-`.
#[tactic(auto, unfolding(crate::specs::Fields::read_mode))]
pub fn read_mode(text: &[u8]) -> Option<Option<Mode>>
    ensures { result ≡ read_mode text.now }
{
    if text::is_word(text, b"-") {
        return Some(None);
    }
    if text::is_word(text, b"GOVERNANCE") {
        return Some(Some(Mode::Governance));
    }
    if text::is_word(text, b"COMPLIANCE") {
        return Some(Some(Mode::Compliance));
    }
    None
}

// A date or `-`.
#[tactic(auto, unfolding(crate::specs::Fields::read_until))]
pub fn read_until(text: &[u8]) -> Option<Option<u64>>
    ensures { result ≡ read_until text.now }
{
    if text::is_word(text, b"-") {
        return Some(None);
    }
    let t = dates::read_date(text)?;
    Some(Some(t))
}

// One of two words, true for the first.
fn read_either(text: &[u8], first: &[u8], second: &[u8]) -> Option<bool>
    ensures { result ≡ read_either first.now second.now text.now }
{
    if text::is_word(text, first) {
        return Some(true);
    }
    if text::is_word(text, second) {
        return Some(false);
    }
    None
}

// ON or OFF.
#[tactic(auto, unfolding(crate::specs::Fields::read_switch))]
pub fn read_switch(text: &[u8]) -> Option<bool>
    ensures { result ≡ read_switch text.now }
{
    read_either(text, b"ON", b"OFF")
}

// ON, OFF or `-`.
#[tactic(auto, unfolding(crate::specs::Fields::read_hold))]
pub fn read_hold(text: &[u8]) -> Option<Option<bool>>
    ensures { result ≡ read_hold text.now }
{
    if text::is_word(text, b"-") {
        return Some(None);
    }
    let on = read_switch(text)?;
    Some(Some(on))
}

// yes or no.
#[tactic(auto, unfolding(crate::specs::Fields::read_bypass))]
pub fn read_bypass(text: &[u8]) -> Option<bool>
    ensures { result ≡ read_bypass text.now }
{
    read_either(text, b"yes", b"no")
}

// `1d` to `36500d`, `1y` to `100y`, or `-`.
#[tactic(auto, unfolding(crate::specs::Fields::read_period))]
pub fn read_period(text: &[u8]) -> Option<Option<Period>>
    ensures { result ≡ read_period text.now }
{
    if text::is_word(text, b"-") {
        return Some(None);
    }
    if text.len() == 0 {
        return None;
    }
    let last = text.len() - 1;
    if text[last] == b'd' {
        let n = text::read_positive(&text[0..last], model::MOST_DAYS)?;
        return Some(Some(Period::Days(n)));
    }
    if text[last] == b'y' {
        let n = text::read_positive(&text[0..last], model::MOST_YEARS)?;
        return Some(Some(Period::Years(n)));
    }
    None
}
