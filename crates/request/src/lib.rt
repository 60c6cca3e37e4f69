// A request line, read whole: its clock, its rights, its verb with the verb's fields. The definitions are in specs/.
#![tactic(auto)]

mod verbs;

ghost use Rattle.std.specs.Prelude.{◌≡◌, ◌≤◌, length, ok_or};
ghost use Rattle.request.specs.Grammar.{request_in};

use fields::{Period, Retention, Rights, Terms};
use model::{Mode, Refusal};
use text::{Line, Place};

// A key, by its place in the line, and a version of it: its number, or none for the current one.
#[derive(Clone, Copy)]
pub struct Name {
    pub key: Place,
    pub version: Option<u64>,
}

// The verbs that alter the rows of a key.
#[derive(Clone, Copy)]
pub enum Action {
    // key, body, length
    Put(Place, u64, u64, Terms),
    // source, target key
    Copy(Name, Place, Terms),
    // bypass
    Retain(Name, Retention, bool),
    // on
    SetHold(Name, bool),
    // key, bypass
    AddMarker(Place, bool),
    // key, version, bypass
    DeleteVersion(Place, u64, bool),
}

// The verbs that set what the settings hold.
#[derive(Clone, Copy)]
pub enum Setting {
    // mode, period
    Default(Option<Mode>, Option<Period>),
    // number, prefix, current days, noncurrent days
    Rule(u64, Place, u64, u64),
}

// The version of a page is 0 where it starts at a key, as LIST's field says it.
// A page of versions: the places of its prefix and of the key that it starts after, the version, and how many rows at most.
#[derive(Clone, Copy)]
pub struct Page {
    pub prefix: Place,
    pub key: Place,
    pub version: u64,
    pub count: u64,
}

// The verbs that only ask.
#[derive(Clone, Copy)]
pub enum Query {
    Get(Name),
    ListVersions(Page),
    // prefix
    Report(Place),
}

#[derive(Clone, Copy)]
pub enum Verb {
    Act(Action),
    Set(Setting),
    Sweep,
    Ask(Query),
}

#[derive(Clone, Copy)]
pub struct Request {
    pub clock: u64,
    pub rights: Rights,
    pub verb: Verb,
}

// A request line, without its line feed: clock, rights, verb and the verb's fields.
#[tactic(auto, unfolding(crate::specs::Grammar::request_in))]
pub fn read_line(line: &[u8]) -> Result<Request, Refusal>
    ensures { result ≡ ok_or (request_in line.now) Refusal.Unreadable }
{
    if 512 < line.len() {
        return Err(Refusal::Unreadable);
    }
    let line = Line::split(line);
    let Some(clock) = dates::read_date(line.field(0)) else {
        return Err(Refusal::Unreadable);
    };
    let Some(rights) = fields::read_rights(line.field(1)) else {
        return Err(Refusal::Unreadable);
    };
    let verb = verbs::read_verb(line.field(2), &line)?;
    Ok(Request {
        clock,
        rights,
        verb,
    })
}
