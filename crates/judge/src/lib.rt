// A request judged on the table, with shared borrows only: refusals 7 to 12, or the plan of what the line does. The definitions are in specs/.
// Table, line and state go side by side: a struct of the three can't be copied, and each clause would name its parts.
#![tactic(auto)]

mod lookup;

ghost use Rattle.std.specs.Prelude.{◌≡◌, Bool, true, List, ℕ, ◌≤◌, map};
ghost use Rattle.std.specs.Option.{option_map};
ghost use Rattle.buffers.specs.Choices.{or_zero};
ghost use Rattle.model.specs.Requests as model;
ghost use Rattle.text.specs.Fields.{part_of};
ghost use Rattle.text.specs.Keys.{is_key};
ghost use Rattle.model.specs.Sweep.{marker};
ghost use Rattle.model.specs.Comparisons.{comparisons};
ghost use Rattle.model.specs.Effects.{hold_number, set_retention, set_hold};
ghost use Rattle.model.specs.Kinds.{mode_number};
ghost use Rattle.model.specs.Retries.{repeats, meant};
ghost use Rattle.calendar.specs.Calendar.{latest};
ghost use Rattle.settings.specs.Meaning.{rules_mean};
ghost use Rattle.settings.specs.Bytes.{rules_of};
ghost use Rattle.table.specs.Layout.{capacity, Holds};
ghost use Rattle.table.specs.Contents.{contents, WholeBlocks};
ghost use Rattle.table.specs.Places.{row_from};
ghost use Rattle.fields.specs.Meaning.{Inside, retention_means, terms_means};
ghost use Rattle.request.specs.Meaning.{name_means, action_means, ActionInside};
ghost use Rattle.lifecycle.specs.Fates.{fates_after};
ghost use Rattle.judge.specs.State.{rows_in, Ready};
ghost use Rattle.judge.specs.Premises.{Asked, room_for, Sweepable, JudgesBy, JudgesOn, JudgesNew};

use answers::Answer;
use calendar::Now;
use fields::{Retention, Terms};
use model::{FateCell, Kind, Mode, Refusal};
use request::{Action, Name};
use settings::State;
use table::{Numbers, Table};
use text::Place;

// How an accepted line changes the table.
#[derive(Clone, Copy)]
pub enum Change {
    Keep,
    // position, numbers, the key's place in the line
    Insert(usize, Numbers, Place),
    Rewrite(usize, Numbers),
    Remove(usize),
    // rows removed, markers added
    Sweep(usize, usize),
}

#[derive(Clone, Copy)]
pub struct Plan {
    pub change: Change,
    pub answer: Answer,
}

// A sweep's verdict, and the comparisons of a prefix with a key that it took.
#[derive(Clone, Copy)]
pub struct SweepVerdict {
    pub verdict: Result<Plan, Refusal>,
    pub comparisons: u64,
}

// The row that a line names: its position and its numbers.
#[derive(Clone, Copy)]
struct Named {
    at: usize,
    numbers: Numbers,
}

// A line that adds a row needs a version number and a free row.
#[tactic(auto, unfolding(crate::specs::Premises::room_for))]
fn find_room(room: usize, s: State) -> Result<(), Refusal>
    ensures { result ≡ room_for room s.used s.next }
{
    if s.next == model::SPENT {
        return Err(Refusal::NumbersSpent);
    }
    if room <= s.used {
        return Err(Refusal::TableFull);
    }
    Ok(())
}

// The row with another mode and date.
fn with_retention(n: Numbers, retention: Retention) -> Numbers
    ensures { (k : List ℕ) → row_from result k ≡ set_retention (or_zero (option_map mode_number retention.mode)) (or_zero retention.until) (row_from n k) }
{
    Numbers {
        mode: retention.mode.map_or(0, Mode::number),
        until: retention.until.unwrap_or(0),
        ..n
    }
}

// The row with the hold on or off.
fn with_hold(n: Numbers, on: bool) -> Numbers
    ensures { (k : List ℕ) → row_from result k ≡ set_hold (hold_number «on») (row_from n k) }
{
    Numbers {
        hold: u64::from(on),
        ..n
    }
}

// The numbers of a delete marker.
fn marker_numbers(number: u64, instant: u64) -> Numbers
    ensures { (k : List ℕ) → row_from result k ≡ marker instant number k }
{
    Numbers {
        number,
        kind: Kind::Marker.number(),
        created: instant,
        body: 0,
        size: 0,
        mode: 0,
        until: 0,
        hold: 0,
    }
}

// The row is data with this body and length, so that a PUT of them is a retry.
fn is_repeated(n: Numbers, body: u64, size: u64) -> bool
    ensures { (k : List ℕ) → result ≡ repeats body size (row_from n k) }
{
    n.kind == Kind::Data.number() && n.body == body && n.size == size
}

// A new data row at the place that was found. It reads neither rows nor line, so its contract is for any that the place fits.
fn judge_new(
    room: usize,
    s: State,
    key: Place,
    at: usize,
    body: u64,
    size: u64,
    terms: Terms,
    instant: u64,
) -> Result<Plan, Refusal>
    requires { (s.count ≤ 36500) × (instant ≤ latest) }
    ensures { JudgesNew s room instant key at body size (terms_means terms) result }
{
    let lock = locks::new_lock(s, terms.retention, instant)?;
    find_room(room, s)?;
    let n = Numbers {
        number: s.next,
        kind: Kind::Data.number(),
        created: instant,
        body,
        size,
        mode: lock.mode,
        until: lock.until,
        // `-` is OFF
        hold: u64::from(terms.hold == Some(true)),
    };
    Ok(Plan {
        change: Change::Insert(at, n, key),
        answer: Answer::Made(s.next),
    })
}

// PUT: a retry answers its row's number and changes no row; one search finds that row or the place of a new one.
#[tactic(auto, using(crate::proofs::Adding::put_ways))]
fn judge_put(
    table: &Table,
    line: &[u8],
    s: State,
    key: Place,
    body: u64,
    size: u64,
    terms: Terms,
    instant: u64,
) -> Result<Plan, Refusal>
    requires asked { Asked s table.now instant (model.Put (part_of line.now key) body size (terms_means terms)) }
    requires inside { Inside line.now key }
    ensures { JudgesOn s table.now line.now instant (meant table.now.rows (model.Put (part_of line.now key) body size (terms_means terms))) result }
{
    let found = search::find_current(table, text::part(line, key));
    match found {
        Ok(i) => {
            let n = table.numbers_at(i);
            if is_repeated(n, body, size) {
                return Ok(Plan {
                    change: Change::Keep,
                    answer: Answer::Made(n.number),
                });
            }
            judge_new(table.room(), s, key, i, body, size, terms, instant)
        }
        Err(i) => judge_new(table.room(), s, key, i, body, size, terms, instant),
    }
}

// COPY: a new row with its source's body and length, never a retry: onto its own key it would mostly be one.
fn judge_copy(
    table: &Table,
    line: &[u8],
    s: State,
    source: Name,
    key: Place,
    terms: Terms,
    instant: u64,
) -> Result<Plan, Refusal>
    requires asked { Asked s table.now instant (model.Copy (name_means line.now source) (part_of line.now key) (terms_means terms)) }
    requires inside { Inside line.now source.key }
    requires target_inside { Inside line.now key }
    ensures { JudgesOn s table.now line.now instant (model.Copy (name_means line.now source) (part_of line.now key) (terms_means terms)) result }
{
    let named = lookup::data_named(table, line, source)?;
    let at = search::key_place(table, text::part(line, key));
    judge_new(
        table.room(),
        s,
        key,
        at,
        named.numbers.body,
        named.numbers.size,
        terms,
        instant,
    )
}

// RETAIN, by its rule.
fn judge_retain(
    table: &Table,
    line: &[u8],
    s: State,
    name: Name,
    retention: Retention,
    bypass: bool,
    instant: u64,
) -> Result<Plan, Refusal>
    requires ready { Ready s table.now }
    requires inside { Inside line.now name.key }
    ensures { JudgesOn s table.now line.now instant (model.Retain (name_means line.now name) (retention_means retention) «bypass») result }
{
    let named = lookup::data_named(table, line, name)?;
    if locks::is_admitted(named.numbers, instant, bypass, retention) {
        return Ok(Plan {
            change: Change::Rewrite(named.at, with_retention(named.numbers, retention)),
            answer: Answer::Done,
        });
    }
    Err(Refusal::Locked)
}

// HOLD, at every instant alike.
fn judge_hold(table: &Table, line: &[u8], s: State, name: Name, on: bool) -> Result<Plan, Refusal>
    requires ready { Ready s table.now }
    requires inside { Inside line.now name.key }
    ensures { (instant : ℕ) → JudgesOn s table.now line.now instant (model.Hold (name_means line.now name) «on») result }
{
    let named = lookup::data_named(table, line, name)?;
    Ok(Plan {
        change: Change::Rewrite(named.at, with_hold(named.numbers, on)),
        answer: Answer::Done,
    })
}

// GET, at every instant alike: `when` stands for the contract, which is of the line's now.
pub fn judge_get(
    table: &Table,
    line: &[u8],
    s: State,
    name: Name,
    when: Now,
) -> Result<Plan, Refusal>
    requires asked { Asked s table.now when.judge (model.Ask (model.Get (name_means line.now name))) }
    requires inside { Inside line.now name.key }
    ensures { JudgesOn s table.now line.now when.judge (model.Ask (model.Get (name_means line.now name))) result }
{
    let named = lookup::data_named(table, line, name)?;
    Ok(Plan {
        change: Change::Keep,
        answer: Answer::Got(named.numbers),
    })
}

// DELETE with `-`, which no lock bars, with or without bypass.
fn judge_marker(
    table: &Table,
    line: &[u8],
    s: State,
    key: Place,
    instant: u64,
) -> Result<Plan, Refusal>
    requires ready { Ready s table.now }
    requires valid_key { is_key (part_of line.now key) ≡ true }
    requires inside { Inside line.now key }
    ensures { (bypass : Bool) → JudgesOn s table.now line.now instant (model.AddMarker (part_of line.now key) bypass) result }
{
    find_room(table.room(), s)?;
    let at = search::key_place(table, text::part(line, key));
    let n = marker_numbers(s.next, instant);
    Ok(Plan {
        change: Change::Insert(at, n, key),
        answer: Answer::Marked(s.next),
    })
}

// DELETE with a number.
fn judge_delete(
    table: &Table,
    line: &[u8],
    s: State,
    key: Place,
    version: u64,
    bypass: bool,
    instant: u64,
) -> Result<Plan, Refusal>
    requires ready { Ready s table.now }
    requires inside { Inside line.now key }
    ensures { JudgesOn s table.now line.now instant (model.DeleteVersion (part_of line.now key) (model.numbered version) «bypass») result }
{
    let name = Name {
        key,
        version: Some(version),
    };
    let named = lookup::row_named(table, line, name)?;
    if locks::is_locked(named.numbers, instant, bypass) {
        return Err(Refusal::Locked);
    }
    let change = Change::Remove(named.at);
    let answer = if named.numbers.is_marker() {
        Answer::RemovedMarker(version)
    } else {
        Answer::Removed(version)
    };
    Ok(Plan { change, answer })
}

// SWEEP, whose judgement of each row is left in the fates, accepted or refused.
pub fn judge_sweep<F: FateCell>(
    table: &Table,
    s: State,
    entries: &[u8],
    instant: u64,
    fates: &mut [F],
) -> SweepVerdict
    requires whole { WholeBlocks table.now }
    requires asked { Asked s table.now instant model.Sweep }
    requires sweepable { Sweepable s entries.now fates.old }
    ensures judged { (line : List ℕ) (who : model.Rights) → JudgesBy s table.now line instant who (rules_mean (rules_of entries.now)) (map F.fate_in fates.new) model.Sweep result.verdict }
    ensures fates_are { fates.new ≡ fates_after F.cell (rules_mean (rules_of entries.now)) instant table.now.rows fates.old }
    ensures comparisons_value { result.comparisons ≡ comparisons (rules_mean (rules_of entries.now)) table.now.rows }
{
    let judged = lifecycle::judge_table(table, entries, instant, fates);
    let gone = judged.counts.removed;
    let new = judged.counts.added;
    // At the end of the numbers the sum of both would not fit.
    let verdict = if model::SPENT - s.next < new as u64 {
        Err(Refusal::NumbersSpent)
    } else if table.room() < s.used - gone + new {
        Err(Refusal::TableFull)
    } else {
        Ok(Plan {
            change: Change::Sweep(gone, new),
            answer: Answer::Swept(gone as u64, new as u64),
        })
    };
    SweepVerdict {
        verdict,
        comparisons: judged.comparisons,
    }
}

// Refusals 7 to 12, or the plan, of what an action means.
pub fn judge(
    table: &Table,
    line: &[u8],
    s: State,
    action: Action,
    instant: u64,
) -> Result<Plan, Refusal>
    requires asked { Asked s table.now instant (action_means line.now action) }
    requires action_inside { ActionInside line.now action }
    ensures { JudgesOn s table.now line.now instant (meant table.now.rows (action_means line.now action)) result }
{
    match action {
        Action::Put(key, body, size, terms) => {
            judge_put(table, line, s, key, body, size, terms, instant)
        }
        Action::Copy(source, key, terms) => {
            judge_copy(table, line, s, source, key, terms, instant)
        }
        Action::Retain(name, retention, bypass) => {
            judge_retain(table, line, s, name, retention, bypass, instant)
        }
        Action::SetHold(name, on) => judge_hold(table, line, s, name, on),
        Action::AddMarker(key, _) => judge_marker(table, line, s, key, instant),
        Action::DeleteVersion(key, version, bypass) => {
            judge_delete(table, line, s, key, version, bypass, instant)
        }
    }
}
