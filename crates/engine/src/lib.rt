// The engine: a line is screened, judged, carried out or set, and answered. The definitions are in outcome.
// The buffers are lent one by one: of a struct that holds them by `&mut` a caller knows the lengths alone when the loan ends.
#![tactic(auto)]

mod configure;

ghost use Rattle.std.specs.Prelude.{◌≡◌, true, List, ℕ, ◌≤◌, length, replicate, Ok};
ghost use Rattle.model.specs.declared.Fate.TheVariants.{Stays};
ghost use Rattle.model.specs.Refusals.{least_room};
ghost use Rattle.settings.specs.Bytes.{entries_length};
ghost use Rattle.bucket.specs.Whole.{lent, lent_with, whole};
ghost use Rattle.request.specs.declared.Verb.TheVariants as verb;
ghost use Rattle.request.specs.declared.Query.TheVariants as query;
ghost use Rattle.outcome.specs.Calls.{call};
ghost use Rattle.outcome.specs.Outcome.{outcome};
ghost use Rattle.outcome.specs.Comparisons.{comparisons_of};
ghost use Rattle.engine.specs.Configured.{Settable};
ghost use Rattle.engine.specs.Served.{outcome_from, served_outcome, answered_with, uncounted, count_of, Passing, CanCarryOut, CarriedOut};

use answers::Answer;
use calendar::Now;
use judge::Plan;
use model::{Fate, Refusal};
use request::{Action, Name, Page, Query, Setting, Verb};
use settings::{Settings, State};
use table::Table;
use text::Place;

// What an accepted line comes to: its answer's length, and the state afterwards.
#[derive(Clone, Copy)]
pub struct Done {
    pub len: usize,
    pub state: State,
}

// The same, and beside it the comparisons of a prefix with a key: SWEEP alone makes any.
#[derive(Clone, Copy)]
pub struct Counted {
    pub done: Done,
    pub comparisons: u64,
}

// The same on settings by value.
#[derive(Clone, Copy)]
pub struct Served {
    pub len: usize,
    pub settings: Settings,
}

// An answer of this length is written, and of the state the time alone becomes now.
fn answered(s: State, len: usize, when: Now) -> Done
    ensures { result ≡ answered_with s len when }
{
    Done {
        len,
        state: State {
            time: when.stamp,
            ..s
        },
    }
}

// Carries a plan out and answers it, and now is the bucket's time. Merged with its two callers: as one function a sweep of 1000 rows takes 8 in 100 more.
#[inline(always)]
#[tactic(auto, using(crate::proofs::Carrying::plans))]
fn carry_out(
    s: State,
    rows: &mut [u64],
    keys: &mut [u8],
    line: &[u8],
    answer: &mut [u8],
    plan: Plan,
    instant: u64,
    fates: &[Fate],
) -> Done
    requires { CanCarryOut s rows.old keys.old line.now answer.old plan instant fates.now }
    ensures { CarriedOut s rows.old keys.old line.now answer.old plan instant fates.now result rows.new keys.new answer.new }
{
    let p = apply::apply_change(
        rows,
        keys,
        line,
        s.used,
        s.next,
        plan.change,
        instant,
        fates,
    );
    let len = answers::write_answer(answer, plan.answer);
    Done {
        len,
        state: State {
            time: instant,
            used: p.used,
            next: p.next,
            ..s
        },
    }
}

// An action needs no fates, and of the settings the state alone: the entries stand for the contract.
fn serve_action(
    s: State,
    entries: &[u8],
    rows: &mut [u64],
    keys: &mut [u8],
    line: &[u8],
    answer: &mut [u8],
    action: Action,
    when: Now,
) -> Result<Done, Refusal>
    requires { Passing (lent_with s entries.now rows.old keys.old) line.now answer.old (verb.Act action) when }
    ensures { outcome_from s result entries.now rows.new keys.new answer.new ≡ outcome (lent_with s entries.now rows.old keys.old) (call line.now answer.old) }
{
    let table = Table::new(rows, keys, s.used);
    let plan = judge::judge(&table, line, s, action, when.judge)?;
    let done = carry_out(s, rows, keys, line, answer, plan, when.stamp, &[]);
    Ok(done)
}

// Room for a fate of each row.
fn no_fates() -> [Fate; 1024]
    ensures { result ≡ replicate 1024 Stays }
{
    [Fate::Stays; 1024]
}

// SWEEP needs the rules and fates, and nothing of its line, which stands for the contract; it counts the comparisons of a prefix with a key.
fn serve_sweep(
    s: State,
    entries: &[u8],
    rows: &mut [u64],
    keys: &mut [u8],
    line: &[u8],
    answer: &mut [u8],
    when: Now,
) -> Result<Counted, Refusal>
    requires passing { Passing (lent_with s entries.now rows.old keys.old) line.now answer.old verb.Sweep when }
    requires entries_len { length entries.now ≡ entries_length }
    ensures answer_after { outcome_from s (uncounted result) entries.now rows.new keys.new answer.new ≡ outcome (lent_with s entries.now rows.old keys.old) (call line.now answer.old) }
    ensures comparisons_value { count_of result ≡ comparisons_of (lent_with s entries.now rows.old keys.old) (call line.now answer.old) }
{
    let mut fates = no_fates();
    let table = Table::new(rows, keys, s.used);
    let judged = judge::judge_sweep(&table, s, entries, when.judge, &mut fates);
    let plan = judged.verdict?;
    let done = carry_out(s, rows, keys, b"", answer, plan, when.stamp, &fates);
    Ok(Counted {
        done,
        comparisons: judged.comparisons,
    })
}

// DEFAULT and RULE leave the table as it is, whatever it holds.
fn serve_setting(
    s: State,
    entries: &mut [u8],
    line: &[u8],
    answer: &mut [u8],
    setting: Setting,
    when: Now,
) -> Done
    requires settable { Settable line.now s entries.old setting }
    requires least_room_in_bounds { least_room ≤ length answer.old }
    ensures { (numbers keys : List ℕ) → Passing (lent_with s entries.old numbers keys) line.now answer.old (verb.Set setting) when → outcome_from s (Ok result) entries.new numbers keys answer.new ≡ outcome (lent_with s entries.old numbers keys) (call line.now answer.old) }
{
    let len = answers::write_answer(answer, Answer::Done);
    let set = configure::configured(s, entries, line, setting);
    answered(set, len, when)
}

// GET is judged and answered on the table as it is. Of what asks, the entries stand for the contract.
fn serve_get(
    s: State,
    entries: &[u8],
    rows: &[u64],
    keys: &[u8],
    line: &[u8],
    answer: &mut [u8],
    name: Name,
    when: Now,
) -> Result<Done, Refusal>
    requires { Passing (lent_with s entries.now rows.now keys.now) line.now answer.old (verb.Ask (query.Get name)) when }
    ensures { outcome_from s result entries.now rows.now keys.now answer.new ≡ outcome (lent_with s entries.now rows.now keys.now) (call line.now answer.old) }
{
    let table = Table::new(rows, keys, s.used);
    let plan = judge::judge_get(&table, line, s, name, when)?;
    let len = answers::write_answer(answer, plan.answer);
    Ok(answered(s, len, when))
}

// LIST meets no refusal on the table, and its page is written straight from it.
fn serve_page(
    s: State,
    entries: &[u8],
    rows: &[u64],
    keys: &[u8],
    line: &[u8],
    answer: &mut [u8],
    page: Page,
    when: Now,
) -> Done
    requires { Passing (lent_with s entries.now rows.now keys.now) line.now answer.old (verb.Ask (query.ListVersions page)) when }
    ensures { outcome_from s (Ok result) entries.now rows.now keys.now answer.new ≡ outcome (lent_with s entries.now rows.now keys.now) (call line.now answer.old) }
{
    let table = Table::new(rows, keys, s.used);
    let count = page.count as usize;
    let version = page.version;
    let prefix = text::part(line, page.prefix);
    let key = text::part(line, page.key);
    let len = listing::write_page(&table, prefix, key, version, count, answer);
    answered(s, len, when)
}

// REPORT meets no refusal on the table either, and its totals are counted straight from it.
fn serve_report(
    s: State,
    entries: &[u8],
    rows: &[u64],
    keys: &[u8],
    line: &[u8],
    answer: &mut [u8],
    prefix: Place,
    when: Now,
) -> Done
    requires { Passing (lent_with s entries.now rows.now keys.now) line.now answer.old (verb.Ask (query.Report prefix)) when }
    ensures { outcome_from s (Ok result) entries.now rows.now keys.now answer.new ≡ outcome (lent_with s entries.now rows.now keys.now) (call line.now answer.old) }
{
    let table = Table::new(rows, keys, s.used);
    let part = text::part(line, prefix);
    let len = listing::write_report(&table, part, when.judge, answer);
    answered(s, len, when)
}

// What asks leaves the table as it is.
fn serve_query(
    s: State,
    entries: &[u8],
    rows: &[u64],
    keys: &[u8],
    line: &[u8],
    answer: &mut [u8],
    query: Query,
    when: Now,
) -> Result<Done, Refusal>
    requires { Passing (lent_with s entries.now rows.now keys.now) line.now answer.old (verb.Ask query) when }
    ensures { outcome_from s result entries.now rows.now keys.now answer.new ≡ outcome (lent_with s entries.now rows.now keys.now) (call line.now answer.old) }
{
    match query {
        Query::Get(name) => serve_get(s, entries, rows, keys, line, answer, name, when),
        Query::ListVersions(page) => {
            Ok(serve_page(s, entries, rows, keys, line, answer, page, when))
        }
        Query::Report(prefix) => {
            Ok(serve_report(s, entries, rows, keys, line, answer, prefix, when))
        }
    }
}

// Serves a line on a bucket that is whole, and counts the comparisons of a prefix with a key.
#[tactic(auto, using(crate::proofs::Serving::lines, crate::proofs::Counting::line_counts))]
fn serve_line(
    s: State,
    entries: &mut [u8],
    rows: &mut [u64],
    keys: &mut [u8],
    line: &[u8],
    answer: &mut [u8],
) -> Result<Counted, Refusal>
    requires entries_len { length entries.old ≡ entries_length }
    requires keys_value { whole (lent_with s entries.old rows.old keys.old) ≡ true }
    ensures answer_after { outcome_from s (uncounted result) entries.new rows.new keys.new answer.new ≡ outcome (lent_with s entries.old rows.old keys.old) (call line.now answer.old) }
    ensures comparisons_value { count_of result ≡ comparisons_of (lent_with s entries.old rows.old keys.old) (call line.now answer.old) }
{
    let passed = screen::screen_line(s, line, answer.len())?;
    let when = passed.when;
    let done = match passed.verb {
        Verb::Act(action) => serve_action(s, entries, rows, keys, line, answer, action, when)?,
        Verb::Set(setting) => serve_setting(s, entries, line, answer, setting, when),
        Verb::Ask(query) => serve_query(s, entries, rows, keys, line, answer, query, when)?,
        Verb::Sweep => return serve_sweep(s, entries, rows, keys, line, answer, when),
    };
    Ok(Counted {
        done,
        comparisons: 0,
    })
}

// Serves a line on a bucket that is whole.
pub fn serve_whole(
    s: State,
    entries: &mut [u8],
    rows: &mut [u64],
    keys: &mut [u8],
    line: &[u8],
    answer: &mut [u8],
) -> Result<Done, Refusal>
    requires entries_len { length entries.old ≡ entries_length }
    requires keys_value { whole (lent_with s entries.old rows.old keys.old) ≡ true }
    ensures { outcome_from s result entries.new rows.new keys.new answer.new ≡ outcome (lent_with s entries.old rows.old keys.old) (call line.now answer.old) }
{
    let counted = serve_line(s, entries, rows, keys, line, answer)?;
    Ok(counted.done)
}

// Serves a line on a state, entries and buffers of any contents, and counts the comparisons of a prefix with a key.
#[tactic(auto, using(crate::proofs::Serving::line_1, crate::proofs::Counting::unsound_counts))]
pub fn serve_counted(
    s: State,
    entries: &mut [u8],
    rows: &mut [u64],
    keys: &mut [u8],
    line: &[u8],
    answer: &mut [u8],
) -> Result<Counted, Refusal>
    requires { length entries.old ≡ entries_length }
    ensures answer_after { outcome_from s (uncounted result) entries.new rows.new keys.new answer.new ≡ outcome (lent_with s entries.old rows.old keys.old) (call line.now answer.old) }
    ensures comparisons_value { count_of result ≡ comparisons_of (lent_with s entries.old rows.old keys.old) (call line.now answer.old) }
{
    if !bucket::is_whole(s, entries, rows, keys) {
        return Err(Refusal::Unsound);
    }
    serve_line(s, entries, rows, keys, line, answer)
}

// Serves a line on settings by value and buffers of any contents; the rules are lent on as entries.
pub fn serve(
    s: Settings,
    rows: &mut [u64],
    keys: &mut [u8],
    line: &[u8],
    answer: &mut [u8],
) -> Result<Served, Refusal>
    ensures { served_outcome s result rows.new keys.new answer.new ≡ outcome (lent s rows.old keys.old) (call line.now answer.old) }
{
    let mut entries = [0; 640];
    settings::put_rules(&mut entries, s.rules);
    let state = State::from(s);
    let done = serve_counted(state, &mut entries, rows, keys, line, answer)?.done;
    Ok(Served {
        len: done.len,
        settings: settings::settings_with(done.state, &entries),
    })
}
