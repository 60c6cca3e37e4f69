// SWEEP's judgement: the fate of every row of a table, on the table as it stands. The definitions are in specs/.
#![tactic(auto)]

mod day;
mod laid;
mod rules;

ghost use Rattle.std.specs.Prelude.{◌≡◌, ℕ, ◌+◌, ◌<◌, ◌≤◌, true, false, length, take, map};
ghost use Rattle.buffers.specs.Lists.{all, same};
ghost use Rattle.blocks.specs.Blocks.{key_in, is_block};
ghost use Rattle.model.specs.Comparisons.{comparisons};
ghost use Rattle.settings.specs.Meaning.{rules_mean};
ghost use Rattle.settings.specs.Bytes.{entries_length, rules_of};
ghost use Rattle.table.specs.Contents.{WholeBlocks, row_no};
ghost use Rattle.lifecycle.specs.Least.{most_comparisons};
ghost use Rattle.lifecycle.specs.LaidRules.{rules_in};
ghost use Rattle.lifecycle.specs.Days.{few_days};
ghost use Rattle.lifecycle.specs.Judging.{current_by, same_key, older_fate, version_fate, Between, KeyEnding, KeyEnds, Judgeable, Dated, Stored, Counted, CountedOn, JudgedKey, JudgedAll, JudgedRows};

use day::Day;
use laid::LaidRule;
use model::{Fate, FateCell};
use table::Table;

// The least days that the rules set for a key's rows, 0 for none.
#[derive(Clone, Copy)]
struct Limits {
    current: u64,
    noncurrent: u64,
}

// What the rules set for a key, and the comparisons of a prefix with a key so far.
#[derive(Clone, Copy)]
struct Matched {
    limits: Limits,
    comparisons: u64,
}

// The rows that go and the markers that come.
#[derive(Clone, Copy)]
pub struct Counts {
    pub removed: usize,
    pub added: usize,
}

// What a sweep comes to so far, and the comparisons of a prefix with a key that it took.
#[derive(Clone, Copy)]
pub struct Judged {
    pub counts: Counts,
    pub comparisons: u64,
}

// Where a key's rows end, and what the sweep comes to by there.
#[derive(Clone, Copy)]
struct KeyDone {
    end: usize,
    judged: Judged,
}

// The fate of the current row at a position, by its key's days.
fn current_fate(table: &Table, at: usize, days: u64, today: Day) -> Fate
    requires { (at < length table.now.rows) × Dated table.now.rows × (days ≤ 36500) }
    ensures { result ≡ current_by days today.midnight (row_no table.now.rows at) }
{
    let n = table.numbers_at(at);
    if n.is_data() && today.is_over(days, n.created) {
        Fate::Gains
    } else {
        Fate::Stays
    }
}

// The fate of a row that isn't current, by its key's days since the creation of the next newer row, the one before it.
#[tactic(auto, unfolding(crate::specs::Judging::noncurrent_by))]
fn noncurrent_fate(table: &Table, at: usize, days: u64, today: Day) -> Fate
    requires { (1 ≤ at) × (at < length table.now.rows) × Dated table.now.rows × (days ≤ 36500) }
    ensures { result ≡ older_fate table.now.rows days today.instant today.midnight at }
{
    let n = table.numbers_at(at);
    let newer = table.numbers_at(at - 1);
    if today.is_over(days, newer.created) && !locks::is_locked(n, today.instant, false) {
        Fate::Goes
    } else {
        Fate::Stays
    }
}

// The two blocks hold one key. Words are compared up to the key's end; the first that differs decides.
fn same_block(a: &[u8], b: &[u8]) -> bool
    requires { (is_block a.now ≡ true) × (is_block b.now ≡ true) }
    ensures { result ≡ same (key_in a.now) (key_in b.now) }
{
    let n = a[0] as usize;
    let mut i = 0;
    // Eight bytes a step: by `step_by` the proof didn't close (`returns-else-word_at`).
    while i <= n {
        if buffers::word_at(a, i) != buffers::word_at(b, i) {
            return false;
        }
        i += 8;
    }
    true
}

// Two rows have one key.
fn same_key(table: &Table, at: usize, other: usize) -> bool
    requires there { (at < length table.now.rows) × (other < length table.now.rows) }
    requires whole { WholeBlocks table.now }
    ensures { result ≡ same (row_no table.now.rows at).key (row_no table.now.rows other).key }
{
    let keys = table.keys;
    let own = 64 * at;
    let its = 64 * other;
    same_block(&keys[own..own + 64], &keys[its..its + 64])
}

// Where to look between two positions: at the guess, or at the first of them if it lies before them; halfway if it lies behind them.
fn probe(low: usize, high: usize, guess: usize) -> usize
    requires { low < high }
    ensures { Between low high result }
{
    if guess < low {
        low
    } else if guess < high {
        guess
    } else {
        low + (high - low) / 2
    }
}

// Where the rows of the key at a position end, which go on at least to `start`. Keys are in order, so that few are compared: first as many rows on as are expected, then in steps that double. A guess may be any number, so that its sums may wrap.
// Few keys come here: merged with its caller it would take registers from the loop over the rules.
#[inline(never)]
fn search_end(table: &Table, at: usize, start: usize, expected: usize) -> usize
    requires ending { KeyEnding table.now.rows at start (length table.now.rows) }
    requires whole { WholeBlocks table.now }
    ensures { KeyEnds table.now.rows at result }
{
    let mut low = start;
    let mut high = table.len();
    let mut guess = std::num::wrapping_add_usize(at, expected);
    let mut span = 1;
    // Where the next probe lies hangs on the answer of this one, so that no range counts them.
    while low < high {
        let middle = probe(low, high, guess);
        let step = span;
        span = std::num::wrapping_add_usize(step, step);
        if same_key(table, at, middle) {
            low = middle + 1;
            guess = std::num::wrapping_add_usize(middle, step);
        } else {
            high = middle;
            guess = std::num::wrapping_sub_usize(middle, step);
        }
    }
    low
}

// Where the rows of a key that has two or more end. The next few are looked at one by one, since most keys have few.
fn later_end(table: &Table, at: usize, expected: usize) -> usize
    requires ending { KeyEnding table.now.rows at (at + 2) (length table.now.rows) }
    requires whole { WholeBlocks table.now }
    ensures { KeyEnds table.now.rows at result }
{
    let near = at + (table.len() - at).min(4);
    for next in at + 2..near {
        if !same_key(table, at, next) {
            return next;
        }
    }
    search_end(table, at, near, expected)
}

// Where the rows of the key at a position end.
fn key_end(table: &Table, at: usize, expected: usize) -> usize
    requires there { at < length table.now.rows }
    requires whole { WholeBlocks table.now }
    ensures { KeyEnds table.now.rows at result }
{
    let used = table.len();
    let next = at + 1;
    if next < used && same_key(table, at, next) {
        later_end(table, at, expected)
    } else {
        next
    }
}

// Judges rows that aren't current, by their key's days, and returns how many go.
fn judge_older<F: FateCell>(
    table: &Table,
    from: usize,
    to: usize,
    days: u64,
    today: Day,
    fates: &mut [F],
) -> usize
    requires rows { (1 ≤ from) × (from ≤ to) × (to ≤ length table.now.rows) × (to ≤ length fates.old) }
    requires dated { Dated table.now.rows × (days ≤ 36500) }
    ensures fates_stored { Stored F.cell (older_fate table.now.rows days today.instant today.midnight) from to fates.old fates.new }
    ensures counted { CountedOn (map F.fate_in fates.old) (map F.fate_in fates.new) from to result 0 }
{
    let mut removed = 0;
    for i in from..to {
        let fate = noncurrent_fate(table, i, days, today);
        fates[i] = F::of(fate);
        removed += usize::from(fate == Fate::Goes);
    }
    removed
}

// Judges the rows of one key by its limits, and counts: the first is current, the others aren't.
fn judge_versions<F: FateCell>(
    table: &Table,
    from: usize,
    to: usize,
    limits: Limits,
    today: Day,
    fates: &mut [F],
) -> Counts
    requires rows { (from < to) × (to ≤ length table.now.rows) × (to ≤ length fates.old) }
    requires dated { Dated table.now.rows × (limits.current ≤ 36500) × (limits.noncurrent ≤ 36500) }
    ensures fates_stored { Stored F.cell (version_fate table.now.rows limits today.instant today.midnight from) from to fates.old fates.new }
    ensures counted { CountedOn (map F.fate_in fates.old) (map F.fate_in fates.new) from to result.removed result.added }
{
    let fate = current_fate(table, from, limits.current, today);
    fates[from] = F::of(fate);
    let removed = judge_older(table, from + 1, to, limits.noncurrent, today, fates);
    Counts {
        removed,
        added: usize::from(fate == Fate::Gains),
    }
}

// Judges the rows of the key that begins at a position. The key is compared with the rules once, however many rows it has.
fn judge_key<F: FateCell>(
    table: &Table,
    at: usize,
    expected: usize,
    rules: &[LaidRule],
    before: Judged,
    today: Day,
    fates: &mut [F],
) -> KeyDone
    requires rows { (at < length table.now.rows) × (length table.now.rows ≤ length fates.old) × Dated table.now.rows }
    requires first { same_key table.now.rows at ≡ false }
    requires whole { WholeBlocks table.now }
    requires days { all few_days (rules_in rules.now) ≡ true }
    requires most { before.comparisons + length rules.now ≤ most_comparisons }
    requires counted { Counted (take at (map F.fate_in fates.old)) before.counts.removed before.counts.added }
    ensures { JudgedKey F.cell F.fate_in (rules_in rules.now) today.instant table.now.rows at before fates.old fates.new result }
{
    let end = key_end(table, at, expected);
    let matched = rules::match_key(rules, table, at, before.comparisons);
    let own = judge_versions(table, at, end, matched.limits, today, fates);
    let counts = Counts {
        removed: before.counts.removed + own.removed,
        added: before.counts.added + own.added,
    };
    let judged = Judged {
        counts,
        comparisons: matched.comparisons,
    };
    KeyDone { end, judged }
}

// Judges every row, key by key. Neighbouring keys often have as many rows.
fn judge_rows<F: FateCell>(table: &Table, rules: &[LaidRule], today: Day, fates: &mut [F]) -> Judged
    requires rows { (length table.now.rows ≤ length fates.old) × (length table.now.rows ≤ 1024) × Dated table.now.rows }
    requires laid { (length rules.now ≤ 8) × (all few_days (rules_in rules.now) ≡ true) }
    requires whole { WholeBlocks table.now }
    ensures { JudgedAll F.cell F.fate_in (rules_in rules.now) today.instant table.now.rows fates.old fates.new result }
{
    let counts = Counts {
        removed: 0,
        added: 0,
    };
    let mut judged = Judged {
        counts,
        comparisons: 0,
    };
    let mut expected = 1;
    let mut i = 0;
    // A key a step, of as many rows as it has, so that no range counts them.
    while i < table.len() {
        let key = judge_key(table, i, expected, rules, judged, today, fates);
        judged = key.judged;
        expected = key.end - i;
        i = key.end;
    }
    judged
}

// Judges every row by the rules that are set, and counts.
pub fn judge_table<F: FateCell>(
    table: &Table,
    entries: &[u8],
    instant: u64,
    fates: &mut [F],
) -> Judged
    requires entries_len { length entries.now ≡ entries_length }
    requires whole { WholeBlocks table.now }
    requires judgeable { Judgeable table.now.rows (rules_of entries.now) }
    requires used_in_bounds { length table.now.rows ≤ length fates.old }
    ensures judged_rows { JudgedRows F.cell (rules_mean (rules_of entries.now)) instant table.now.rows fates.old fates.new result.counts }
    ensures comparisons_value { result.comparisons ≡ comparisons (rules_mean (rules_of entries.now)) table.now.rows }
{
    let mut rules = [rules::no_rule(); 8];
    let n = rules::lay_rules(entries, &mut rules);
    judge_rows(table, &rules[..n], Day::of(instant), fates)
}
