// The verbs with their fields, which are counted from 0 in the whole line.
// Each field is taken by `let .. else`, the form that is asked for where a line can't be read; `?` would be 20 instructions less.
ghost use Rattle.std.specs.Prelude.{◌≡◌, ◌<◌, ok_or};
ghost use Rattle.text.specs.Fields.{field_of};
ghost use Rattle.request.specs.Grammar.{name_at, retention_at, terms_at, put_of, copy_of, retain_of, set_hold_of, delete_of, default_of, rule_of, sweep_of, get_of, names_place, list_of, report_of, query_by_word, other_by_word, verb_by_word};

use crate::{Action, Name, Page, Query, Setting, Verb};
use fields::{Retention, Terms};
use model::Refusal;
use text::{Line, Place};

// The largest body number.
const LARGEST_BODY: u64 = u64::MAX;

// The number of the last rule.
const LAST_RULE: u64 = 7;

// Key and version.
#[tactic(auto, unfolding(crate::specs::Grammar::name_at))]
fn read_name(line: &Line, i: usize, j: usize) -> Result<Name, Refusal>
    requires { (i < 9) × (j < 9) }
    ensures { result ≡ ok_or (name_at line.now i j) Refusal.Unreadable }
{
    let Some(key) = fields::read_key(line, i) else {
        return Err(Refusal::Unreadable);
    };
    let Some(version) = fields::read_version(line.field(j)) else {
        return Err(Refusal::Unreadable);
    };
    Ok(Name { key, version })
}

// Mode and date.
#[tactic(auto, unfolding(crate::specs::Grammar::retention_at))]
fn read_retention(line: &Line, i: usize, j: usize) -> Result<Retention, Refusal>
    requires { (i < 9) × (j < 9) }
    ensures { result ≡ ok_or (retention_at line.now i j) Refusal.Unreadable }
{
    let Some(mode) = fields::read_mode(line.field(i)) else {
        return Err(Refusal::Unreadable);
    };
    let Some(until) = fields::read_until(line.field(j)) else {
        return Err(Refusal::Unreadable);
    };
    Ok(Retention { mode, until })
}

// Mode, date and hold of a PUT or COPY.
#[tactic(auto, unfolding(crate::specs::Grammar::terms_at))]
fn read_terms(line: &Line) -> Result<Terms, Refusal>
    ensures { result ≡ ok_or (terms_at line.now) Refusal.Unreadable }
{
    let retention = read_retention(line, 6, 7)?;
    let Some(hold) = fields::read_hold(line.field(8)) else {
        return Err(Refusal::Unreadable);
    };
    Ok(Terms { retention, hold })
}

// PUT key, body, length, mode, date, hold.
#[tactic(auto, unfolding(crate::specs::Grammar::put_of))]
fn read_put(line: &Line) -> Result<Verb, Refusal>
    ensures { result ≡ ok_or (put_of line.now) Refusal.Unreadable }
{
    if line.tabs() != 8 {
        return Err(Refusal::Unreadable);
    }
    let Some(key) = fields::read_key(line, 3) else {
        return Err(Refusal::Unreadable);
    };
    let Some(body) = text::read_number(line.field(4), LARGEST_BODY) else {
        return Err(Refusal::Unreadable);
    };
    let Some(size) = text::read_number(line.field(5), model::LARGEST_SIZE) else {
        return Err(Refusal::Unreadable);
    };
    let terms = read_terms(line)?;
    Ok(Verb::Act(Action::Put(key, body, size, terms)))
}

// COPY source key, version, target key, mode, date, hold.
#[tactic(auto, unfolding(crate::specs::Grammar::copy_of))]
fn read_copy(line: &Line) -> Result<Verb, Refusal>
    ensures { result ≡ ok_or (copy_of line.now) Refusal.Unreadable }
{
    if line.tabs() != 8 {
        return Err(Refusal::Unreadable);
    }
    let source = read_name(line, 3, 4)?;
    let Some(target) = fields::read_key(line, 5) else {
        return Err(Refusal::Unreadable);
    };
    let terms = read_terms(line)?;
    Ok(Verb::Act(Action::Copy(source, target, terms)))
}

// RETAIN key, version, mode, date, bypass.
#[tactic(auto, unfolding(crate::specs::Grammar::retain_of))]
fn read_retain(line: &Line) -> Result<Verb, Refusal>
    ensures { result ≡ ok_or (retain_of line.now) Refusal.Unreadable }
{
    if line.tabs() != 7 {
        return Err(Refusal::Unreadable);
    }
    let name = read_name(line, 3, 4)?;
    let retention = read_retention(line, 5, 6)?;
    let Some(bypass) = fields::read_bypass(line.field(7)) else {
        return Err(Refusal::Unreadable);
    };
    Ok(Verb::Act(Action::Retain(name, retention, bypass)))
}

// HOLD key, version, ON or OFF.
#[tactic(auto, unfolding(crate::specs::Grammar::set_hold_of))]
fn read_set_hold(line: &Line) -> Result<Verb, Refusal>
    ensures { result ≡ ok_or (set_hold_of line.now) Refusal.Unreadable }
{
    if line.tabs() != 5 {
        return Err(Refusal::Unreadable);
    }
    let name = read_name(line, 3, 4)?;
    let Some(on) = fields::read_switch(line.field(5)) else {
        return Err(Refusal::Unreadable);
    };
    Ok(Verb::Act(Action::SetHold(name, on)))
}

// DELETE key, version, bypass.
#[tactic(auto, unfolding(crate::specs::Grammar::delete_of))]
fn read_delete(line: &Line) -> Result<Verb, Refusal>
    ensures { result ≡ ok_or (delete_of line.now) Refusal.Unreadable }
{
    if line.tabs() != 5 {
        return Err(Refusal::Unreadable);
    }
    let Some(key) = fields::read_key(line, 3) else {
        return Err(Refusal::Unreadable);
    };
    let Some(version) = fields::read_version(line.field(4)) else {
        return Err(Refusal::Unreadable);
    };
    let Some(bypass) = fields::read_bypass(line.field(5)) else {
        return Err(Refusal::Unreadable);
    };
    let Some(n) = version else {
        return Ok(Verb::Act(Action::AddMarker(key, bypass)));
    };
    Ok(Verb::Act(Action::DeleteVersion(key, n, bypass)))
}

// DEFAULT mode, period.
#[tactic(auto, unfolding(crate::specs::Grammar::default_of))]
fn read_default(line: &Line) -> Result<Verb, Refusal>
    ensures { result ≡ ok_or (default_of line.now) Refusal.Unreadable }
{
    if line.tabs() != 4 {
        return Err(Refusal::Unreadable);
    }
    let Some(mode) = fields::read_mode(line.field(3)) else {
        return Err(Refusal::Unreadable);
    };
    let Some(period) = fields::read_period(line.field(4)) else {
        return Err(Refusal::Unreadable);
    };
    Ok(Verb::Set(Setting::Default(mode, period)))
}

// RULE number, prefix, current days, noncurrent days.
#[tactic(auto, unfolding(crate::specs::Grammar::rule_of))]
fn read_rule(line: &Line) -> Result<Verb, Refusal>
    ensures { result ≡ ok_or (rule_of line.now) Refusal.Unreadable }
{
    if line.tabs() != 6 {
        return Err(Refusal::Unreadable);
    }
    let Some(number) = text::read_number(line.field(3), LAST_RULE) else {
        return Err(Refusal::Unreadable);
    };
    let Some(prefix) = fields::read_prefix(line, 4) else {
        return Err(Refusal::Unreadable);
    };
    let Some(current) = text::read_number(line.field(5), model::MOST_DAYS) else {
        return Err(Refusal::Unreadable);
    };
    let Some(noncurrent) = text::read_number(line.field(6), model::MOST_DAYS) else {
        return Err(Refusal::Unreadable);
    };
    Ok(Verb::Set(Setting::Rule(number, prefix, current, noncurrent)))
}

// SWEEP.
#[tactic(auto, unfolding(crate::specs::Grammar::sweep_of))]
fn read_sweep(line: &Line) -> Result<Verb, Refusal>
    ensures { result ≡ ok_or (sweep_of line.now) Refusal.Unreadable }
{
    if line.tabs() != 2 {
        return Err(Refusal::Unreadable);
    }
    Ok(Verb::Sweep)
}

// GET key, version.
#[tactic(auto, unfolding(crate::specs::Grammar::get_of))]
fn read_get(line: &Line) -> Result<Verb, Refusal>
    ensures { result ≡ ok_or (get_of line.now) Refusal.Unreadable }
{
    if line.tabs() != 4 {
        return Err(Refusal::Unreadable);
    }
    let name = read_name(line, 3, 4)?;
    Ok(Verb::Ask(Query::Get(name)))
}

// The key and the version name a place: the empty key has version 0 only.
#[tactic(auto, unfolding(crate::specs::Grammar::names_place))]
fn names_place(key: Place, version: u64) -> bool
    ensures { result ≡ names_place key version }
{
    key.len != 0 || version == 0
}

// LIST prefix, key or nothing, version, count.
#[tactic(auto, unfolding(crate::specs::Grammar::list_of))]
fn read_list(line: &Line) -> Result<Verb, Refusal>
    ensures { result ≡ ok_or (list_of line.now) Refusal.Unreadable }
{
    if line.tabs() != 6 {
        return Err(Refusal::Unreadable);
    }
    let Some(prefix) = fields::read_prefix(line, 3) else {
        return Err(Refusal::Unreadable);
    };
    let Some(key) = fields::read_prefix(line, 4) else {
        return Err(Refusal::Unreadable);
    };
    let Some(version) = text::read_number(line.field(5), model::LARGEST_NUMBER) else {
        return Err(Refusal::Unreadable);
    };
    let Some(count) = text::read_positive(line.field(6), model::LARGEST_COUNT) else {
        return Err(Refusal::Unreadable);
    };
    if !names_place(key, version) {
        return Err(Refusal::Unreadable);
    }
    Ok(Verb::Ask(Query::ListVersions(Page {
        prefix,
        key,
        version,
        count,
    })))
}

// REPORT prefix.
#[tactic(auto, unfolding(crate::specs::Grammar::report_of))]
fn read_report(line: &Line) -> Result<Verb, Refusal>
    ensures { result ≡ ok_or (report_of line.now) Refusal.Unreadable }
{
    if line.tabs() != 3 {
        return Err(Refusal::Unreadable);
    }
    let Some(prefix) = fields::read_prefix(line, 3) else {
        return Err(Refusal::Unreadable);
    };
    Ok(Verb::Ask(Query::Report(prefix)))
}

// GET, LIST and REPORT by their word.
#[tactic(auto, unfolding(crate::specs::Grammar::query_by_word))]
fn read_query(word: &[u8], line: &Line) -> Result<Verb, Refusal>
    ensures { result ≡ ok_or (query_by_word word.now line.now) Refusal.Unreadable }
{
    if text::is_word(word, b"GET") {
        read_get(line)
    } else if text::is_word(word, b"LIST") {
        read_list(line)
    } else if text::is_word(word, b"REPORT") {
        read_report(line)
    } else {
        Err(Refusal::Unreadable)
    }
}

// DEFAULT, RULE, SWEEP and the verbs that ask by their word.
#[tactic(auto, unfolding(crate::specs::Grammar::other_by_word))]
fn read_other(word: &[u8], line: &Line) -> Result<Verb, Refusal>
    ensures { result ≡ ok_or (other_by_word word.now line.now) Refusal.Unreadable }
{
    if text::is_word(word, b"DEFAULT") {
        read_default(line)
    } else if text::is_word(word, b"RULE") {
        read_rule(line)
    } else if text::is_word(word, b"SWEEP") {
        read_sweep(line)
    } else {
        read_query(word, line)
    }
}

// The verb by its word. In one chain with all the others a GET takes 75 instructions more; a `match` on the words has no proof.
#[tactic(auto, unfolding(crate::specs::Grammar::verb_by_word))]
pub fn read_verb(word: &[u8], line: &Line) -> Result<Verb, Refusal>
    ensures { result ≡ ok_or (verb_by_word word.now line.now) Refusal.Unreadable }
{
    if text::is_word(word, b"PUT") {
        read_put(line)
    } else if text::is_word(word, b"COPY") {
        read_copy(line)
    } else if text::is_word(word, b"RETAIN") {
        read_retain(line)
    } else if text::is_word(word, b"HOLD") {
        read_set_hold(line)
    } else if text::is_word(word, b"DELETE") {
        read_delete(line)
    } else {
        read_other(word, line)
    }
}
