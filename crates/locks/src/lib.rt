// What is locked, what RETAIN's rule admits, and which lock a new row gets. The definitions are the model's; specs/ says how the code answers the last.
#![tactic(auto)]

ghost use Rattle.std.specs.Prelude.{◌≡◌, List, ℕ, ◌≤◌};
ghost use Rattle.calendar.specs.Calendar.{latest};
ghost use Rattle.model.specs.Settings.{Rule};
ghost use Rattle.model.specs.Locks.{locked, admits};
ghost use Rattle.table.specs.Places.{row_from};
ghost use Rattle.settings.specs.State.{config_by};
ghost use Rattle.fields.specs.Meaning.{retention_means};
ghost use Rattle.locks.specs.Locks.{new_lock};

use fields::Retention;
use model::{Mode, Refusal};
use settings::State;
use table::Numbers;

// The mode and the date of a new row, both 0 for none.
#[derive(Clone, Copy)]
pub struct Lock {
    // A row's word: the default's is the settings' word, which may be any number.
    pub mode: u64,
    pub until: u64,
}

// The row is locked at an instant, for one with or without bypass; its key does not matter.
// By `|` and `&`, since which rows are locked can't be foreseen: by `||` and `&&` a report takes a fifth more time, a sweep 5 in 100 more instructions.
#[tactic(auto, unfolding(model::specs::Locks::locked))]
pub fn is_locked(n: Numbers, instant: u64, bypass: bool) -> bool
    ensures { (k : List ℕ) → result ≡ locked instant «bypass» (row_from n k) }
{
    (n.hold == 1)
        | ((instant < n.until)
            & ((n.mode == Mode::Compliance.number())
                | ((n.mode == Mode::Governance.number()) & !bypass)))
}

// RETAIN's rule.
#[tactic(auto, unfolding(model::specs::Locks::admits))]
pub fn is_admitted(n: Numbers, instant: u64, bypass: bool, r: Retention) -> bool
    ensures { (k : List ℕ) → result ≡ admits instant bypass (row_from n k) (retention_means r) }
{
    if n.until <= instant {
        return true;
    }
    let no_earlier = matches!(r.until, Some(until) if n.until <= until);
    if n.mode == Mode::Compliance.number() {
        return r.mode == Some(Mode::Compliance) && no_earlier;
    }
    bypass || (r.mode.is_some() && no_earlier)
}

// The mode and date that a PUT or COPY gives its row: those given, or, with no mode given, the default's.
#[tactic(auto, unfolding(crate::specs::Locks::new_lock, model::specs::Time::default_end))]
pub fn new_lock(s: State, r: Retention, instant: u64) -> Result<Lock, Refusal>
    requires { (s.count ≤ 36500) × (instant ≤ latest) }
    ensures { (rules : List Rule) → result ≡ new_lock (config_by s rules) instant (retention_means r) }
{
    if let Some(mode) = r.mode {
        return Ok(Lock {
            mode: mode.number(),
            until: r.until.unwrap_or(0),
        });
    }
    if s.mode == 0 {
        return Ok(Lock { mode: 0, until: 0 });
    }
    let end = calendar::period_end(instant, s.count, s.unit);
    if calendar::LATEST < end {
        return Err(Refusal::DateTooLate);
    }
    Ok(Lock {
        mode: s.mode,
        until: end,
    })
}
