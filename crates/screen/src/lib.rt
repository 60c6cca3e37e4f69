// The refusals that are decided without the table: 2 to 6, and 13 after 5. The definitions are in the model and in specs/.
#![tactic(auto)]

ghost use Rattle.std.specs.Prelude.{◌≡◌, List, ℕ, ◌≤◌, not};
ghost use Rattle.model.specs.Settings.{Config};
ghost use Rattle.model.specs.Requests.{retention_of};
ghost use Rattle.model.specs.Refusals.{half_given, lacks_right, least_room, short_for_page, past_date};
ghost use Rattle.model.specs.Time.{now_at};
ghost use Rattle.fields.specs.Meaning.{rights_means, retention_means};
ghost use Rattle.request.specs.Meaning.{action_means, verb_means};
ghost use Rattle.screen.specs.Screen.{may_put, screened, Screens};

use calendar::Now;
use fields::{Retention, Rights, Terms};
use model::Refusal;
use request::{Action, Query, Request, Setting, Verb};
use settings::State;

// What a line that is not refused says before the table is looked at: its verb and its now.
#[derive(Clone, Copy)]
pub struct Passed {
    pub verb: Verb,
    pub when: Now,
}

// Mode and date, both missing where the action has no such fields.
fn retention_of(action: Action) -> Retention
    ensures { (line : List ℕ) → retention_means result ≡ retention_of (action_means line action) }
{
    match action {
        Action::Put(_, _, _, terms) | Action::Copy(_, _, terms) => terms.retention,
        Action::Retain(_, retention, _) => retention,
        Action::SetHold(..) | Action::AddMarker(..) | Action::DeleteVersion(..) => Retention {
            mode: None,
            until: None,
        },
    }
}

// Exactly one of mode and date, or of mode and period, is given.
#[tactic(auto, using(request::proofs::Actions::action_unset), unfolding(model::specs::Refusals::half_given))]
fn is_half_given(verb: Verb) -> bool
    ensures { (line : List ℕ) → result ≡ half_given (verb_means line verb) }
{
    match verb {
        Verb::Act(action) => {
            let retention = retention_of(action);
            retention.mode.is_some() != retention.until.is_some()
        }
        Verb::Set(Setting::Default(mode, period)) => mode.is_some() != period.is_some(),
        Verb::Set(Setting::Rule(..)) | Verb::Sweep | Verb::Ask(_) => false,
    }
}

// The rights of a PUT.
#[tactic(auto, unfolding(crate::specs::Screen::may_put))]
fn may_put(a: Rights, terms: Terms) -> bool
    ensures { result ≡ may_put a terms }
{
    a.w && (terms.retention.mode.is_none() || a.t) && (terms.hold.is_none() || a.h)
}

#[tactic(auto, using(crate::proofs::Rights::action_allowed))]
fn may_act(a: Rights, action: Action) -> bool
    ensures { (s : Config) (line : List ℕ) → lacks_right s (rights_means a) (action_means line action) ≡ not result }
{
    match action {
        Action::Put(_, _, _, terms) => may_put(a, terms),
        Action::Copy(_, _, terms) => a.r && may_put(a, terms),
        Action::Retain(_, _, bypass) => a.t && (!bypass || a.b),
        Action::SetHold(..) => a.h,
        Action::AddMarker(_, bypass) | Action::DeleteVersion(_, _, bypass) => {
            a.d && (!bypass || a.b)
        }
    }
}

#[tactic(auto, unfolding(model::specs::Refusals::lacks_right, model::specs::Refusals::needs, model::specs::Refusals::granted))]
fn is_allowed(a: Rights, verb: Verb) -> bool
    ensures { (s : Config) (line : List ℕ) → lacks_right s (rights_means a) (verb_means line verb) ≡ not result }
{
    match verb {
        Verb::Act(action) => may_act(a, action),
        Verb::Set(_) | Verb::Sweep => a.c,
        Verb::Ask(_) => a.r,
    }
}

// An answer buffer of this length is too short for a page of so many rows.
#[tactic(auto, using(request::proofs::Actions::action_unpaged), unfolding(model::specs::Refusals::short_for_page))]
fn is_short_for_page(verb: Verb, room: usize) -> bool
    requires { least_room ≤ room }
    ensures { (line : List ℕ) → result ≡ short_for_page room (verb_means line verb) }
{
    match verb {
        Verb::Ask(Query::ListVersions(page)) => {
            // Nothing bounds the count here, so a product could overflow.
            let fit = (room - model::LEAST_ROOM) / model::ROW_ROOM;
            (fit as u64) < page.count
        }
        _ => false,
    }
}

// A date that is given is not after the instant.
#[tactic(auto, unfolding(model::specs::Refusals::past_date))]
fn is_past_date(verb: Verb, instant: u64) -> bool
    ensures { (line : List ℕ) → result ≡ past_date instant (verb_means line verb) }
{
    match verb {
        Verb::Act(action) => {
            matches!(retention_of(action).until, Some(until) if until <= instant)
        }
        Verb::Set(_) | Verb::Sweep | Verb::Ask(_) => false,
    }
}

// The first refusal of a line's own fields that holds; keys play no part.
#[tactic(auto, unfolding(crate::specs::Screen::screened))]
fn screen(q: Request, room: usize, instant: u64) -> Result<(), Refusal>
    requires { least_room ≤ room }
    ensures { (s : Config) (line : List ℕ) → result ≡ screened s (rights_means q.rights) room instant (verb_means line q.verb) }
{
    if is_half_given(q.verb) {
        return Err(Refusal::HalfGiven);
    }
    if !is_allowed(q.rights, q.verb) {
        return Err(Refusal::NoRight);
    }
    if is_short_for_page(q.verb, room) {
        return Err(Refusal::ShortForPage);
    }
    if is_past_date(q.verb, instant) {
        return Err(Refusal::PastDate);
    }
    Ok(())
}

// The now of a line, by the bucket's time and the line's reading.
fn now_at(time: u64, clock: u64) -> Now
    ensures { result ≡ now_at time clock }
{
    let instant = time.max(clock);
    Now {
        judge: instant,
        stamp: instant,
    }
}

// What refuses a line without its table, by the settings and the length of the answer buffer.
#[tactic(auto, unfolding(crate::specs::Screen::screened_line))]
pub fn screen_line(s: State, line: &[u8], room: usize) -> Result<Passed, Refusal>
    ensures { Screens s line.now room result }
{
    if room < model::LEAST_ROOM {
        return Err(Refusal::ShortAnswer);
    }
    let Ok(q) = request::read_line(line) else {
        return Err(Refusal::Unreadable);
    };
    let when = now_at(s.time, q.clock);
    screen(q, room, when.stamp)?;
    Ok(Passed { verb: q.verb, when })
}
