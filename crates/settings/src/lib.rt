// The bucket's settings: what is small by value, the entries as bytes that are lent; and both together by value. The definitions are in specs/.
#![tactic(auto)]

ghost use Rattle.std.specs.Prelude.{◌≡◌, ◌+◌, ◌*◌, ◌≤◌, ◌<◌, ◌&&◌, ◌++◌, length, take, drop, set, replicate};
ghost use Rattle.model.specs.Settings.{sound_default, sound_rules};
ghost use Rattle.model.specs.Effects.{stored};
ghost use Rattle.settings.specs.Meaning.{rules_mean, rule_from, fresh_settings, prefixes_are, settings_sound};
ghost use Rattle.settings.specs.Changes.{rule_sound, RulePut};
ghost use Rattle.settings.specs.Bytes.{state_length, entries_length, rule_at, rules_of, state_in, state_bytes, settings_with};
ghost use Rattle.settings.specs.State.{state_of};

use model::Mode;

// A lifecycle rule; its prefix is 64 bytes like a key, with length 0 allowed.
#[repr(C)]
#[derive(Clone, Copy)]
pub struct Rule {
    pub prefix: [u8; 64],
    pub current: u64,
    pub noncurrent: u64,
}

#[repr(C)]
#[derive(Clone, Copy)]
pub struct Settings {
    pub time: u64,
    pub used: u64,
    pub next: u64,
    pub mode: u64,
    pub count: u64,
    pub unit: u64,
    pub rules: [Rule; 8],
}

// What is small of the settings. The entries, which are the rules, are lent beside it as bytes and never copied.
#[derive(Clone, Copy)]
pub struct State {
    pub time: u64,
    pub used: usize,
    pub next: u64,
    pub mode: u64,
    pub count: u64,
    pub unit: u64,
}

// The rule that 80 bytes from `at` on spell.
fn rule_at(b: &[u8], at: usize) -> Rule
    requires { at + 80 ≤ length b.now }
    ensures { result ≡ rule_at b.now at }
{
    Rule {
        prefix: b[at..at + 64].try_into().unwrap(),
        current: buffers::word_at(b, at + 64),
        noncurrent: buffers::word_at(b, at + 72),
    }
}

// The eight rules of the entries.
fn rules_of(e: &[u8]) -> [Rule; 8]
    requires { length e.now ≡ entries_length }
    ensures { result ≡ rules_of e.now }
{
    [
        rule_at(e, 0),
        rule_at(e, 80),
        rule_at(e, 160),
        rule_at(e, 240),
        rule_at(e, 320),
        rule_at(e, 400),
        rule_at(e, 480),
        rule_at(e, 560),
    ]
}

// The entries are lent as a slice: they are a part of the bytes that C lends, which each call would turn into an array.
// The settings of a state with these entries.
pub fn settings_with(s: State, e: &[u8]) -> Settings
    requires { length e.now ≡ entries_length }
    ensures { result ≡ settings_with s e.now }
{
    Settings {
        time: s.time,
        used: s.used as u64,
        next: s.next,
        mode: s.mode,
        count: s.count,
        unit: s.unit,
        rules: rules_of(e),
    }
}

// Writes the 80 bytes of a rule at `at`.
fn put_rule(b: &mut [u8], at: usize, rule: Rule)
    requires { at + 80 ≤ length b.old }
    ensures { RulePut b.old at rule b.new }
{
    let after = buffers::copy_in(b, at, &rule.prefix);
    let after = buffers::put_word(b, after, rule.current);
    buffers::put_word(b, after, rule.noncurrent);
}

// Writes the rules as entries.
pub fn put_rules(e: &mut [u8], rules: [Rule; 8])
    requires { length e.old ≡ entries_length }
    ensures { rules_of e.new ≡ rules }
{
    for k in 0..8 {
        put_rule(e, 80 * k, rules[k]);
    }
}

// The state that the first 48 bytes spell.
pub fn state_in(b: &[u8]) -> State
    requires { state_length ≤ length b.now }
    ensures { result ≡ state_in b.now }
{
    State {
        time: buffers::word_at(b, 0),
        used: buffers::word_at(b, 8) as usize,
        next: buffers::word_at(b, 16),
        mode: buffers::word_at(b, 24),
        count: buffers::word_at(b, 32),
        unit: buffers::word_at(b, 40),
    }
}

// Writes the 48 bytes of a state at the start.
pub fn put_state(b: &mut [u8], s: State)
    requires { state_length ≤ length b.old }
    ensures { b.new ≡ state_bytes s ++ drop state_length b.old }
{
    let at = buffers::put_word(b, 0, s.time);
    let at = buffers::put_word(b, at, s.used as u64);
    let at = buffers::put_word(b, at, s.next);
    let at = buffers::put_word(b, at, s.mode);
    let at = buffers::put_word(b, at, s.count);
    buffers::put_word(b, at, s.unit);
}

// The settings of a bucket that no line has changed yet.
#[tactic(auto, unfolding(blocks::specs::Blocks::block_of))]
pub fn fresh() -> Settings
    ensures { result ≡ fresh_settings }
{
    let rule = Rule {
        prefix: [0; 64],
        current: 0,
        noncurrent: 0,
    };
    Settings {
        time: 0,
        used: 0,
        next: 1,
        mode: 0,
        count: 0,
        unit: 0,
        rules: [rule; 8],
    }
}

// Whether a default retention is within its limits, or absent and all zero.
fn is_sound_default(mode: u64, count: u64, unit: u64) -> bool
    ensures { result ≡ sound_default (record { mode = mode; count = count; unit = unit }) }
{
    let absent = mode == 0 && count == 0 && unit == 0;
    let days = unit == 1 && count <= model::MOST_DAYS;
    let years = unit == 2 && count <= model::MOST_YEARS;
    let is_mode = mode == Mode::Governance.number() || mode == Mode::Compliance.number();
    absent || is_mode && 1 <= count && (days || years)
}

// Whether the rule at `at` has a prefix and days within their limits, and is all zero where it has no action.
// Joined by `&`, since where branches join the proof loses what the earlier tests told; so below.
#[tactic(auto, using(crate::proofs::Checking::rule_checked))]
fn is_sound_rule(e: &[u8], at: usize) -> bool
    requires { at + 80 ≤ length e.now }
    ensures { result ≡ rule_sound (rule_at e.now at) }
{
    let current = buffers::word_at(e, at + 64);
    let noncurrent = buffers::word_at(e, at + 72);
    let is_prefix = blocks::is_prefix_block(&e[at..at + 64]);
    let is_set = !((current == 0) & (noncurrent == 0));
    is_prefix
        & ((current <= model::MOST_DAYS)
            & ((noncurrent <= model::MOST_DAYS) & (is_set | (e[at] == 0))))
}

// Whether every rule is sound.
fn are_sound(e: &[u8]) -> bool
    requires { length e.now ≡ entries_length }
    ensures { result ≡ prefixes_are (rules_of e.now) && sound_rules (rules_mean (rules_of e.now)) }
{
    for k in 0..8 {
        if !is_sound_rule(e, 80 * k) {
            return false;
        }
    }
    true
}

// Whether the settings by themselves are sound.
#[tactic(auto, using(crate::proofs::Checking::settings_checked))]
pub fn is_sound(s: State, e: &[u8]) -> bool
    requires { length e.now ≡ entries_length }
    ensures { result ≡ settings_sound (settings_with s e.now) }
{
    let default = is_sound_default(s.mode, s.count, s.unit);
    let config = default & are_sound(e);
    (s.time <= calendar::LATEST) & ((1 <= s.next) & ((s.next <= model::SPENT) & config))
}

// What is small of the settings.
impl From<Settings> for State {
    ghost from_gives = { λ s r. r ≡ state_of s };

    fn from(s: Settings) -> State {
        State {
            time: s.time,
            used: s.used as usize,
            next: s.next,
            mode: s.mode,
            count: s.count,
            unit: s.unit,
        }
    }
}

// Sets the rule at a place of the entries; one without an action is stored as zeros.
pub fn set_rule(e: &mut [u8], place: usize, prefix: &[u8], current: u64, noncurrent: u64)
    requires { (length e.old ≡ entries_length) × (place < 8) × (length prefix.now ≤ 63) }
    ensures { rules_of e.new ≡ set (rules_of e.old) place (rule_from (stored (record { prefix = prefix.now; current_days = current; noncurrent_days = noncurrent }))) }
{
    let at = 80 * place;
    if (current == 0) & (noncurrent == 0) {
        buffers::fill_in(e, at, 80, 0);
    } else {
        let mut block = [0; 64];
        blocks::put_block(&mut block, 0, prefix);
        put_rule(
            e,
            at,
            Rule {
                prefix: block,
                current,
                noncurrent,
            },
        );
    }
}
