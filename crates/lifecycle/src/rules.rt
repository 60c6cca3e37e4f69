// Lifecycle rules laid flat, and what they set for a key. The definitions are in specs/.
ghost use Rattle.std.specs.Prelude.{◌≡◌, ℕ, ◌+◌, ◌<◌, ◌≤◌, true, List, length, take};
ghost use Rattle.buffers.specs.Lists.{begins};
ghost use Rattle.blocks.specs.Blocks.{key_in};
ghost use Rattle.model.specs.Settings.{is_set};
ghost use Rattle.model.specs.Comparisons.{set_rules};
ghost use Rattle.settings.specs.Meaning.{rules_mean, prefixes_are};
ghost use Rattle.settings.specs.Bytes.{entries_length, rules_of};
ghost use Rattle.table.specs.Contents.{WholeBlocks, row_no};
ghost use Rattle.search.specs.Keys.{rank};
ghost use Rattle.lifecycle.specs.Least.{lesser, compared, most_comparisons, KeyMatched};
ghost use Rattle.lifecycle.specs.LaidRules.{rule_of, rules_in};

use crate::laid::LaidRule;
use crate::{Limits, Matched};
use table::Table;

// The lesser of two numbers of days, of which 0 stand for no action: less one, it wraps round to the largest number.
fn lesser(a: u64, b: u64) -> u64
    ensures { result ≡ lesser a b }
{
    if std::num::wrapping_sub_u64(a, 1) < std::num::wrapping_sub_u64(b, 1) {
        return a;
    }
    b
}

// A rule of no prefix and no days.
pub fn no_rule() -> LaidRule
    ensures { (result.current ≡ 0) × (result.noncurrent ≡ 0) }
{
    LaidRule::new([0; 64], 0, 0)
}

// A rule of these days stands for an action.
fn is_set(current: u64, noncurrent: u64) -> bool
    ensures { (prefix : List ℕ) → result ≡ is_set (record { prefix = prefix; current_days = current; noncurrent_days = noncurrent }) }
{
    current != 0 || noncurrent != 0
}

// Lays the rules that are set, and returns how many.
pub fn lay_rules(entries: &[u8], rules: &mut [LaidRule; 8]) -> usize
    requires { (length entries.now ≡ entries_length) × (prefixes_are (rules_of entries.now) ≡ true) }
    ensures few { result ≤ 8 }
    ensures laid { rules_in (take result rules.new) ≡ set_rules (rules_mean (rules_of entries.now)) }
{
    let mut n = 0;
    for i in 0..8 {
        let at = 80 * i;
        let current = buffers::word_at(entries, at + 64);
        let noncurrent = buffers::word_at(entries, at + 72);
        if is_set(current, noncurrent) {
            let prefix: [u8; 64] = entries[at..at + 64].try_into().unwrap();
            rules[n] = LaidRule::new(prefix, current, noncurrent);
            n += 1;
        }
    }
    n
}

// The rule's prefix begins the key, whose first eight bytes have this rank. Beyond the prefix's bounds it doesn't; between them the first eight bytes are alike, and the last eight of a prefix of up to sixteen bytes are all that is left.
fn begins(rule: &LaidRule, key: &[u8], first: u64) -> bool
    requires { first ≡ rank 8 key.now }
    ensures { result ≡ begins (key_in rule.now.prefix) key.now }
{
    if first < rule.low || rule.high < first {
        return false;
    }
    let prefix = blocks::key_in(&rule.prefix);
    let end = prefix.len();
    if end <= 8 {
        return end <= key.len();
    }
    if key.len() < end {
        return false;
    }
    let last = end - 8;
    if search::rank_at(key, last) != search::rank_at(prefix, last) {
        return false;
    }
    if end <= 16 {
        return true;
    }
    text::begins_with(&key[8..end], &prefix[8..end])
}

// Compares the prefix of a rule with a key, and counts the comparison. No other function compares a prefix, and none raises the count.
#[tactic(auto, unfolding(crate::specs::Least::compared))]
fn compare(rule: &LaidRule, key: &[u8], first: u64, found: Matched) -> Matched
    requires rank { first ≡ rank 8 key.now }
    requires comparisons_lt_most_comparisons { found.comparisons < most_comparisons }
    ensures { result ≡ compared (rule_of rule.now) key.now found }
{
    let mut limits = found.limits;
    if begins(rule, key, first) {
        limits.current = lesser(rule.current, limits.current);
        limits.noncurrent = lesser(rule.noncurrent, limits.noncurrent);
    }
    Matched {
        limits,
        comparisons: found.comparisons + 1,
    }
}

// The rank of the first eight bytes of the key at a position.
fn first_rank(table: &Table, at: usize) -> u64
    requires there { at < length table.now.rows }
    requires whole { WholeBlocks table.now }
    ensures { result ≡ rank 8 (row_no table.now.rows at).key }
{
    search::rank_at(table.keys, 64 * at + 1)
}

// What the rules set for the key at a position, each compared with it once.
pub fn match_key(rules: &[LaidRule], table: &Table, at: usize, comparisons: u64) -> Matched
    requires bounds { (at < length table.now.rows) × (comparisons + length rules.now ≤ most_comparisons) }
    requires whole { WholeBlocks table.now }
    ensures { KeyMatched (rules_in rules.now) (row_no table.now.rows at).key comparisons result }
{
    let first = first_rank(table, at);
    let key = table.key_at(at);
    let none = Limits {
        current: 0,
        noncurrent: 0,
    };
    let mut found = Matched {
        limits: none,
        comparisons,
    };
    for rule in rules {
        found = compare(rule, key, first, found);
    }
    found
}
