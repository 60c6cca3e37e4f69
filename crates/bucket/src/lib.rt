// Refusal 1: whether settings and buffers hold a sound bucket, and the key of a row of one. The definitions are in specs/.
#![tactic(auto)]

ghost use Rattle.std.specs.Prelude.{◌≡◌, true, false, ◌&&◌, [], ◌+◌, ◌*◌, ◌≤◌, ◌<◌, length, take, drop};
ghost use Rattle.buffers.specs.Lists.{same};
ghost use Rattle.blocks.specs.Blocks.{key_in};
ghost use Rattle.model.specs.Rows.{sound_retention, sound_data, sound_marker};
ghost use Rattle.table.specs.Layout.{row_in};
ghost use Rattle.bucket.specs.Steps.{all_below, zeros, sound_numbers, numbers_at, is_key_block, keyed_at, ahead_of, ahead_at, sound_keys, sound_table};
ghost use Rattle.bucket.specs.Ordering.{is_order_to, is_block_order};
ghost use Rattle.settings.specs.Bytes.{entries_length};
ghost use Rattle.bucket.specs.Whole.{lent, lent_with, whole, key_of};

use model::{Kind, Mode};
use settings::{Settings, State};
use std::cmp::Ordering;

// Whether the retention's mode and date belong together.
fn retention_is_sound(mode: u64, until: u64) -> bool
    ensures { result ≡ sound_retention mode until }
{
    // Words of any contents: whether they are modes is what is tested.
    if mode == 0 {
        return until == 0;
    }
    let is_mode = (mode == Mode::Governance.number()) | (mode == Mode::Compliance.number());
    is_mode & ((1 <= until) & (until <= calendar::LATEST))
}

// Whether the last five of a row's eight numbers are those of data.
fn data_is_sound(ns: &[u64]) -> bool
    requires { length ns.now ≡ 8 }
    ensures { result ≡ sound_data (row_in ns.now []) }
{
    (ns[4] <= model::LARGEST_SIZE) & (retention_is_sound(ns[5], ns[6]) & (ns[7] <= 1))
}

// Whether the last five of a row's eight numbers are those of a delete marker.
fn marker_is_sound(ns: &[u64]) -> bool
    requires { length ns.now ≡ 8 }
    ensures { result ≡ sound_marker (row_in ns.now []) }
{
    (ns[3] == 0) & ((ns[4] == 0) & ((ns[5] == 0) & ((ns[6] == 0) & (ns[7] == 0))))
}

// Whether eight numbers are those of a sound row.
fn numbers_are_sound(ns: &[u64], next: u64, time: u64) -> bool
    requires { length ns.now ≡ 8 }
    ensures { result ≡ sound_numbers next time (row_in ns.now []) }
{
    let made_here = (1 <= ns[0]) & ((ns[0] < next) & (ns[2] <= time));
    let kind = ns[1];
    if kind == Kind::Data.number() {
        return made_here & data_is_sound(ns);
    }
    if kind == Kind::Marker.number() {
        return made_here & marker_is_sound(ns);
    }
    false
}

// Whether the numbers of the row at `at` are sound.
fn row_is_sound(rows: &[u64], at: usize, next: u64, time: u64) -> bool
    requires { 8 * at + 8 ≤ length rows.now }
    ensures { result ≡ numbers_at next time rows.now at }
{
    let first = 8 * at;
    let last = first + 8;
    numbers_are_sound(&rows[first..last], next, time)
}

// Whether each used row's numbers are sound.
fn rows_are_sound(rows: &[u64], used: usize, next: u64, time: u64) -> bool
    requires { 8 * used ≤ length rows.now }
    ensures { result ≡ all_below (numbers_at next time rows.now) used }
{
    for at in 0..used {
        if !row_is_sound(rows, at, next, time) {
            return false;
        }
    }
    true
}

// Whether 64 bytes are the same in both. The loop is compiled to vector code.
fn is_same(a: &[u8], b: &[u8]) -> bool
    requires { (length a.now ≡ 64) × (length b.now ≡ 64) }
    ensures { result ≡ same a.now b.now }
{
    let mut ok = true;
    for i in 0..64 {
        ok &= a[i] == b[i];
    }
    ok
}

// The bytes behind the first, of which n are known to be the same, compared by eights up to `to`.
fn order_to(a: &[u8], b: &[u8], n: usize, to: usize) -> Ordering
    requires a_len { (length a.now ≡ 64) × (length b.now ≡ 64) × (to ≤ 56) }
    requires a_value { take n (drop 1 a.now) ≡ take n (drop 1 b.now) }
    ensures { is_order_to to result (drop 1 a.now) (drop 1 b.now) ≡ true }
{
    let mut i = n;
    // Eight bytes a step: by `step_by` the proof didn't close (`returns-else-y-x`).
    while i < to {
        let x = search::rank_at(a, i + 1);
        let y = search::rank_at(b, i + 1);
        if x < y {
            return Ordering::Less;
        }
        if y < x {
            return Ordering::Greater;
        }
        i += 8;
    }
    Ordering::Equal
}

// Two blocks that are not the same, by their last eight bytes.
fn order_last(a: &[u8], b: &[u8]) -> Ordering
    requires a_len { (length a.now ≡ 64) × (length b.now ≡ 64) × (same a.now b.now ≡ false) }
    requires a_value { take 56 (drop 1 a.now) ≡ take 56 (drop 1 b.now) }
    ensures { is_block_order result a.now b.now ≡ true }
{
    let x = search::rank_at(a, 56);
    let y = search::rank_at(b, 56);
    if x < y {
        Ordering::Less
    } else {
        Ordering::Greater
    }
}

// Two blocks whose first bytes are known to be the same.
fn order_on(a: &[u8], b: &[u8]) -> Ordering
    requires a_len { (length a.now ≡ 64) × (length b.now ≡ 64) }
    requires a_value { take 24 (drop 1 a.now) ≡ take 24 (drop 1 b.now) }
    ensures { is_block_order result a.now b.now ≡ true }
{
    if is_same(a, b) {
        return Ordering::Equal;
    }
    match order_to(a, b, 24, 56) {
        Ordering::Less => Ordering::Less,
        Ordering::Equal => order_last(a, b),
        Ordering::Greater => Ordering::Greater,
    }
}

// Two blocks, by the bytes behind the first.
fn order_of(a: &[u8], b: &[u8]) -> Ordering
    requires { (length a.now ≡ 64) × (length b.now ≡ 64) }
    ensures { is_block_order result a.now b.now ≡ true }
{
    match order_to(a, b, 0, 24) {
        Ordering::Less => Ordering::Less,
        Ordering::Equal => order_on(a, b),
        Ordering::Greater => Ordering::Greater,
    }
}

// Whether 64 bytes b are those of a key, and version x of the key in a stands before version y of that key.
fn follows(a: &[u8], x: u64, b: &[u8], y: u64) -> bool
    requires { (length a.now ≡ 64) × (length b.now ≡ 64) × (is_key_block a.now ≡ true) }
    ensures { result ≡ is_key_block b.now && ahead_of (key_in a.now) x (key_in b.now) y }
{
    // zeros stand before every byte of a key, so that all bytes behind the first are in the order of the keys
    match order_of(a, b) {
        Ordering::Less => blocks::is_key_block(b),
        Ordering::Equal => y < x,
        Ordering::Greater => false,
    }
}

// Whether the row behind the one at `at` has a key, and stands behind it.
fn next_follows(rows: &[u64], keys: &[u8], at: usize) -> bool
    requires at_in_bounds { (8 * at + 16 ≤ length rows.now) × (64 * at + 128 ≤ length keys.now) }
    requires at_value { keyed_at keys.now at ≡ true }
    ensures { result ≡ keyed_at keys.now (at + 1) && ahead_at rows.now keys.now at }
{
    let first = 8 * at;
    let second = first + 8;
    let start = 64 * at;
    let middle = start + 64;
    let end = middle + 64;
    follows(
        &keys[start..middle],
        rows[first],
        &keys[middle..end],
        rows[second],
    )
}

// Whether each used row has a key, and stands before the next one.
fn keys_are_sound(rows: &[u64], keys: &[u8], used: usize) -> bool
    requires { (8 * used ≤ length rows.now) × (64 * used ≤ length keys.now) }
    ensures { result ≡ sound_keys rows.now keys.now used }
{
    if used < 1 {
        return true;
    }
    if !blocks::is_key_block(&keys[0..64]) {
        return false;
    }
    for i in 0..used - 1 {
        if !next_follows(rows, keys, i) {
            return false;
        }
    }
    true
}

// Whether the numbers from `at` on are zero.
fn numbers_are_zero(rows: &[u64], at: usize) -> bool
    requires { at ≤ length rows.now }
    ensures { result ≡ zeros (drop at rows.now) }
{
    let mut bits = 0;
    for i in at..rows.len() {
        bits |= rows[i];
    }
    bits == 0
}

// Whether the bytes from `at` on are zero. At a type parameter nothing is known of `|`, so that numbers and bytes have a function each.
fn bytes_are_zero(keys: &[u8], at: usize) -> bool
    requires { at ≤ length keys.now }
    ensures { result ≡ zeros (drop at keys.now) }
{
    let mut bits = 0;
    for i in at..keys.len() {
        bits |= keys[i];
    }
    bits == 0
}

// Whether the buffers hold sound rows in order, and zeros after them.
fn table_is_sound(rows: &[u64], keys: &[u8], used: usize, next: u64, time: u64) -> bool
    requires { (8 * used ≤ length rows.now) × (64 * used ≤ length keys.now) }
    ensures { result ≡ sound_table next time rows.now keys.now used }
{
    if !rows_are_sound(rows, used, next, time) {
        return false;
    }
    if !keys_are_sound(rows, keys, used) {
        return false;
    }
    if !numbers_are_zero(rows, 8 * used) {
        return false;
    }
    bytes_are_zero(keys, 64 * used)
}

// Whether settings and buffers are whole; refusal 1 where they are not.
pub fn is_whole(s: State, entries: &[u8], rows: &[u64], keys: &[u8]) -> bool
    requires { length entries.now ≡ entries_length }
    ensures { result ≡ whole (lent_with s entries.now rows.now keys.now) }
{
    let c = keys.len() / 64;
    if rows.len() != 8 * c {
        return false;
    }
    if keys.len() != 64 * c {
        return false;
    }
    if c < 1 {
        return false;
    }
    if model::MOST_ROWS < c {
        return false;
    }
    let used = s.used;
    if c < used {
        return false;
    }
    if !settings::is_sound(s, entries) {
        return false;
    }
    table_is_sound(rows, keys, used, s.next, s.time)
}

// The key of a used row of a whole bucket, as a part of the key bytes; else the empty part.
#[tactic(auto, using(crate::proofs::Passing::key_cases))]
pub fn key_with<'a>(s: State, entries: &[u8], rows: &[u64], keys: &'a [u8], at: usize) -> &'a [u8]
    requires { length entries.now ≡ entries_length }
    ensures { result.now ≡ key_of (lent_with s entries.now rows.now keys.now) at }
{
    if is_whole(s, entries, rows, keys) && at < s.used {
        table::key_at(keys, at)
    } else {
        &[]
    }
}

// The same with the settings by value.
pub fn key_of<'a>(s: Settings, rows: &[u64], keys: &'a [u8], at: usize) -> &'a [u8]
    ensures { result.now ≡ key_of (lent s rows.now keys.now) at }
{
    let state = State::from(s);
    let rules = s.rules;
    let mut entries = [0; 640];
    settings::put_rules(&mut entries, rules);
    key_with(state, &entries, rows, keys, at)
}
