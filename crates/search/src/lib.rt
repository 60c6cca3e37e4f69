// Search by halving in an ordered table. The definitions are in specs/.
#![tactic(auto)]

mod head;

ghost use Rattle.std.specs.Prelude.{ℕ, ◌≡◌, true, ◌+◌, ◌≤◌, ◌<◌, length, drop};
ghost use Rattle.buffers.specs.Ranges.{Within};
ghost use Rattle.search.specs.Keys.{rank, is_order, is_version_order};
ghost use Rattle.search.specs.Halving.{Halved, Ended};
ghost use Rattle.table.specs.Contents.{row_no};
ghost use Rattle.search.specs.Places.{key_place, current_in, version_in};

use head::Head;
use std::cmp::Ordering;
use table::Table;

// Eight bytes as a number, the first counting most.
#[tactic(auto, using(crate::proofs::Comparing::rank_word))]
pub fn rank_at(b: &[u8], at: usize) -> u64
    requires { at + 8 ≤ length b.now }
    ensures { result ≡ rank 8 (drop at b.now) }
{
    u64::from_be_bytes(b[at..at + 8].try_into().unwrap())
}

// The first place from `start` on that doesn't answer that it stands before what is sought, where those that do stand in front: found if it is what is sought.
#[inline(always)]
pub fn binary_search_by<F: Fn(usize) -> Ordering>(
    start: usize,
    end: usize,
    order: F,
) -> Result<usize, usize>
    requires span { start ≤ end }
    requires callable { (i : ℕ) → start ≤ i → i < end → F.pre order i }
    ensures { Halved (F.post order) start end result }
{
    halve(start, end, true, order)
}

// Halves until no place is left; one that is what is sought ends it, unless the first such place is asked for.
#[inline(always)]
fn halve<F: Fn(usize) -> Ordering>(
    start: usize,
    end: usize,
    first: bool,
    order: F,
) -> Result<usize, usize>
    requires span { start ≤ end }
    requires callable { (i : ℕ) → start ≤ i → i < end → F.pre order i }
    ensures { Ended first (F.post order) start end result }
{
    let mut low = start;
    let mut high = end;
    let mut found = false;
    // Which half is next hangs on the answer, so that no range counts the steps; std searches slices alone.
    while low < high {
        let middle = low + (high - low) / 2;
        match order(middle) {
            Ordering::Less => low = middle + 1,
            Ordering::Equal if first => {
                high = middle;
                found = true;
            }
            Ordering::Equal => return Ok(middle),
            Ordering::Greater => {
                high = middle;
                found = false;
            }
        }
    }
    if found { Ok(low) } else { Err(low) }
}

// How the key of the row at a position stands to a key.
#[inline(always)]
#[tactic(auto, using(table::proofs::Reading::keys_there, table::proofs::Reading::length_there, crate::proofs::Halving::order_there))]
fn order_at(table: &Table, at: usize, head: &Head) -> Ordering
    requires { at < length table.now.rows }
    ensures { is_order result (row_no table.now.rows at).key head.now.key.now ≡ true }
{
    let keys = table.keys;
    let start = 64 * at;
    head.order(&keys[start..start + 64])
}

// A key's current version, which is its first row, or the place where the key belongs. The keys alone decide.
pub fn find_current(table: &Table, key: &[u8]) -> Result<usize, usize>
    ensures { result ≡ current_in key.now table.now.rows }
{
    let head = Head::new(key);
    let order = |i|
        requires { i < length table.now.rows }
        ensures { is_order result (row_no table.entry.now.rows i).key head.entry.key.now ≡ true }
    { order_at(table, i, &head) };
    binary_search_by(0, table.len(), order)
}

// Where a key's rows start or would start.
pub fn key_place(table: &Table, key: &[u8]) -> usize
    ensures { Within result (key_place key.now table.now.rows) (length table.now.rows) }
{
    match find_current(table, key) {
        Ok(i) | Err(i) => i,
    }
}

// A key's version, or the place where it belongs: of a key's versions the highest comes first.
pub fn find_version(table: &Table, key: &[u8], version: u64) -> Result<usize, usize>
    ensures { result ≡ version_in key.now version table.now.rows }
{
    let head = Head::new(key);
    let order = |i|
        requires { i < length table.now.rows }
        ensures { is_version_order result (row_no table.entry.now.rows i) head.entry.key.now version ≡ true }
    {
        match order_at(table, i, &head) {
            Ordering::Equal => version.cmp(&table.numbers_at(i).number),
            by_key => by_key,
        }
    };
    // A version stands in one row, so that meeting it ends the search.
    halve(0, table.len(), false, order)
}
