// SWEEP carried out in the lent table: the rows that go are left out, then markers come in. The definitions are in specs/.
ghost use Rattle.std.specs.Prelude.{◌≡◌, [], ◌++◌, ◌+◌, ◌-◌, ◌*◌, ◌≤◌, length, take, drop, map, replicate};
ghost use Rattle.buffers.specs.Lists.{total};
ghost use Rattle.model.specs.Sweep.{marker, removes, carried_out};
ghost use Rattle.table.specs.Layout.{Holds, numbers_of_row, rows_of, capacity};
ghost use Rattle.apply.specs.Passes.{kept, Carriable, Thinned, Remaining, InBuffers, Put};

use model::{Fate, FateCell, Kind};

// The N elements of the row at a place: its eight numbers, or its 64 key bytes.
#[tactic(auto, using(buffers::proofs::Parts::part_cut))]
fn part_at<T: Copy, const N: usize>(items: &[T], at: usize) -> [T; N]
    requires { N * at + N ≤ length items.now }
    ensures { result ≡ take N (drop (N * at) items.now) }
{
    let start = N * at;
    items[start..start + N].try_into().unwrap()
}

// Writes a row at a place.
fn put_row(rows: &mut [u64], keys: &mut [u8], at: usize, numbers: [u64; 8], block: [u8; 64])
    requires { InBuffers at rows.old keys.old }
    ensures { Put at numbers block rows.old keys.old rows.new keys.new }
{
    buffers::copy_in(rows, 8 * at, &numbers);
    buffers::copy_in(keys, 64 * at, &block);
}

// Copies the row at one place to another; a row that is in place already is left as it is.
fn copy_row(rows: &mut [u64], keys: &mut [u8], from: usize, to: usize)
    requires { InBuffers from rows.old keys.old × InBuffers to rows.old keys.old }
    ensures { Put to (take 8 (drop (8 * from) rows.old)) (take 64 (drop (64 * from) keys.old)) rows.old keys.old rows.new keys.new }
{
    if from == to {
        return;
    }
    rows.copy_within(8 * from..8 * from + 8, 8 * to);
    keys.copy_within(64 * from..64 * from + 64, 64 * to);
}

// Writes two rows of one key, the second behind the first.
fn put_two_rows(
    rows: &mut [u64],
    keys: &mut [u8],
    at: usize,
    first: [u64; 8],
    second: [u64; 8],
    block: [u8; 64],
)
    requires { InBuffers (at + 1) rows.old keys.old }
    ensures { Put at (first ++ second) (block ++ block) rows.old keys.old rows.new keys.new }
{
    put_row(rows, keys, at, first, block);
    put_row(rows, keys, at + 1, second, block);
}

// Copies the row at one place behind another, and writes a marker of its key there.
fn copy_row_with_marker(
    rows: &mut [u64],
    keys: &mut [u8],
    from: usize,
    to: usize,
    number: u64,
    stamp: u64,
)
    requires { InBuffers from rows.old keys.old × InBuffers (to + 1) rows.old keys.old }
    ensures { Put to (numbers_of_row (marker stamp number []) ++ take 8 (drop (8 * from) rows.old)) (take 64 (drop (64 * from) keys.old) ++ take 64 (drop (64 * from) keys.old)) rows.old keys.old rows.new keys.new }
{
    let numbers: [u64; 8] = part_at(rows, from);
    let block: [u8; 64] = part_at(keys, from);
    let marker = [number, Kind::Marker.number(), stamp, 0, 0, 0, 0, 0];
    put_two_rows(rows, keys, to, marker, numbers, block);
}

// Makes so many rows from a place on free.
fn free_rows(rows: &mut [u64], keys: &mut [u8], at: usize, count: usize)
    requires { (8 * at + 8 * count ≤ length rows.old) × (64 * at + 64 * count ≤ length keys.old) }
    ensures { Put at (replicate (8 * count) 0) (replicate (64 * count) 0) rows.old keys.old rows.new keys.new }
{
    buffers::fill_in(rows, 8 * at, 8 * count, 0);
    buffers::fill_in(keys, 64 * at, 64 * count, 0);
}

// Leaves out the rows that go, and returns how many are left. Each row is copied at most once.
fn remove_rows<F: FateCell>(rows: &mut [u64], keys: &mut [u8], used: usize, fates: &[F]) -> usize
    requires { Holds (capacity keys.old) (rows_of rows.old keys.old used) rows.old keys.old × (used ≤ length fates.now) }
    ensures { Remaining (capacity keys.old) (kept (take used (map F.fate_in fates.now)) (rows_of rows.old keys.old used)) rows.new keys.new result }
{
    let mut left = 0;
    for at in 0..used {
        if fates[at].fate() != Fate::Goes {
            copy_row(rows, keys, at, left);
            left += 1;
        }
    }
    free_rows(rows, keys, left, used - left);
    left
}

// Leaves out the rows that go, if any, and returns how many are left.
fn thin<F: FateCell>(
    rows: &mut [u64],
    keys: &mut [u8],
    used: usize,
    fates: &[F],
    gone: usize,
) -> usize
    requires holds { Holds (capacity keys.old) (rows_of rows.old keys.old used) rows.old keys.old × (used ≤ length fates.now) }
    requires gone_value { gone ≡ total removes (take used (map F.fate_in fates.now)) }
    ensures { Remaining (capacity keys.old) (kept (take used (map F.fate_in fates.now)) (rows_of rows.old keys.old used)) rows.new keys.new result }
{
    if gone == 0 {
        return used;
    }
    remove_rows(rows, keys, used, fates)
}

// Puts markers in front of the rows that gain one, from the last to the first. Each row is copied at most once.
fn insert_markers<F: FateCell>(
    rows: &mut [u64],
    keys: &mut [u8],
    left: usize,
    used: usize,
    fates: &[F],
    added: usize,
    next: u64,
    stamp: u64,
)
    requires { Thinned rows.old keys.old left used (map F.fate_in fates.now) added next }
    ensures { Holds (capacity keys.old) (carried_out stamp next (kept (take used (map F.fate_in fates.now)) (take used (map F.fate_in fates.now))) (rows_of rows.old keys.old left)) rows.new keys.new }
{
    let mut j = used;
    let mut i = left;
    let mut k = added;
    // Three places go back, each at a pace of its own, so that no range counts them.
    while 0 < k {
        j -= 1;
        match fates[j].fate() {
            Fate::Goes => {}
            Fate::Stays => {
                i -= 1;
                copy_row(rows, keys, i, i + k);
            }
            Fate::Gains => {
                i -= 1;
                k -= 1;
                copy_row_with_marker(rows, keys, i, i + k, next + k as u64, stamp);
            }
        }
    }
}

// Carries out the fates of the used rows: those that go are left out, then markers come in, numbered from `next` on.
pub fn carry_out<F: FateCell>(
    rows: &mut [u64],
    keys: &mut [u8],
    used: usize,
    fates: &[F],
    gone: usize,
    added: usize,
    next: u64,
    stamp: u64,
)
    requires { Carriable rows.old keys.old used (map F.fate_in fates.now) gone added next }
    ensures { Holds (capacity keys.old) (carried_out stamp next (take used (map F.fate_in fates.now)) (rows_of rows.old keys.old used)) rows.new keys.new }
{
    let left = thin(rows, keys, used, fates, gone);
    insert_markers(rows, keys, left, used, fates, added, next, stamp);
}
