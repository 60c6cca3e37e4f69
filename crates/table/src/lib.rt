// The table of versions in two buffers that a caller lends: eight numbers and 64 key bytes a row. The definitions are in specs/.
#![tactic(auto)]

pub mod lent;

ghost use Rattle.std.specs.Prelude.{◌≡◌, List, ℕ, [], ◌+◌, ◌*◌, ◌≤◌, ◌<◌, length, get_or, set, replicate};
ghost use Rattle.buffers.specs.Writes.{placed};
ghost use Rattle.blocks.specs.Blocks.{block_of};
ghost use Rattle.model.specs.Rows.{is_data, is_marker};
ghost use Rattle.table.specs.Layout.{numbers_of_row, rows_of, capacity, Holds};
ghost use Rattle.table.specs.Changes.{insert_at, remove_at};
ghost use Rattle.table.specs.Places.{row_from, row_numbers, key_at, Insertable, InUse};
ghost use Rattle.table.specs.Moves.{opened, closed};

pub use lent::Table;
use model::Kind;

// The numbers of a row.
#[derive(Clone, Copy)]
pub struct Numbers {
    pub number: u64,
    pub kind: u64,
    pub created: u64,
    pub body: u64,
    pub size: u64,
    pub mode: u64,
    pub until: u64,
    pub hold: u64,
}

impl Numbers {
    // A kind each, as the model has them; a row's kind is a word that may be any number.
    // The row is data.
    pub fn is_data(self) -> bool
        ensures { (k : List ℕ) → result ≡ is_data (row_from self k) }
    {
        self.kind == Kind::Data.number()
    }

    // The row is a delete marker.
    pub fn is_marker(self) -> bool
        ensures { (k : List ℕ) → result ≡ is_marker (row_from self k) }
    {
        self.kind == Kind::Marker.number()
    }
}

// The numbers of a fresh table of 1024 rows.
pub fn fresh_rows() -> [u64; 8192]
    ensures { result ≡ replicate 8192 0 }
{
    [0; 8192]
}

// Its key bytes.
pub fn fresh_keys() -> [u8; 65536]
    ensures { result ≡ replicate 65536 0 }
{
    [0; 65536]
}

// The numbers of the row at a position.
pub fn numbers_at(rows: &[u64], at: usize) -> Numbers
    requires { 8 * at + 8 ≤ length rows.now }
    ensures { result ≡ row_numbers rows.now at }
{
    let row: [u64; 8] = rows[8 * at..8 * at + 8].try_into().unwrap();
    let [number, kind, created, body, size, mode, until, hold] = row;
    Numbers {
        number,
        kind,
        created,
        body,
        size,
        mode,
        until,
        hold,
    }
}

// The key of the row at a position, as a part of the key bytes.
pub fn key_at(keys: &[u8], at: usize) -> &[u8]
    requires { (64 * at + 64 ≤ length keys.now) × (get_or keys.now (64 * at) 0 ≤ 63) }
    ensures { result.now ≡ key_at keys.now at }
{
    blocks::key_in(&keys[64 * at..64 * at + 64])
}

// Writes the numbers of the row at a position.
fn write_numbers(rows: &mut [u64], at: usize, n: Numbers)
    requires { 8 * at + 8 ≤ length rows.old }
    ensures { rows.new ≡ placed rows.old (8 * at) (numbers_of_row (row_from n [])) }
{
    let row = [
        n.number, n.kind, n.created, n.body, n.size, n.mode, n.until, n.hold,
    ];
    buffers::copy_in(rows, 8 * at, &row);
}

// Moves the used rows from `at` on by one row, in a buffer where a row has `width` items.
#[tactic(auto, using(crate::proofs::Steps::open_cases))]
fn open_at<T: Copy>(items: &mut [T], width: usize, used: usize, at: usize)
    requires { (at ≤ used) × (width * used + width ≤ length items.old) }
    ensures { items.new ≡ opened width used at items.old }
{
    let first = width * at;
    let end = width * used + width;
    buffers::move_up(&mut items[first..end], width);
}

// Moves the used rows behind `at` back by one row; zeros come in behind them.
#[tactic(auto, using(crate::proofs::Steps::close_cases))]
fn close_at<T: Copy>(items: &mut [T], width: usize, used: usize, at: usize, zero: T)
    requires { (at < used) × (width * used ≤ length items.old) }
    ensures { items.new ≡ closed width zero used at items.old }
{
    let first = width * at;
    let end = width * used;
    buffers::move_down(&mut items[first..end], width, zero);
}

// Puts a row in at a position: the used rows from there on move by one.
// What writes takes the two buffers side by side: of a struct that holds them by `&mut` a caller learns only that they keep their lengths.
pub fn insert_row(rows: &mut [u64], keys: &mut [u8], used: usize, at: usize, n: Numbers, key: &[u8])
    requires { Insertable rows.old keys.old used at × (length key.now ≤ 63) }
    ensures { Holds (capacity keys.old) (insert_at at (row_from n key.now) (rows_of rows.old keys.old used)) rows.new keys.new }
{
    open_at(rows, 8, used, at);
    write_numbers(rows, at, n);
    open_at(keys, 64, used, at);
    blocks::put_block(keys, 64 * at, key);
}

// Removes the row at a position: the used rows behind it move by one, and a zero row comes in behind them.
pub fn remove_row(rows: &mut [u64], keys: &mut [u8], used: usize, at: usize)
    requires { InUse rows.old keys.old used at }
    ensures { Holds (capacity keys.old) (remove_at at (rows_of rows.old keys.old used)) rows.new keys.new }
{
    close_at(rows, 8, used, at, 0);
    close_at(keys, 64, used, at, 0);
}

// Replaces the numbers of the row at a position; its key stays, so that `keys` and `used` stand for the contract alone.
pub fn rewrite_row(rows: &mut [u64], keys: &[u8], used: usize, at: usize, n: Numbers)
    requires { InUse rows.old keys.now used at }
    ensures { Holds (capacity keys.now) (set (rows_of rows.old keys.now used) at (row_from n (key_at keys.now at))) rows.new keys.now }
{
    write_numbers(rows, at, n);
}
