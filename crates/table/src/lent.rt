// A table that is lent to be read: its two buffers and how many rows are in use. A clause sees its rows, its room and its key bytes.
ghost use Rattle.std.specs.Prelude.{◌≡◌, ◌<◌, ◌≤◌, true, length};
ghost use Rattle.model.specs.Rows.{ordered};
ghost use Rattle.table.specs.Contents.{contents, row_no, numbers_in_row};
ghost use Rattle.table.specs.Searching.{Searchable};

use crate::Numbers;
use std::marker::Model;

#[derive(Drop)]
pub struct Table<'a> {
    pub numbers: &'a [u64],
    pub keys: &'a [u8],
    pub used: usize,
}

impl<'a> Model for Table<'a> {
    ghost use Rattle.table.specs.Contents.{Contents, contents};
    ghost use Rattle.table.specs.Searching.{Searchable};

    ghost Value = { Contents };

    ghost view = { λ t. contents t.numbers.now t.keys.now t.used };

    ghost invariant = { λ t. Searchable t.numbers.now t.keys.now t.used };
}

impl<'a> Table<'a> {
    pub fn new(numbers: &'a [u64], keys: &'a [u8], used: usize) -> Table<'a>
        requires { Searchable numbers.now keys.now used }
        ensures { result ≡ contents numbers.now keys.now used }
    {
        Table {
            numbers,
            keys,
            used,
        }
    }

    // How many rows are in use; they are in order.
    #[tactic(auto, using(crate::proofs::Held::rows_length))]
    pub fn len(&self) -> usize
        ensures len { result ≡ length self.now.rows }
        ensures in_order { ordered self.now.rows ≡ true }
    {
        self.used
    }

    // How many rows it has room for.
    pub fn room(&self) -> usize
        ensures { result ≡ self.now.room }
    {
        self.keys.len() / 64
    }

    // The numbers of the row at a position.
    #[tactic(auto, using(crate::proofs::Reading::reading_cases))]
    pub fn numbers_at(&self, at: usize) -> Numbers
        requires { at < length self.now.rows }
        ensures { result ≡ numbers_in_row (row_no self.now.rows at) }
    {
        crate::numbers_at(self.numbers, at)
    }

    // The key of the row at a position.
    #[tactic(auto, using(crate::proofs::Reading::reading_cases))]
    pub fn key_at(&self, at: usize) -> &[u8]
        requires { at < length self.now.rows }
        ensures key { result.now ≡ (row_no self.now.rows at).key }
        ensures short { length result.now ≤ 63 }
    {
        crate::key_at(self.keys, at)
    }
}
