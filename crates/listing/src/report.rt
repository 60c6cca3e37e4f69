// REPORT's totals: one pass over a run of rows.
ghost use Rattle.std.specs.Prelude.{◌≡◌, List, ℕ, ◌-◌, ◌≤◌, take, drop};
ghost use Rattle.model.specs.Rows.{largest_size};
ghost use Rattle.model.specs.Reports.{totals};
ghost use Rattle.table.specs.Places.{row_from};
ghost use Rattle.answers.specs.Meaning.{totals_mean};
ghost use Rattle.listing.specs.Totals.{with_row, Bounded, Countable};

use answers::Totals;
use table::{Numbers, Table};

// The totals with a row more.
fn with_row(t: Totals, n: Numbers, instant: u64) -> Totals
    requires bounded { Bounded 1024 t }
    requires size_le_largest_size { n.size ≤ largest_size }
    requires kind_value { (n.kind ≡ 1 → ⊥) → n.kind ≡ 2 }
    ensures { (k : List ℕ) → totals_mean result ≡ with_row instant (row_from n k) (totals_mean t) }
{
    if n.is_data() {
        let locked = locks::is_locked(n, instant, false);
        Totals {
            versions: t.versions + 1,
            size: t.size + n.size,
            locked: t.locked + u64::from(locked),
            ..t
        }
    } else {
        Totals {
            markers: t.markers + 1,
            ..t
        }
    }
}

// The totals of the rows from `start` on and before `end`; their keys play no part.
pub fn totals_between(table: &Table, start: usize, end: usize, instant: u64) -> Totals
    requires countable { Countable table.now.rows end }
    requires start_le_end { start ≤ end }
    ensures { totals_mean result ≡ totals instant (take (end - start) (drop start table.now.rows)) }
{
    let mut t = Totals {
        versions: 0,
        markers: 0,
        size: 0,
        locked: 0,
    };
    for i in start..end {
        t = with_row(t, table.numbers_at(i), instant);
    }
    t
}
