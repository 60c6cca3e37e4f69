// A judged change carried out on the lent table. The definitions are in specs/.
#![tactic(auto)]

mod sweep;

ghost use Rattle.std.specs.Prelude.{map};
ghost use Rattle.table.specs.Layout.{rows_of, capacity};
ghost use Rattle.apply.specs.Applied.{judged, Applicable, Applied};

use judge::Change;
use model::FateCell;

// The counts of a table after a change: the used rows and the next version number.
#[derive(Clone, Copy)]
pub struct Progress {
    pub used: usize,
    pub next: u64,
}

// Carries a change out.
pub fn apply_change<F: FateCell>(
    rows: &mut [u64],
    keys: &mut [u8],
    line: &[u8],
    used: usize,
    next: u64,
    change: Change,
    instant: u64,
    fates: &[F],
) -> Progress
    requires { Applicable (judged line.now next instant (map F.fate_in fates.now)) rows.old keys.old used change }
    ensures { Applied (judged line.now next instant (map F.fate_in fates.now)) (capacity keys.old) (rows_of rows.old keys.old used) change rows.new keys.new result }
{
    match change {
        Change::Keep => Progress { used, next },
        Change::Insert(at, n, key) => {
            table::insert_row(rows, keys, used, at, n, text::part(line, key));
            Progress {
                used: used + 1,
                next: next + 1,
            }
        }
        Change::Rewrite(at, n) => {
            table::rewrite_row(rows, keys, used, at, n);
            Progress { used, next }
        }
        Change::Remove(at) => {
            table::remove_row(rows, keys, used, at);
            Progress {
                used: used - 1,
                next,
            }
        }
        Change::Sweep(gone, new) => {
            sweep::carry_out(rows, keys, used, fates, gone, new, next, instant);
            Progress {
                used: used - gone + new,
                next: next + new as u64,
            }
        }
    }
}

#[cfg(test)]
mod tests {
    use super::*;

    // As bytes, 1 goes, and one that is no fate's stays.
    #[test]
    fn reads_fates_as_bytes(rt: HostRuntime) {
        let mut rows = [0; 16];
        rows[0] = 5;
        rows[8] = 4;
        let mut keys = [0; 128];
        let fates = [9u8, 1];
        let left = apply_change(
            &mut rows,
            &mut keys,
            b"",
            2,
            6,
            Change::Sweep(1, 0),
            0,
            &fates,
        );
        assert_eq!(rt; left.used, 1);
        assert_eq!(rt; rows[0], 5);
        assert_eq!(rt; rows[8], 0);
    }
}
