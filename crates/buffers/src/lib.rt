// Buffers that a caller lends: copying into them, moving a tail by one row, little-endian words. The definitions are in specs/.
#![tactic(auto)]

ghost use Rattle.std.specs.Prelude.{◌≡◌, ◌+◌, ◌≤◌, length, take, drop, replicate};
ghost use Rattle.buffers.specs.Moves.{moved_up, moved_down};
ghost use Rattle.buffers.specs.Words.{number, spelled};
ghost use Rattle.buffers.specs.Writes.{Wrote};

// Copies all of `src` into `out` from `at` on, and returns the place after it. Buffer and place go side by side, since a struct that lends the buffer on would keep nothing of its bytes for the lender.
pub fn copy_in<T: Copy>(out: &mut [T], at: usize, src: &[T]) -> usize
    requires { at + length src.now ≤ length out.old }
    ensures { Wrote out.old at src.now (length src.now) out.new result }
{
    let end = at + src.len();
    out[at..end].copy_from_slice(src);
    end
}

// Writes n copies of `x` from `at` on, and returns the place after them.
pub fn fill_in<T: Copy>(out: &mut [T], at: usize, n: usize, x: T) -> usize
    requires { at + n ≤ length out.old }
    ensures { Wrote out.old at (replicate n x) n out.new result }
{
    let end = at + n;
    // `fill` at a type that is copied isn't proved: it clones, and takes 52 instructions for 41.
    for place in &mut out[at..end] {
        *place = x;
    }
    end
}

// Moves the elements up by `by` places; the first `by` keep their values.
#[tactic(auto, using(crate::proofs::Moves::up_is))]
pub fn move_up<T: Copy>(s: &mut [T], by: usize)
    requires { by ≤ length s.old }
    ensures { s.new ≡ moved_up by s.old }
{
    let end = s.len() - by;
    s.copy_within(..end, by);
}

// Moves the elements down by `by` places; copies of `x` come in at the end.
pub fn move_down<T: Copy>(s: &mut [T], by: usize, x: T)
    requires { by ≤ length s.old }
    ensures { s.new ≡ moved_down by x s.old }
{
    let end = s.len() - by;
    s.copy_within(by.., 0);
    fill_in(s, end, by, x);
}

// The number that eight bytes from `at` on spell.
#[tactic(auto, using(crate::proofs::Words::word_number))]
pub fn word_at(b: &[u8], at: usize) -> u64
    requires { at + 8 ≤ length b.now }
    ensures { result ≡ number (take 8 (drop at b.now)) }
{
    u64::from_le_bytes(b[at..at + 8].try_into().unwrap())
}

// Writes the eight bytes of `x` at `at`, and returns the place after them.
#[tactic(auto, using(crate::proofs::Words::word_spelled))]
pub fn put_word(b: &mut [u8], at: usize, x: u64) -> usize
    requires { at + 8 ≤ length b.old }
    ensures { Wrote b.old at (spelled 8 x) 8 b.new result }
{
    copy_in(b, at, &x.to_le_bytes())
}
