// A line, parted by its tabs. The line is passed through once: where its first nine fields end is kept beside its bytes.
ghost use Rattle.std.specs.Prelude.{◌≡◌, ◌+◌, ◌*◌, ◌-◌, ◌≤◌, ◌<◌, length, take, drop};
ghost use Rattle.text.specs.Fields.{tabs_in, start_of, field_of, place_of, Split, Marking, Piece};
ghost use Rattle.text.specs.Bits.{bits_of};

use crate::Place;
use std::marker::Model;
use std::simd::prelude::*;

// A clause sees the line's bytes.
#[derive(Drop)]
pub struct Line<'a> {
    bytes: &'a [u8],
    // where the first nine fields end, at the line's end where it has fewer
    ends: [usize; 9],
    tabs: usize,
}

impl<'a> Model for Line<'a> {
    ghost use Rattle.std.specs.Prelude.{ℕ, List};
    ghost use Rattle.text.specs.Fields.{Split};

    ghost Value = { List ℕ };

    ghost view = { λ l. l.bytes.now };

    ghost invariant = { λ l. Split l.bytes.now l.ends l.tabs };
}

impl<'a> Line<'a> {
    #[tactic(auto, using(crate::proofs::Marks::marks))]
    pub fn split(bytes: &'a [u8]) -> Line<'a>
        ensures { result ≡ bytes.now }
    {
        let mut ends = [bytes.len(); 9];
        let tabs = mark_tabs(bytes, &mut ends);
        Line { bytes, ends, tabs }
    }

    // The tabs of the line, one fewer than its fields.
    pub fn tabs(&self) -> usize
        ensures { result ≡ tabs_in self.now }
    {
        self.tabs
    }

    // Where field i starts: behind the tab that ends the field before it, or at the line's end.
    #[tactic(auto, using(crate::proofs::Marks::starts))]
    fn start(&self, i: usize) -> usize
        requires { i < 9 }
        ensures { result ≡ start_of self.now i }
    {
        if i == 0 {
            0
        } else {
            (self.ends[i - 1] + 1).min(self.bytes.len())
        }
    }

    // The place of field i, counted from 0.
    #[tactic(auto, using(crate::proofs::Marks::places))]
    pub fn place(&self, i: usize) -> Place
        requires { i < 9 }
        ensures { result ≡ place_of self.now i }
    {
        let start = self.start(i);
        Place {
            start,
            len: self.ends[i] - start,
        }
    }

    // The bytes of field i, counted from 0.
    #[tactic(auto, using(crate::proofs::Fields::found))]
    pub fn field(&self, i: usize) -> &'a [u8]
        requires { i < 9 }
        ensures { result.now ≡ field_of self.now i }
    {
        crate::part(self.bytes, self.place(i))
    }
}

// A bit for each of 16 bytes, the first one's lowest, set where the byte is b.
#[tactic(auto, using(crate::proofs::Bits::mask_bits))]
fn byte_bits(block: &[u8], b: u8) -> u64
    requires { length block.now ≡ 16 }
    ensures { result ≡ bits_of b block.now }
{
    u8x16::from_slice(block)
        .simd_eq(u8x16::splat(b))
        .to_bitmask()
}

// Marks the tabs between two places, given as bits, and returns how many there are up to there. The line and the end are there for the contract.
#[tactic(auto, using(crate::proofs::Marks::walking))]
fn mark_bits(
    line: &[u8],
    ends: &mut [usize; 9],
    start: usize,
    end: usize,
    tabs: usize,
    bits: u64,
) -> usize
    requires marking { Marking line.now start tabs ends.old }
    requires piece { Piece line.now start end 16 }
    requires bits_value { bits ≡ bits_of 9 (take (end - start) (drop start line.now)) }
    ensures { Marking line.now end result ends.new }
{
    let mut n = tabs;
    let mut m = bits;
    // no iterator goes over the bits of a number
    while m != 0 {
        let at = start + m.trailing_zeros() as usize;
        m &= m - 1;
        n += 1;
        if n <= 9 {
            ends[n - 1] = at;
        }
    }
    n
}

// The bits of a line's tabs from `start` on: those of the 16 bytes that end with the line, without the bytes before `start`.
#[tactic(auto, using(crate::proofs::Marks::last_cases))]
fn last_bits(line: &[u8], start: usize) -> u64
    requires { (16 ≤ length line.now) × (start ≤ length line.now) × (length line.now ≤ start + 16) }
    ensures { result ≡ bits_of 9 (take (length line.now - start) (drop start line.now)) }
{
    let first = line.len() - 16;
    byte_bits(&line[first..], b'\t') >> (start - first)
}

// Marks the tabs of a line, 16 bytes at a time: 157 instructions for a line of nine fields, where `memchr_iter` takes 344.
#[tactic(auto, using(crate::proofs::Marks::block_cases))]
fn mark_tabs(line: &[u8], ends: &mut [usize; 9]) -> usize
    requires { Marking line.now 0 0 ends.old }
    ensures { Marking line.now (length line.now) result ends.new }
{
    let len = line.len();
    if len < 16 {
        let mut block = [0; 16];
        block[..len].copy_from_slice(line);
        return mark_bits(line, ends, 0, len, 0, byte_bits(&block, b'\t'));
    }
    let mut tabs = 0;
    for block in 0..len / 16 {
        let start = block * 16;
        let end = start + 16;
        let bits = byte_bits(&line[start..end], b'\t');
        tabs = mark_bits(line, ends, start, end, tabs, bits);
    }
    let start = len / 16 * 16;
    mark_bits(line, ends, start, len, tabs, last_bits(line, start))
}
