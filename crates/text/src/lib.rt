// Parts of a text: lines, fields between tabs, whole numbers, words, keys and prefixes, and printed numbers. The definitions are in specs/.
#![tactic(auto)]

ghost use Rattle.std.specs.Prelude.{◌≡◌, ◌+◌, ◌-◌, ◌≤◌, ◌<◌, eqb, length, take, drop, decimal};
ghost use Rattle.buffers.specs.Choices.{pick};
ghost use Rattle.buffers.specs.Lists.{same, begins};
ghost use Rattle.buffers.specs.Ranges.{Within};
ghost use Rattle.buffers.specs.Writes.{Wrote};
ghost use Rattle.text.specs.Numbers.{is_digit, leading_zero, digits_of, number_of, positive_of};
ghost use Rattle.text.specs.Fields.{part_of};
ghost use Rattle.text.specs.Lines.{feed_at};
ghost use Rattle.text.specs.Keys.{is_key_byte, key_bytes, is_prefix, is_key};
ghost use Rattle.text.specs.Printing.{digits};

mod split;

pub use split::Line;

// A part of a line: the bytes from `start` on, `len` of them.
#[derive(Clone, Copy)]
pub struct Place {
    pub start: usize,
    pub len: usize,
}

// The bytes at a place.
pub fn part(line: &[u8], p: Place) -> &[u8]
    requires { p.start + p.len ≤ length line.now }
    ensures { result.now ≡ part_of line.now p }
{
    &line[p.start..p.start + p.len]
}

// The bytes before the first line feed: how many.
#[tactic(auto, using(crate::proofs::Lines::feed_found))]
pub fn line_length(rest: &[u8]) -> usize
    ensures { Within result (feed_at rest.now) (length rest.now) }
{
    memchr::memchr(b'\n', rest).unwrap_or(rest.len())
}

#[tactic(auto, using(crate::proofs::Reading::ascii_digit))]
pub fn is_digit(b: u8) -> bool
    ensures { result ≡ is_digit b }
{
    b.is_ascii_digit()
}

// Digits only, which spell a number at most `most`.
#[tactic(auto, using(crate::proofs::Reading::digits_cases))]
fn read_digits(text: &[u8], most: u64) -> Option<u64>
    ensures { result ≡ digits_of most text.now }
{
    let mut n: u64 = 0;
    for &b in text {
        if !is_digit(b) {
            return None;
        }
        n = n.checked_mul(10)?.checked_add(u64::from(b - b'0'))?;
    }
    (n <= most).then_some(n)
}

// A zero with something behind it.
#[tactic(auto, unfolding(crate::specs::Numbers::leading_zero))]
fn leading_zero(text: &[u8]) -> bool
    ensures { result ≡ leading_zero text.now }
{
    matches!(text, [b'0', _, ..])
}

// A whole number at most `most`.
#[tactic(auto, unfolding(crate::specs::Numbers::number_of))]
pub fn read_number(text: &[u8], most: u64) -> Option<u64>
    ensures { result ≡ number_of most text.now }
{
    if text.is_empty() || leading_zero(text) {
        None
    } else {
        read_digits(text, most)
    }
}

// A whole number from 1 to `most`.
#[tactic(auto, unfolding(crate::specs::Numbers::positive_of))]
pub fn read_positive(text: &[u8], most: u64) -> Option<u64>
    ensures { result ≡ positive_of most text.now }
{
    let n = read_number(text, most)?;
    (n != 0).then_some(n)
}

// std's tests under names that callers' proofs cite by their definitions, here and for digits.
// The prefix begins the key.
#[tactic(auto, using(crate::proofs::Scans::begins_is))]
pub fn begins_with(key: &[u8], prefix: &[u8]) -> bool
    ensures { result ≡ begins prefix.now key.now }
{
    key.starts_with(prefix)
}

// The two are the same, byte for byte. At a constant word the loop is inlined and unrolled; `==` takes 55 instructions in place of 30 at a word of ten bytes.
pub fn is_word(text: &[u8], word: &[u8]) -> bool
    ensures { result ≡ same text.now word.now }
{
    text.len() == word.len() && text.iter().zip(word).all(|(a, b)| a == b)
}

// A byte that may stand in a key: 0x21 to 0x7E.
#[tactic(auto, unfolding(crate::specs::Keys::is_key_byte))]
fn is_key_byte(b: u8) -> bool
    ensures { result ≡ is_key_byte b }
{
    matches!(b, 0x21..=0x7E)
}

// Every byte of a block may stand in a key. With no way out of it the loop is compiled to vector code.
fn key_block(block: &[u8]) -> bool
    ensures { result ≡ key_bytes block.now }
{
    let mut ok = true;
    for &b in block {
        ok &= is_key_byte(b);
    }
    ok
}

// Every byte may stand in a key, 16 at a time: the last 16 end with the text, and some of them may be tested twice.
#[tactic(auto, using(crate::proofs::Sixteens::piece_cases))]
fn key_bytes(text: &[u8]) -> bool
    ensures { result ≡ key_bytes text.now }
{
    let n = text.len();
    if n < 16 {
        return key_block(text);
    }
    for block in 0..n / 16 {
        let start = block * 16;
        if !key_block(&text[start..start + 16]) {
            return false;
        }
    }
    key_block(&text[n - 16..])
}

// A prefix has 0 to 63 such bytes.
#[tactic(auto, unfolding(crate::specs::Keys::is_prefix))]
pub fn is_prefix(text: &[u8]) -> bool
    ensures { result ≡ is_prefix text.now }
{
    text.len() <= 63 && key_bytes(text)
}

// A key has 1 to 63 such bytes.
#[tactic(auto, unfolding(crate::specs::Keys::is_key))]
pub fn is_key(text: &[u8]) -> bool
    ensures { result ≡ is_key text.now }
{
    !text.is_empty() && is_prefix(text)
}

// How many digits a number has.
#[tactic(auto, using(crate::proofs::Printing::length_log, crate::proofs::Printing::length_zero))]
fn count_digits(n: u64) -> usize
    ensures is { result ≡ length (decimal n) }
    ensures few { result ≤ 20 }
{
    match n.checked_ilog10() {
        Some(log) => log as usize + 1,
        None => 1,
    }
}

// Writes the digits of n from `at` on, and returns the place after them.
pub fn print_number(out: &mut [u8], at: usize, n: u64) -> usize
    requires { at + 20 ≤ length out.old }
    ensures { Wrote out.old at (digits n) 20 out.new result }
{
    let end = at + count_digits(n);
    itoa::write_digits(n, out, end);
    end
}
