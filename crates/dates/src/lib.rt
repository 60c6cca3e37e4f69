// The texts of dates, read and printed; an instant is milliseconds since 1970. The definitions are in specs/.
#![tactic(auto)]

ghost use Rattle.std.specs.Prelude.{◌≡◌, true, ◌+◌, ◌-◌, ◌*◌, ◌≤◌, ◌<◌, length};
ghost use Rattle.buffers.specs.Lists.{all};
ghost use Rattle.buffers.specs.Ranges.{Within};
ghost use Rattle.buffers.specs.Writes.{Wrote};
ghost use Rattle.text.specs.Numbers.{is_digit};
ghost use Rattle.calendar.specs.Calendar.{latest, day, Bounded};
ghost use Rattle.dates.specs.Reading.{digit_of, two_digits, day_number, day_at, second_of_day, second_at, fraction_digit, milliseconds, fraction_of, read_date};
ghost use Rattle.dates.specs.Pairs.{apart, is_pairs, pairs_of};
ghost use Rattle.dates.specs.Printing.{last_two, date_text, print_date};

use calendar::Civil;

// The bytes `00-00-00` as a word.
const DAY_PATTERN: u64 = 0x30302d30302d3030;

// The bytes `00:00:00` as a word.
const TIME_PATTERN: u64 = 0x30303a30303a3030;

// The value of a byte that is a digit.
#[tactic(auto, using(crate::proofs::Reading::digit_least, crate::proofs::Reading::digit_value))]
fn value_of(b: u8) -> u64
    requires { is_digit b ≡ true }
    ensures { Within result (b - 48) 9 }
{
    (b - 48) as u64
}

// The value of a byte, where it is a digit.
#[tactic(auto, unfolding(crate::specs::Reading::digit_of))]
fn digit(b: u8) -> Option<u64>
    ensures { result ≡ digit_of b }
{
    if text::is_digit(b) {
        Some(value_of(b))
    } else {
        None
    }
}

// The number that two digits from `at` on spell.
#[tactic(auto, using(crate::proofs::Reading::digit_sums), unfolding(crate::specs::Reading::two_digits))]
fn two_digits(text: &[u8], at: usize) -> Option<u64>
    requires { at + 1 < length text.now }
    ensures { result ≡ two_digits text.now at }
{
    let a = digit(text[at])?;
    let b = digit(text[at + 1])?;
    Some(a * 10 + b)
}

// How eight bytes from `at` on differ, bit by bit, from those of a pattern.
#[tactic(auto, using(crate::proofs::Pairs::apart_is))]
fn apart(text: &[u8], at: usize, pattern: u64) -> u64
    requires { at + 8 ≤ length text.now }
    ensures { result ≡ apart text.now at pattern }
{
    buffers::word_at(text, at) ^ pattern
}

// Eight bytes that differ by x from `00:00:00` are three pairs of digits with these separators. All bytes are tested at once: the first test keeps each byte's sum in the second from reaching the next byte.
#[tactic(auto, using(crate::proofs::Pairs::pair_sums), unfolding(crate::specs::Pairs::is_pairs))]
fn is_pairs(x: u64) -> bool
    ensures { result ≡ is_pairs x }
{
    x & 0xf0f0f0f0f0f0f0f0 == 0 && (x + 0x06060f06060f0606) & 0xf0f0f0f0f0f0f0f0 == 0
}

// The numbers that the pairs spell, in the bytes of their first digits.
#[tactic(auto, using(crate::proofs::Pairs::pair_sums), unfolding(crate::specs::Pairs::pairs_of))]
fn pairs_of(x: u64) -> u64
    requires { is_pairs x ≡ true }
    ensures { result ≡ pairs_of x }
{
    x * 10 + x / 256
}

// The days from 1970-01-01 to a date that the calendar has.
#[tactic(auto, using(calendar::proofs::Days::valid_bounds), unfolding(crate::specs::Reading::day_number))]
fn day_number(date: Civil) -> Option<u64>
    ensures { result ≡ day_number date }
{
    if calendar::valid_day(date) {
        Some(calendar::days_of(date))
    } else {
        None
    }
}

// The day that a text's first ten bytes say.
#[tactic(auto, using(crate::proofs::Pairs::pair_cases, crate::proofs::Reading::digit_sums))]
fn day_at(text: &[u8]) -> Option<u64>
    requires { 20 ≤ length text.now }
    ensures { result ≡ day_at text.now }
{
    let century = two_digits(text, 0)?;
    let x = apart(text, 2, DAY_PATTERN);
    if !is_pairs(x) {
        return None;
    }
    let y = pairs_of(x);
    day_number(Civil {
        year: century * 100 + y % 256,
        month: y / 16777216 % 256,
        day: y / 281474976710656 % 256,
    })
}

// The second of the day, where the clock has that time.
#[tactic(auto, unfolding(crate::specs::Reading::second_of_day))]
fn second_of_day(hour: u64, minute: u64, second: u64) -> Option<u64>
    ensures { result ≡ second_of_day hour minute second }
{
    if 23 < hour || 59 < minute || 59 < second {
        None
    } else {
        Some((hour * 60 + minute) * 60 + second)
    }
}

// The second of the day that the eight bytes after a text's `T` say.
#[tactic(auto, using(crate::proofs::Pairs::pair_cases))]
fn second_at(text: &[u8]) -> Option<u64>
    requires { 20 ≤ length text.now }
    ensures { result ≡ second_at text.now }
{
    let x = apart(text, 11, TIME_PATTERN);
    if !is_pairs(x) {
        return None;
    }
    let y = pairs_of(x);
    second_of_day(y % 256, y / 16777216 % 256, y / 281474976710656 % 256)
}

// All the bytes are digits.
fn all_digits(digits: &[u8]) -> bool
    ensures { result ≡ all is_digit digits.now }
{
    digits.iter().all(|&b| text::is_digit(b))
}

// The value of the digit at a place, 0 where it is missing.
#[tactic(auto, using(crate::proofs::Reading::places))]
fn place(digits: &[u8], at: usize) -> u64
    requires { all is_digit digits.now ≡ true }
    ensures { Within result (fraction_digit digits.now at) 9 }
{
    if at < digits.len() {
        value_of(digits[at])
    } else {
        0
    }
}

// The milliseconds that three digits say, as most fractions have.
#[tactic(auto, using(crate::proofs::Reading::three_are, crate::proofs::Reading::digit_sums))]
fn three_digits(digits: &[u8]) -> Option<u64>
    requires { length digits.now ≡ 3 }
    ensures { result ≡ milliseconds digits.now }
{
    let a = two_digits(digits, 0)?;
    let b = digit(digits[2])?;
    Some(a * 10 + b)
}

// The milliseconds that the digits of a fraction say.
#[tactic(auto, using(crate::proofs::Reading::places_sum), unfolding(crate::specs::Reading::milliseconds))]
fn milliseconds(digits: &[u8]) -> Option<u64>
    ensures { result ≡ milliseconds digits.now }
{
    if digits.len() == 3 {
        return three_digits(digits);
    }
    if 1 <= digits.len() && digits.len() <= 9 && all_digits(digits) {
        Some(place(digits, 0) * 100 + place(digits, 1) * 10 + place(digits, 2))
    } else {
        None
    }
}

// The milliseconds that stand between a text's seconds and its `Z`.
#[tactic(auto, using(crate::proofs::Reading::rest_is), unfolding(crate::specs::Reading::fraction_of))]
fn fraction(part: &[u8]) -> Option<u64>
    ensures { result ≡ fraction_of part.now }
{
    match part {
        [] => Some(0),
        [b'.', digits @ ..] => milliseconds(digits),
        _ => None,
    }
}

// The instant that a date's text says.
#[tactic(auto, using(crate::proofs::Reading::bounds), unfolding(crate::specs::Reading::read_date))]
pub fn read_date(text: &[u8]) -> Option<u64>
    ensures { result ≡ read_date text.now }
{
    if text.len() < 20 {
        return None;
    }
    let last = text.len() - 1;
    if text[10] != b'T' || text[last] != b'Z' {
        return None;
    }
    let days = day_at(text)?;
    let seconds = second_at(text)?;
    let millis = fraction(&text[19..last])?;
    Some(days * 86400000 + seconds * 1000 + millis)
}

// The two digits of a number below 100: up to there 103 / 1024 counts the tens. They are made as one word, the tens in its low byte.
#[tactic(auto, using(crate::proofs::Printing::pair_laws))]
fn digit_pair(n: u64) -> [u8; 2]
    requires { n ≤ 99 }
    ensures { result ≡ last_two n }
{
    let pair = 12336 + 256 * n - 2559 * (n * 103 / 1024);
    (pair as u16).to_le_bytes()
}

// The text of a date and a time of day.
fn date_text(date: Civil, time: u64) -> [u8; 24]
    requires { Bounded date × (time < day) }
    ensures { result ≡ date_text date time }
{
    let seconds = time / 1000;
    let minutes = seconds / 60;
    let milli = time % 1000;
    let [y0, y1] = digit_pair(date.year / 100);
    let [y2, y3] = digit_pair(date.year % 100);
    let [m0, m1] = digit_pair(date.month);
    let [d0, d1] = digit_pair(date.day);
    let [h0, h1] = digit_pair(minutes / 60);
    let [i0, i1] = digit_pair(minutes % 60);
    let [s0, s1] = digit_pair(seconds % 60);
    let [f0, f1] = digit_pair(milli / 10);
    let f2 = b'0' + (milli % 10) as u8;
    [
        y0, y1, y2, y3, b'-', m0, m1, b'-', d0, d1, b'T', h0, h1, b':', i0, i1, b':', s0, s1, b'.',
        f0, f1, f2, b'Z',
    ]
}

// Writes the text of an instant at `at`, 24 bytes, and returns the place after it.
pub fn print_date(out: &mut [u8], at: usize, instant: u64) -> usize
    requires { (at + 24 ≤ length out.old) × (instant ≤ latest) }
    ensures { Wrote out.old at (print_date instant) 24 out.new result }
{
    let printed = date_text(
        calendar::civil_from_days(instant / 86400000),
        instant % 86400000,
    );
    buffers::copy_in(out, at, &printed)
}
