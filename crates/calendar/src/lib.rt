// Days, months and years of the Gregorian calendar since 1970-01-01, and periods. The definitions are in specs/.
#![tactic(auto)]

ghost use Rattle.std.specs.Prelude.{◌≡◌, ◌+◌, ◌-◌, ◌*◌, ◌%◌, ◌≤◌, ◌<◌, leb};
ghost use Rattle.buffers.specs.Ranges.{Within, Span};
ghost use Rattle.calendar.specs.Calendar.{Bounded, latest, day, leap, year_length, year_start, month_start, month_length, valid_day, days_of, year_of, month_of, date_in, civil_of};
ghost use Rattle.calendar.specs.Periods.{years_later, turning_year, period_end, day_start, expires_at};

// A date of the Gregorian calendar.
#[derive(Clone, Copy)]
pub struct Civil {
    pub year: u64,
    pub month: u64,
    pub day: u64,
}

// The now of a line: locks and expiry are judged by the one, creation and dates are taken from the other.
#[derive(Clone, Copy)]
pub struct Now {
    pub judge: u64,
    pub stamp: u64,
}

// The last instant.
pub const LATEST: u64 = 253402300799999;

// The milliseconds of a day.
const DAY: u64 = 86400000;

// The days before each month in a common year. Entries of 16 bits take two stores where the table is read.
const MONTHS: [u16; 12] = [0, 31, 59, 90, 120, 151, 181, 212, 243, 273, 304, 334];

// Leap years are every fourth year, of the centuries every fourth.
#[tactic(auto, using(buffers::proofs::Choices::picks), unfolding(crate::specs::Calendar::leap))]
fn is_leap(year: u64) -> bool
    ensures { result ≡ leap year }
{
    year % 4 == 0 && (year % 100 != 0 || year % 400 == 0)
}

// The days of a year.
fn year_length(leap_year: bool) -> u64
    ensures { Within result (year_length leap_year) 366 }
{
    if leap_year { 366 } else { 365 }
}

// The days from 1970-01-01 to a year's first day.
#[tactic(auto, using(crate::proofs::Years::year_start_is))]
fn year_start(year: u64) -> u64
    requires { Span 1970 year 46500 }
    ensures { Within result (year_start year) 16264249 }
{
    let p = year - 1;
    365 * (year - 1970) + p / 4 + p / 400 - (p / 100 + 477)
}

// The days of a year before its month, 1 to 12.
#[tactic(auto, using(buffers::proofs::Choices::picks, crate::proofs::Months::entries), unfolding(crate::specs::Calendar::month_start))]
fn month_start(leap_year: bool, month: u64) -> u64
    requires { Span 1 month 12 }
    ensures { Within result (month_start leap_year month) 335 }
{
    let before = u64::from(MONTHS[(month - 1) as usize]);
    if leap_year && 2 < month {
        before + 1
    } else {
        before
    }
}

// The days of a month, 1 to 12: those of February are what the other months leave of the year.
#[tactic(auto, using(crate::proofs::Months::lengths))]
fn month_length(leap_year: bool, month: u64) -> u64
    requires { Span 1 month 12 }
    ensures { result ≡ month_length leap_year month }
{
    if month == 2 {
        year_length(leap_year) - 337
    } else {
        30 + (month + month / 8) % 2
    }
}

// The calendar has this date, in the years 1970 to 9999.
#[tactic(auto, using(buffers::proofs::Choices::picks, crate::proofs::Days::valid_last), unfolding(crate::specs::Calendar::valid_day))]
pub fn valid_day(date: Civil) -> bool
    ensures { result ≡ valid_day date }
{
    (1970..=9999).contains(&date.year)
        && (1..=12).contains(&date.month)
        && 1 <= date.day
        && date.day <= month_length(is_leap(date.year), date.month)
}

// The days from 1970-01-01 to a date.
#[tactic(auto, using(crate::proofs::Days::days_is))]
pub fn days_of(date: Civil) -> u64
    requires { Bounded date }
    ensures { Within result (days_of date) 2933262 }
{
    year_start(date.year) + month_start(is_leap(date.year), date.month) + (date.day - 1)
}

// The year of a day. The guess by the mean Julian year is right or one too low.
#[tactic(auto, using(buffers::proofs::Choices::picks, crate::proofs::Tables::measures), unfolding(crate::specs::Calendar::year_of, crate::specs::Calendar::guess_of))]
fn year_of(days: u64) -> u64
    requires { days ≤ 2932896 }
    ensures { result ≡ year_of days }
{
    let guess = 1970 + days * 4 / 1461;
    if days < year_start(guess + 1) {
        guess
    } else {
        guess + 1
    }
}

// The month of a year's day, which counts from 0. The guess by months of 31 days is right or one too low.
#[tactic(auto, using(buffers::proofs::Choices::picks, crate::proofs::Tables::measures), unfolding(crate::specs::Calendar::month_of))]
fn month_of(leap_year: bool, day: u64) -> u64
    requires { day < 366 }
    ensures { result ≡ month_of leap_year day }
{
    let guess = day / 31 + 1;
    if 11 < guess || day < month_start(leap_year, guess + 1) {
        guess
    } else {
        guess + 1
    }
}

// The date of a year's day, which counts from 0.
#[tactic(auto, using(crate::proofs::Days::dates_in))]
fn date_in(year: u64, day: u64) -> Civil
    requires { day < year_length (leap year) }
    ensures { result ≡ date_in year day }
{
    let leap_year = is_leap(year);
    let month = month_of(leap_year, day);
    Civil {
        year,
        month,
        day: day - month_start(leap_year, month) + 1,
    }
}

// The date of a day since 1970-01-01.
#[tactic(auto, using(crate::proofs::Days::civils))]
pub fn civil_from_days(days: u64) -> Civil
    requires { days ≤ 2932896 }
    ensures { (result ≡ civil_of days) × Bounded result }
{
    let year = year_of(days);
    date_in(year, days - year_start(year))
}

// The year from whose first day a date is as far as some years later: its own before 29 February, else the next.
#[tactic(auto, using(crate::proofs::Days::civils, crate::proofs::Later::turns))]
fn turning_year(days: u64) -> u64
    requires { days ≤ 2932896 }
    ensures { Within result (turning_year days) 10000 }
{
    let year = year_of(days);
    if days - year_start(year) < 59 {
        year
    } else {
        year + 1
    }
}

// The same date some years later, at the same time of day.
fn years_later(from: u64, years: u64) -> u64
    requires { (from ≤ latest) × (years ≤ 36500) }
    ensures { result ≡ years_later from years }
{
    let turn = turning_year(from / DAY);
    from + (year_start(turn + years) - year_start(turn)) * DAY
}

// The end of a period of days (unit 1) or years (unit 2). The unit is a word of the settings as they are lent, which may hold any number.
#[tactic(auto, using(buffers::proofs::Choices::picks), unfolding(crate::specs::Periods::period_end))]
pub fn period_end(from: u64, count: u64, unit: u64) -> u64
    requires { (from ≤ latest) × (count ≤ 36500) }
    ensures { result ≡ period_end from count unit }
{
    if unit == 2 {
        years_later(from, count)
    } else {
        from + count * DAY
    }
}

// The midnight at which the day of an instant begins.
pub fn day_start(instant: u64) -> u64
    ensures { result ≡ day_start instant }
{
    instant - instant % DAY
}

// What expires some days after `since` has expired at a midnight. The sum needs no rounding: a midnight is no earlier than it exactly where it is no earlier than the sum rounded up.
#[tactic(auto, using(crate::proofs::Periods::expired_at))]
pub fn has_expired(since: u64, days: u64, midnight: u64) -> bool
    requires { (since ≤ latest) × (days ≤ 36500) × (midnight % day ≡ 0) }
    ensures { result ≡ leb (expires_at since days) midnight }
{
    since + days * DAY <= midnight
}
