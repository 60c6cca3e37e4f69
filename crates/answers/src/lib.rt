// The answers to accepted lines, written at the start of the answer buffer. The definitions are in specs/.
#![tactic(auto)]

ghost use Rattle.std.specs.Prelude.{◌+◌, ◌≤◌, length, [], ◌∷◌};
ghost use Rattle.buffers.specs.Writes.{Wrote};
ghost use Rattle.text.specs.Printing.{digits};
ghost use Rattle.calendar.specs.Calendar.{latest};
ghost use Rattle.dates.specs.Printing.{print_date};
ghost use Rattle.model.specs.Refusals.{row_room};
ghost use Rattle.model.specs.Answers.{reported};
ghost use Rattle.table.specs.Places.{row_from};
ghost use Rattle.answers.specs.Text.{longest_answer, fields_text, ok_text, mode_text, until_text, hold_text, row_fields, data_fields, marker_fields, fields_behind_key, row_text, answer_text};
ghost use Rattle.answers.specs.Meaning.{totals_mean, text_of, Printable};

use model::Mode;
use table::Numbers;

// What REPORT answers: how many rows are data, how many are markers, the sum of the data lengths, and how many data rows are locked.
#[derive(Clone, Copy)]
pub struct Totals {
    pub versions: u64,
    pub markers: u64,
    pub size: u64,
    pub locked: u64,
}

// What an accepted line answers.
#[derive(Clone, Copy)]
pub enum Answer {
    Done,
    Made(u64),
    Marked(u64),
    Removed(u64),
    RemovedMarker(u64),
    Swept(u64, u64),
    Got(Numbers),
}

// A tab and a number. A field with its tab takes at most 25 bytes.
fn put_number(out: &mut [u8], at: usize, n: u64) -> usize
    requires { at + 25 ≤ length out.old }
    ensures { Wrote out.old at (9 ∷ digits n) 25 out.new result }
{
    let after_tab = buffers::copy_in(out, at, b"\t");
    text::print_number(out, after_tab, n)
}

// A tab and a word. By value, since a copy from a slice tests whether the two overlap: four instructions a field.
fn put_word<const N: usize>(out: &mut [u8], at: usize, word: [u8; N]) -> usize
    requires { (at + 25 ≤ length out.old) × (length word ≤ 24) }
    ensures { Wrote out.old at (9 ∷ word.entry) 25 out.new result }
{
    let after_tab = buffers::copy_in(out, at, b"\t");
    buffers::copy_in(out, after_tab, &word)
}

// A tab and a date.
fn put_date(out: &mut [u8], at: usize, instant: u64) -> usize
    requires { (at + 25 ≤ length out.old) × (instant ≤ latest) }
    ensures { Wrote out.old at (9 ∷ print_date instant) 25 out.new result }
{
    let after_tab = buffers::copy_in(out, at, b"\t");
    dates::print_date(out, after_tab, instant)
}

// A tab and a row's mode.
#[tactic(auto, using(buffers::proofs::Choices::picks, crate::proofs::Writing::field_as), unfolding(crate::specs::Text::mode_text))]
fn put_mode(out: &mut [u8], at: usize, mode: u64) -> usize
    requires { at + 25 ≤ length out.old }
    ensures { Wrote out.old at (9 ∷ mode_text mode) 25 out.new result }
{
    // A row's words are numbers here and below: C lends tables of any contents, so that a mode may be any number.
    if mode == 0 {
        put_word(out, at, *b"-")
    } else if mode == Mode::Governance.number() {
        put_word(out, at, *b"GOVERNANCE")
    } else {
        put_word(out, at, *b"COMPLIANCE")
    }
}

// A tab and a row's retain-until date.
#[tactic(auto, using(buffers::proofs::Choices::picks, crate::proofs::Writing::field_as), unfolding(crate::specs::Text::until_text))]
fn put_until(out: &mut [u8], at: usize, mode: u64, until: u64) -> usize
    requires { (at + 25 ≤ length out.old) × (until ≤ latest) }
    ensures { Wrote out.old at (9 ∷ until_text mode until) 25 out.new result }
{
    if mode == 0 {
        put_word(out, at, *b"-")
    } else {
        put_date(out, at, until)
    }
}

// A tab and a row's hold.
#[tactic(auto, using(buffers::proofs::Choices::picks, crate::proofs::Writing::field_as), unfolding(crate::specs::Text::hold_text))]
fn put_hold(out: &mut [u8], at: usize, hold: u64) -> usize
    requires { at + 25 ≤ length out.old }
    ensures { Wrote out.old at (9 ∷ hold_text hold) 25 out.new result }
{
    if hold == 0 {
        put_word(out, at, *b"OFF")
    } else {
        put_word(out, at, *b"ON")
    }
}

// The fields of a row's lock, and the line feed.
fn put_lock(out: &mut [u8], at: usize, mode: u64, until: u64, hold: u64) -> usize
    requires { (at + 76 ≤ length out.old) × (until ≤ latest) }
    ensures { Wrote out.old at (fields_text (mode_text mode ∷ until_text mode until ∷ hold_text hold ∷ [])) 76 out.new result }
{
    let after_mode = put_mode(out, at, mode);
    let after_until = put_until(out, after_mode, mode, until);
    let after_hold = put_hold(out, after_until, hold);
    buffers::copy_in(out, after_hold, b"\n")
}

// A row's fields from its body on, and the line feed.
fn put_contents(out: &mut [u8], at: usize, n: Numbers) -> usize
    requires { (at + 126 ≤ length out.old) × (n.until ≤ latest) }
    ensures { Wrote out.old at (fields_text (digits n.body ∷ digits n.size ∷ mode_text n.mode ∷ until_text n.mode n.until ∷ hold_text n.hold ∷ [])) 126 out.new result }
{
    let after_body = put_number(out, at, n.body);
    let after_size = put_number(out, after_body, n.size);
    put_lock(out, after_size, n.mode, n.until, n.hold)
}

// A data row's fields behind its number, and the line feed: 5 bytes for the kind, 25 for the date, 126 for the rest.
fn put_data(out: &mut [u8], at: usize, n: Numbers) -> usize
    requires { (at + 156 ≤ length out.old) × (n.created ≤ latest) × (n.until ≤ latest) }
    ensures { Wrote out.old at (fields_text (data_fields (row_from n []))) 156 out.new result }
{
    let after_kind = buffers::copy_in(out, at, b"\tdata");
    let after_created = put_date(out, after_kind, n.created);
    put_contents(out, after_created, n)
}

// A marker's fields behind its number, and the line feed; they take fewer bytes than a data row's.
fn put_marker(out: &mut [u8], at: usize, created: u64) -> usize
    requires { (at + 156 ≤ length out.old) × (created ≤ latest) }
    ensures { Wrote out.old at (fields_text (marker_fields created)) 156 out.new result }
{
    let after_kind = buffers::copy_in(out, at, b"\tmarker");
    let after_created = put_date(out, after_kind, created);
    buffers::copy_in(out, after_created, b"\t-\t-\t-\t-\tOFF\n")
}

// A row's fields behind its key, and the line feed.
fn put_fields(out: &mut [u8], at: usize, n: Numbers) -> usize
    requires { (at + 181 ≤ length out.old) × (n.created ≤ latest) × (n.until ≤ latest) }
    ensures { Wrote out.old at (fields_text (fields_behind_key (row_from n []))) 181 out.new result }
{
    let after_number = put_number(out, at, n.number);
    if n.is_data() {
        put_data(out, after_number, n)
    } else {
        put_marker(out, after_number, n.created)
    }
}

// The line of a row in a page, and its line feed.
pub fn write_line(out: &mut [u8], at: usize, key: &[u8], n: Numbers) -> usize
    requires { (at + row_room ≤ length out.old) × (length key.now ≤ 63) × (n.created ≤ latest) × (n.until ≤ latest) }
    ensures { Wrote out.old at (row_text (row_from n key.now)) row_room out.new result }
{
    let after_key = buffers::copy_in(out, at, key);
    put_fields(out, after_key, n)
}

// A number, and the line feed.
fn put_one(out: &mut [u8], at: usize, n: u64) -> usize
    requires { at + 26 ≤ length out.old }
    ensures { Wrote out.old at (fields_text (digits n ∷ [])) 26 out.new result }
{
    let after_number = put_number(out, at, n);
    buffers::copy_in(out, after_number, b"\n")
}

// A number and a word, and the line feed.
fn put_named<const N: usize>(out: &mut [u8], at: usize, n: u64, word: [u8; N]) -> usize
    requires { (at + 51 ≤ length out.old) × (length word ≤ 24) }
    ensures { Wrote out.old at (fields_text (digits n ∷ word.entry ∷ [])) 51 out.new result }
{
    let after_number = put_number(out, at, n);
    let after_word = put_word(out, after_number, word);
    buffers::copy_in(out, after_word, b"\n")
}

// Two numbers, and the line feed.
fn put_two(out: &mut [u8], at: usize, m: u64, n: u64) -> usize
    requires { at + 51 ≤ length out.old }
    ensures { Wrote out.old at (fields_text (digits m ∷ digits n ∷ [])) 51 out.new result }
{
    let after_first = put_number(out, at, m);
    let after_second = put_number(out, after_first, n);
    buffers::copy_in(out, after_second, b"\n")
}

// The fields of a row that GET shows, and the line feed.
fn put_row(out: &mut [u8], at: usize, n: Numbers) -> usize
    requires { (at + 151 ≤ length out.old) × (n.until ≤ latest) }
    ensures { Wrote out.old at (fields_text (row_fields (row_from n []))) 151 out.new result }
{
    let after_number = put_number(out, at, n.number);
    put_contents(out, after_number, n)
}

// `ok` and a number: also a page's first line.
pub fn write_number(out: &mut [u8], n: u64) -> usize
    requires { longest_answer ≤ length out.old }
    ensures { Wrote out.old 0 (ok_text (digits n ∷ [])) longest_answer out.new result }
{
    let after_ok = buffers::copy_in(out, 0, b"ok");
    put_one(out, after_ok, n)
}

// `ok` and REPORT's four numbers.
pub fn write_totals(out: &mut [u8], t: Totals) -> usize
    requires { longest_answer ≤ length out.old }
    ensures { Wrote out.old 0 (answer_text (reported (totals_mean t))) longest_answer out.new result }
{
    let after_ok = buffers::copy_in(out, 0, b"ok");
    let after_versions = put_number(out, after_ok, t.versions);
    let after_markers = put_number(out, after_versions, t.markers);
    put_two(out, after_markers, t.size, t.locked)
}

// Writes the text of an accepted line's answer at the buffer's start, and returns its length.
pub fn write_answer(out: &mut [u8], answer: Answer) -> usize
    requires { (longest_answer ≤ length out.old) × Printable answer }
    ensures { Wrote out.old 0 (text_of answer) longest_answer out.new result }
{
    let after_ok = buffers::copy_in(out, 0, b"ok");
    match answer {
        Answer::Done => buffers::copy_in(out, after_ok, b"\n"),
        Answer::Made(n) => put_one(out, after_ok, n),
        Answer::Marked(n) => put_named(out, after_ok, n, *b"marker"),
        Answer::Removed(n) => put_named(out, after_ok, n, *b"removed"),
        Answer::RemovedMarker(n) => put_named(out, after_ok, n, *b"removed-marker"),
        Answer::Swept(gone, new) => put_two(out, after_ok, gone, new),
        Answer::Got(n) => put_row(out, after_ok, n),
    }
}
