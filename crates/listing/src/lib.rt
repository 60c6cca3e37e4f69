// LIST and REPORT: a page of a prefix's rows, or their totals, written straight from the lent table into the answer buffer. The definitions are in specs/.
#![tactic(auto)]

mod report;

ghost use Rattle.std.specs.Prelude.{◌≡◌, true, ◌+◌, ◌-◌, ◌*◌, ◌≤◌, ◌<◌, length, take, drop};
ghost use Rattle.buffers.specs.Ranges.{Within, Span};
ghost use Rattle.buffers.specs.Writes.{Wrote};
ghost use Rattle.model.specs.Requests.{page};
ghost use Rattle.model.specs.Refusals.{row_room, page_room};
ghost use Rattle.model.specs.Pages.{page_rows};
ghost use Rattle.model.specs.Reports.{totals_of};
ghost use Rattle.model.specs.Answers.{reported};
ghost use Rattle.answers.specs.Text.{longest_answer, row_texts, page_text, answer_text};
ghost use Rattle.search.specs.Places.{key_place};
ghost use Rattle.table.specs.Contents.{row_no};
ghost use Rattle.listing.specs.Places.{place_after, page_start, page_end, is_prefix_order, Ends};
ghost use Rattle.listing.specs.Ready.{Listable};
ghost use Rattle.listing.specs.Totals.{Countable};

use std::cmp::Ordering;
use table::Table;

// The place after a key and a version.
fn place_after(table: &Table, key: &[u8], version: u64) -> usize
    ensures { Within result (place_after key.now version table.now.rows) (length table.now.rows) }
{
    if version == 0 {
        return search::key_place(table, key);
    }
    // That its length fits a usize bounds the place behind the row.
    let _used = table.len();
    match search::find_version(table, key, version) {
        Ok(i) => i + 1,
        Err(i) => i,
    }
}

// A page's start: the later of the prefix's place and the place after the key and the version.
fn page_start(table: &Table, prefix: &[u8], key: &[u8], version: u64) -> usize
    ensures { Within result (page_start prefix.now key.now version table.now.rows) (length table.now.rows) }
{
    let first = search::key_place(table, prefix);
    first.max(place_after(table, key, version))
}

// A page's end by halving: from the prefix's place on, the prefix's rows come first.
fn page_end(table: &Table, prefix: &[u8], start: usize, count: usize) -> usize
    requires span { Span (key_place prefix.now table.now.rows) start (length table.now.rows) }
    ensures { Ends start count result (page_end prefix.now start count table.now.rows) (length table.now.rows) }
{
    let end = start + count.min(table.len() - start);
    let order = |i|
        requires { i < length table.now.rows }
        ensures { is_prefix_order result prefix.entry.now (row_no table.entry.now.rows i) ≡ true }
    {
        if text::begins_with(table.key_at(i), prefix) {
            Ordering::Less
        } else {
            Ordering::Greater
        }
    };
    match search::binary_search_by(start, end, order) {
        Ok(i) | Err(i) => i,
    }
}

// Writes the lines of the rows from `start` on and before `end`.
fn write_rows(table: &Table, start: usize, end: usize, answer: &mut [u8], place: usize) -> usize
    requires listable { Listable table.now.rows }
    requires span { Span start end (length table.now.rows) }
    requires start_in_bounds { place + row_room * (end - start) ≤ length answer.old }
    ensures { Wrote answer.old place (row_texts (take (end - start) (drop start table.now.rows))) (row_room * (end - start)) answer.new result }
{
    let mut at = place;
    for i in start..end {
        at = answers::write_line(answer, at, table.key_at(i), table.numbers_at(i));
    }
    at
}

// Writes a page at the answer buffer's start, and returns its length.
pub fn write_page(
    table: &Table,
    prefix: &[u8],
    key: &[u8],
    version: u64,
    count: usize,
    answer: &mut [u8],
) -> usize
    requires listable { Listable table.now.rows }
    requires count_in_bounds { page_room count ≤ length answer.old }
    ensures { Wrote answer.old 0 (page_text (page_rows (page prefix.now key.now version count) table.now.rows)) (page_room count) answer.new result }
{
    // Its order makes a page one run.
    let _used = table.len();
    let start = page_start(table, prefix, key, version);
    let end = page_end(table, prefix, start, count);
    let after_count = answers::write_number(answer, (end - start) as u64);
    write_rows(table, start, end, answer, after_count)
}

// Writes the totals of a prefix's rows at the answer buffer's start, and returns the answer's length.
pub fn write_report(table: &Table, prefix: &[u8], instant: u64, answer: &mut [u8]) -> usize
    requires countable { Countable table.now.rows (length table.now.rows) }
    requires longest_answer_in_bounds { longest_answer ≤ length answer.old }
    ensures { Wrote answer.old 0 (answer_text (reported (totals_of prefix.now instant table.now.rows))) longest_answer answer.new result }
{
    let used = table.len();
    let start = search::key_place(table, prefix);
    let end = page_end(table, prefix, start, used);
    let t = report::totals_between(table, start, end, instant);
    answers::write_totals(answer, t)
}
