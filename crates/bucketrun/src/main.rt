// Serves the lines of standard input on a fresh bucket of 1024 rows, and prints each answer, or `no`, tab, number, line feed.
// All that is owed is written before more is read, so that whoever waits for an answer has it.
#![tactic(auto)]

ghost use Rattle.std.specs.Prelude.{◌+◌, ◌≤◌, ◌<◌, ◌≡◌, length, take, drop, replicate, is_some, is_ok, is_err};
ghost use Rattle.buffers.specs.Ranges.{Span};
ghost use Rattle.buffers.specs.Writes.{Wrote};
ghost use Rattle.bucket.specs.Whole.{lent_with};
ghost use Rattle.model.specs.Refusal.{number_of};
ghost use Rattle.outcome.specs.Printed.{refusal_text};
ghost use Rattle.bucketrun.specs.Course.{Servable, ServedSome, ServedAll, failed_in, CameBehind, TookBlock, Startable, Ran};

use model::Refusal;
use settings::State;
use std::io::{ErrorKind, Read, Write};

// The length of the answer buffer; no more output than that waits when a line comes.
const ROOM: usize = 65536;

// A line of more bytes than this is read as this many: it is refusal 3 whatever it holds.
const LONGEST: usize = 513;

// After lines of a block: the state, how many bytes of output wait, and the place behind the lines.
#[derive(Clone, Copy)]
pub struct Course {
    pub state: State,
    pub at: usize,
    pub served: usize,
}

// After a block: the state, how many of its bytes are served, and whether all output is written.
#[derive(Clone, Copy)]
pub struct Block {
    pub state: State,
    pub served: usize,
    pub written: Result<(), ErrorKind>,
}

// After a read: the place behind the bytes that are there, and, where no more come, whether reading failed.
#[derive(Clone, Copy)]
pub struct Came {
    pub end: usize,
    pub over: Option<Result<(), ErrorKind>>,
}

// Before the next block: the state, how many bytes at the input's front are kept, and whether all output is written.
#[derive(Clone, Copy)]
pub struct Rest {
    pub state: State,
    pub kept: usize,
    pub written: Result<(), ErrorKind>,
}

// After the run: whether reading failed, and whether all output is written.
#[derive(Clone, Copy)]
pub struct End {
    pub read: Result<(), ErrorKind>,
    pub written: Result<(), ErrorKind>,
}

// Prints a refusal at a place of the output, and returns the place after it.
fn print_refusal(out: &mut [u8], at: usize, refusal: Refusal) -> usize
    requires { at + 65536 ≤ length out.old }
    ensures { Wrote out.old at (refusal_text (number_of refusal)) 65536 out.new result }
{
    let after_no = buffers::copy_in(out, at, b"no\t");
    let after_number = text::print_number(out, after_no, refusal.number());
    buffers::copy_in(out, after_number, b"\n")
}

// Serves lines of the block from a place on, until none is left that a line feed ends or an answer might not fit behind the output that waits.
fn serve_some(
    block: &[u8],
    from: usize,
    s: State,
    entries: &mut [u8],
    rows: &mut [u64],
    keys: &mut [u8],
    out: &mut [u8],
) -> Course
    requires from_in_bounds { from ≤ length block.now }
    requires servable { Servable (lent_with s entries.old rows.old keys.old) entries.old out.old }
    ensures { ServedSome (lent_with s entries.old rows.old keys.old) block.now from out.old (lent_with result.state entries.new rows.new keys.new) out.new result.at result.served }
{
    let mut after = s;
    let mut at = 0;
    let mut i = from;
    // It ends where no line is left or the output waits, so that no range counts the lines.
    while at <= ROOM {
        let end = i + text::line_length(&block[i..]);
        if block.len() <= end {
            break;
        }
        let room = at + ROOM;
        let line = &block[i..end];
        match engine::serve_whole(after, entries, rows, keys, line, &mut out[at..room]) {
            // The answer stands already where it goes out from.
            Ok(done) => {
                after = done.state;
                at += done.len;
            }
            Err(refusal) => at = print_refusal(out, at, refusal),
        }
        i = end + 1;
    }
    Course {
        state: after,
        at,
        served: i,
    }
}

// Serves every line that ends in the block, and writes what they print, until nobody takes it.
fn serve_all<W: Write>(
    writer: &mut W,
    block: &[u8],
    s: State,
    entries: &mut [u8],
    rows: &mut [u64],
    keys: &mut [u8],
    out: &mut [u8],
) -> Block
    requires { Servable (lent_with s entries.old rows.old keys.old) entries.old out.old }
    ensures { ServedAll (lent_with s entries.old rows.old keys.old) block.now (W.contents writer.old) (lent_with result.state entries.new rows.new keys.new) (W.contents writer.new) result.served (is_ok result.written) }
{
    let mut after = s;
    let mut i = 0;
    // How many parts a block takes hangs on the answers, so that no range counts them.
    loop {
        let course = serve_some(block, i, after, entries, rows, keys, out);
        after = course.state;
        i = course.served;
        let at = course.at;
        if let Err(error) = streams::write_whole(writer, &out[..at]) {
            return Block {
                state: after,
                served: i,
                written: Err(error.kind()),
            };
        }
        if at <= ROOM {
            return Block {
                state: after,
                served: i,
                written: Ok(()),
            };
        }
    }
}

// Reads behind the bytes that are kept; at the input's end, or where reading fails, nothing comes, and a line feed ends what is kept, if that is anything.
fn read_behind<R: Read>(reader: &mut R, input: &mut [u8], kept: usize) -> Came
    requires { kept < length input.old }
    ensures { CameBehind input.old kept (R.remaining reader.old) input.new (R.remaining reader.new) result.end (is_some result.over) (failed_in result.over) }
{
    let read = match streams::read_some(reader, &mut input[kept..]) {
        Ok(count) if count > 0 => {
            return Came {
                end: kept + count,
                over: None,
            };
        }
        Ok(_) => Ok(()),
        Err(error) => Err(error.kind()),
    };
    if kept == 0 {
        return Came {
            end: 0,
            over: Some(read),
        };
    }
    input[kept] = b'\n';
    Came {
        end: kept + 1,
        over: Some(read),
    }
}

// Copies what is needed of the bytes from `from` to `to` to the front, and returns how many these are.
fn keep(input: &mut [u8], from: usize, to: usize) -> usize
    requires { Span from to (length input.old) }
    ensures { Wrote input.old 0 (take 513 (drop from (take to input.old))) 513 input.new result }
{
    let len = (to - from).min(LONGEST);
    input.copy_within(from..from + len, 0);
    len
}

// Serves the lines of the input up to `end`, and keeps what stands behind its last line feed.
fn serve_block<W: Write>(
    writer: &mut W,
    input: &mut [u8],
    end: usize,
    s: State,
    entries: &mut [u8],
    rows: &mut [u64],
    keys: &mut [u8],
    out: &mut [u8],
) -> Rest
    requires end_in_bounds { end ≤ length input.old }
    requires servable { Servable (lent_with s entries.old rows.old keys.old) entries.old out.old }
    ensures { TookBlock (lent_with s entries.old rows.old keys.old) (take end input.old) (W.contents writer.old) (lent_with result.state entries.new rows.new keys.new) input.new (W.contents writer.new) result.kept (is_ok result.written) }
{
    let block = serve_all(writer, &input[..end], s, entries, rows, keys, out);
    let kept = keep(input, block.served, end);
    Rest {
        state: block.state,
        kept,
        written: block.written,
    }
}

// Serves the input block by block, up to its end or to where reading or writing fails.
// Nothing says that the input ends, and a proved loop has to: it counts up to a number of blocks that no run reaches.
fn run<R: Read, W: Write>(
    reader: &mut R,
    writer: &mut W,
    s: State,
    entries: &mut [u8],
    input: &mut [u8],
    rows: &mut [u64],
    keys: &mut [u8],
    out: &mut [u8],
) -> End
    requires { Startable (lent_with s entries.old rows.old keys.old) entries.old input.old out.old }
    ensures { Ran (is_ok result.written) (is_err result.read) (lent_with s entries.old rows.old keys.old) (R.remaining reader.old) (W.contents writer.old) rows.new keys.new (R.remaining reader.new) (W.contents writer.new) }
{
    let mut after = s;
    let mut kept = 0;
    for _ in 0..u64::MAX {
        let came = read_behind(reader, input, kept);
        let rest = serve_block(writer, input, came.end, after, entries, rows, keys, out);
        if let Some(read) = came.over {
            return End {
                read,
                written: rest.written,
            };
        }
        if let Err(error) = rest.written {
            return End {
                read: Ok(()),
                written: Err(error),
            };
        }
        after = rest.state;
        kept = rest.kept;
    }
    End {
        read: Ok(()),
        written: Err(ErrorKind::Other),
    }
}

// A block of input, and a line that began before it: a function of its own, since the search in main breaks off at so many zeros.
fn no_input() -> [u8; 66560]
    ensures { result ≡ replicate 66560 0 }
{
    [0; 66560]
}

// The output that waits, and a line's answer behind it.
fn no_output() -> [u8; 131072]
    ensures { result ≡ replicate 131072 0 }
{
    [0; 131072]
}

fn main(rt: HostRuntime) {
    let mut entries = [0; 640];
    let mut input = no_input();
    let mut rows = table::fresh_rows();
    let mut keys = table::fresh_keys();
    let mut out = no_output();
    let end = run(
        &mut rt.stdin(),
        &mut rt.stdout(),
        State::from(settings::fresh()),
        &mut entries,
        &mut input,
        &mut rows,
        &mut keys,
        &mut out,
    );
    if end.read.is_err() {
        let _ = eprintln!(rt; "bucketrun: standard input can't be read");
    }
    if end.written.is_err() {
        let _ = eprintln!(rt; "bucketrun: standard output can't be written");
    }
}
