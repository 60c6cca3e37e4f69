// Serves each line of standard input through the entry that tests the whole bucket, with the answer buffer that the program `bucketrun` has.
// The files stdin and stdout hold the lines and the answers of tests/stations.md, the paper's examples and the boundaries of each field,
// on a bucket of 1024 rows; the implementation in tests/reference is held to the same page.
#![tactic(auto)]

ghost use Rattle.bucket.specs.Whole.{lent};
ghost use Rattle.outcome.specs.Calls.{call};
ghost use Rattle.outcome.specs.Outcome.{outcome};
ghost use Rattle.stations.specs.Leaves.{Leaves};

use settings::Settings;
use std::io::Write;

// Serves a line, and prints its answer, or `no`, tab, number, line feed.
fn print_line<W: Write>(
    writer: &mut W,
    s: Settings,
    rows: &mut [u64],
    keys: &mut [u8],
    line: &[u8],
    answer: &mut [u8],
) -> Settings
    ensures { Leaves (lent result rows.new keys.new) answer.new (outcome (lent s rows.old keys.old) (call line.now answer.old)) }
{
    match engine::serve(s, rows, keys, line, answer) {
        Ok(served) => {
            let _ = streams::write_whole(writer, &answer[..served.len]);
            served.settings
        }
        Err(refusal) => {
            let number = refusal.number();
            let _ = writeln!(writer, "no\t{number}");
            s
        }
    }
}

// Serves each line of a text.
fn print_lines<W: Write>(
    writer: &mut W,
    s: Settings,
    rows: &mut [u64],
    keys: &mut [u8],
    text: &[u8],
    answer: &mut [u8],
) {
    let mut after = s;
    for piece in text.split_inclusive(|&byte| byte == b'\n') {
        let line = piece.strip_suffix(b"\n").unwrap_or(piece);
        after = print_line(writer, after, rows, keys, line, answer);
    }
}

fn main(rt: HostRuntime) {
    // Room for the whole input.
    let mut text = [0; 262144];
    let mut rows = table::fresh_rows();
    let mut keys = table::fresh_keys();
    // Room for a page of 255 rows.
    let mut answer = [0; 65536];
    let (n, _) = streams::read_full(&mut rt.stdin(), &mut text);
    print_lines(
        &mut rt.stdout(),
        settings::fresh(),
        &mut rows,
        &mut keys,
        &text[..n],
        &mut answer,
    );
}
