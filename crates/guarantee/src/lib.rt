// The three demands, stated in specs/ and proved in proofs/, and beside them a function: a whole list of lines, served.
#![tactic(auto)]

ghost use Rattle.std.specs.Prelude.{◌≡◌};
ghost use Rattle.text.specs.Lines.{lines_of};
ghost use Rattle.bucket.specs.Whole.{lent};
ghost use Rattle.guarantee.specs.Lists.{ended, served_lines};

use settings::Settings;

// Serves each line of a text; the lines are parted by line feeds.
pub fn serve_lines(
    s: Settings,
    rows: &mut [u64],
    keys: &mut [u8],
    text: &[u8],
    answer: &mut [u8],
) -> Settings
    ensures { ended (lent result rows.new keys.new) answer.new ≡ served_lines (lent s rows.old keys.old) answer.old (lines_of text.now) }
{
    let mut after = s;
    let mut i = 0;
    // From line feed to line feed, as the definition goes: by `split_inclusive` the proof didn't close (`returns`).
    while i < text.len() {
        let end = i + text::line_length(&text[i..]);
        after = match engine::serve(after, rows, keys, &text[i..end], answer) {
            Ok(served) => served.settings,
            Err(_) => after,
        };
        i = end + 1;
    }
    after
}
