// The entries of the hub: the settings lent by reference or as bytes, the rows as numbers or as bytes. The definitions are in specs/.
#![tactic(auto)]

ghost use Rattle.std.specs.Prelude.{◌≡◌, ◌*◌, true, false, [], length, IfOk};
ghost use Rattle.model.specs.Refusal.{code_of};
ghost use Rattle.settings.specs.Bytes.{settings_length, settings_bytes};
ghost use Rattle.settings.specs.Meaning.{fresh_settings};
ghost use Rattle.bucket.specs.Whole.{lent, key_of};
ghost use Rattle.outcome.specs.Calls.{call};
ghost use Rattle.outcome.specs.Outcome.{outcome};
ghost use Rattle.outcome.specs.Comparisons.{comparisons_of};
ghost use Rattle.knitpasture.specs.Lent.{lent_outcome, lent_outcome_from, EntriesServed};
ghost use Rattle.knitpasture.specs.Bytes.{numbers_from, numbers_bytes, as_bytes, spelled_by, byte_outcome, words_served, spelled_served, hub_served, words_comparisons, hub_comparisons, hub_counted, hub_key, spelling, fresh_outcome, fit_rows, words_fresh, hub_fresh};

use engine::Counted;
use model::Refusal;
use settings::{Settings, State};

// What C is told of a call: 0, or the refusal's number.
fn status(called: Result<u64, Refusal>) -> u64
    ensures { result ≡ code_of called }
{
    match called {
        Ok(_) => 0,
        Err(refusal) => refusal.number(),
    }
}

// Serves a line on settings that are lent and altered here, and returns 0 or the refusal.
pub fn knitpasture_serve_lent(
    settings: &mut Settings,
    rows: &mut [u64],
    keys: &mut [u8],
    line: &[u8],
    answer: &mut [u8],
) -> u64
    ensures { lent_outcome result (lent settings.new rows.new keys.new) answer.new ≡ lent_outcome_from (outcome (lent settings.old rows.old keys.old) (call line.now answer.old)) }
{
    match engine::serve(*settings, rows, keys, line, answer) {
        Ok(served) => {
            *settings = served.settings;
            0
        }
        Err(refusal) => refusal.number(),
    }
}

// Serves a line on settings as bytes, whose entries are lent on; the state afterwards is returned and not yet written.
fn serve_entries(
    settings: &mut [u8],
    rows: &mut [u64],
    keys: &mut [u8],
    line: &[u8],
    answer: &mut [u8],
) -> Result<Counted, Refusal>
    requires { length settings.old ≡ settings_length }
    ensures { EntriesServed settings.old rows.old keys.old (call line.now answer.old) result settings.new rows.new keys.new answer.new }
{
    let s = settings::state_in(settings);
    engine::serve_counted(s, &mut settings[48..], rows, keys, line, answer)
}

// Serves a line on settings as bytes and rows as numbers; only an accepted line alters them, and tells its comparisons of a prefix with a key.
fn serve_words(
    settings: &mut [u8],
    rows: &mut [u64],
    keys: &mut [u8],
    line: &[u8],
    answer: &mut [u8],
) -> Result<u64, Refusal>
    ensures answer_after { byte_outcome (code_of result) (as_bytes settings.new rows.new keys.new) answer.new ≡ words_served (as_bytes settings.old rows.old keys.old) (call line.now answer.old) }
    ensures comparisons_value { IfOk result (λ comparisons. comparisons ≡ words_comparisons (as_bytes settings.old rows.old keys.old) (call line.now answer.old)) }
{
    if settings.len() != model::SETTINGS_BYTES {
        return Err(Refusal::Unsound);
    }
    let counted = serve_entries(settings, rows, keys, line, answer)?;
    settings::put_state(settings, counted.done.state);
    Ok(counted.comparisons)
}

// The same without the comparisons.
pub fn knitpasture_serve_words(
    settings: &mut [u8],
    rows: &mut [u64],
    keys: &mut [u8],
    line: &[u8],
    answer: &mut [u8],
) -> u64
    ensures { byte_outcome result (as_bytes settings.new rows.new keys.new) answer.new ≡ words_served (as_bytes settings.old rows.old keys.old) (call line.now answer.old) }
{
    status(serve_words(settings, rows, keys, line, answer))
}

// Reads the numbers that the bytes spell.
fn read_numbers(b: &[u8], numbers: &mut [u64])
    requires { length b.now ≡ 8 * length numbers.old }
    ensures { numbers.new ≡ numbers_from (length numbers.old) b.now }
{
    for i in 0..numbers.len() {
        numbers[i] = buffers::word_at(b, 8 * i);
    }
}

// Writes the bytes that spell the numbers.
fn write_numbers(numbers: &[u64], b: &mut [u8])
    requires { length b.old ≡ 8 * length numbers.now }
    ensures { b.new ≡ numbers_bytes numbers.now }
{
    for i in 0..numbers.len() {
        buffers::put_word(b, 8 * i, numbers[i]);
    }
}

// Serves a line on the numbers that the rows spell; only an accepted line writes them back.
fn serve_spelled(
    settings: &mut [u8],
    rows: &mut [u8],
    keys: &mut [u8],
    line: &[u8],
    answer: &mut [u8],
    numbers: &mut [u64],
) -> Result<u64, Refusal>
    requires { (length settings.old ≡ settings_length) × (length rows.old ≡ 8 * length numbers.old) }
    ensures answer_after { byte_outcome (code_of result) (as_bytes settings.new rows.new keys.new) answer.new ≡ spelled_served (length numbers.old) (as_bytes settings.old rows.old keys.old) (call line.now answer.old) }
    ensures comparisons_value { IfOk result (λ comparisons. comparisons ≡ comparisons_of (spelled_by (length numbers.old) (as_bytes settings.old rows.old keys.old)) (call line.now answer.old)) }
{
    read_numbers(rows, numbers);
    let comparisons = serve_words(settings, numbers, keys, line, answer)?;
    write_numbers(numbers, rows);
    Ok(comparisons)
}

// Whether settings and rows are as long as those of at most 1024 rows are.
fn can_spell(settings: &[u8], rows: &[u8]) -> bool
    ensures { result ≡ spelling (as_bytes settings.now rows.now []) true false }
{
    settings.len() == model::SETTINGS_BYTES
        && rows.len() <= model::TABLE_BYTES
        && rows.len() % 8 == 0
}

// Serves a line on settings and rows as bytes; only an accepted line alters them.
#[tactic(auto, using(crate::proofs::Serving::few_served, crate::proofs::Serving::most_served, crate::proofs::Serving::few_count, crate::proofs::Serving::most_count), unfolding(crate::specs::Bytes::hub_served, crate::specs::Bytes::hub_comparisons))]
fn serve_bytes(
    settings: &mut [u8],
    rows: &mut [u8],
    keys: &mut [u8],
    line: &[u8],
    answer: &mut [u8],
) -> Result<u64, Refusal>
    ensures answer_after { byte_outcome (code_of result) (as_bytes settings.new rows.new keys.new) answer.new ≡ hub_served (as_bytes settings.old rows.old keys.old) (call line.now answer.old) }
    ensures comparisons_value { IfOk result (λ comparisons. comparisons ≡ hub_comparisons (as_bytes settings.old rows.old keys.old) (call line.now answer.old)) }
{
    if !can_spell(settings, rows) {
        return Err(Refusal::Unsound);
    }
    let n = rows.len() / 8;
    // Less to clear, where the table is small.
    if n <= 512 {
        let mut numbers = [0; 512];
        return serve_spelled(settings, rows, keys, line, answer, &mut numbers[..n]);
    }
    let mut numbers = [0; 8192];
    serve_spelled(settings, rows, keys, line, answer, &mut numbers[..n])
}

// Serves a line on settings and rows as bytes, and returns 0 or the refusal.
pub fn knitpasture_serve(
    settings: &mut [u8],
    rows: &mut [u8],
    keys: &mut [u8],
    line: &[u8],
    answer: &mut [u8],
) -> u64
    ensures { byte_outcome result (as_bytes settings.new rows.new keys.new) answer.new ≡ hub_served (as_bytes settings.old rows.old keys.old) (call line.now answer.old) }
{
    status(serve_bytes(settings, rows, keys, line, answer))
}

// The same, and an accepted line leaves the comparisons of a prefix with a key that it made.
pub fn knitpasture_serve_counted(
    settings: &mut [u8],
    rows: &mut [u8],
    keys: &mut [u8],
    line: &[u8],
    answer: &mut [u8],
    comparisons: &mut u64,
) -> u64
    ensures answer_after { byte_outcome result (as_bytes settings.new rows.new keys.new) answer.new ≡ hub_served (as_bytes settings.old rows.old keys.old) (call line.now answer.old) }
    ensures comparisons_after { comparisons.new ≡ hub_counted (as_bytes settings.old rows.old keys.old) (call line.now answer.old) comparisons.old }
{
    match serve_bytes(settings, rows, keys, line, answer) {
        Ok(count) => {
            *comparisons = count;
            0
        }
        Err(refusal) => refusal.number(),
    }
}

// The length of the key at a position of the numbers that the rows spell.
fn key_length(settings: &[u8], rows: &[u8], keys: &[u8], at: usize, numbers: &mut [u64]) -> usize
    requires { (length settings.now ≡ settings_length) × (length rows.now ≡ 8 * length numbers.old) }
    ensures { result ≡ length (key_of (spelled_by (length numbers.old) (as_bytes settings.now rows.now keys.now)) at) }
{
    read_numbers(rows, numbers);
    let s = settings::state_in(settings);
    bucket::key_with(s, &settings[48..], numbers, keys, at).len()
}

// The length of a used row's key, which stands in the key bytes from the row's second on; 0 for the empty part.
#[tactic(auto, using(crate::proofs::Serving::key_served, crate::proofs::Serving::part_most), unfolding(crate::specs::Bytes::hub_key))]
pub fn knitpasture_key(settings: &[u8], rows: &[u8], keys: &[u8], at: usize) -> usize
    ensures { result ≡ length (hub_key (as_bytes settings.now rows.now keys.now) at) }
{
    if !can_spell(settings, rows) {
        return 0;
    }
    let mut numbers = [0; 8192];
    key_length(settings, rows, keys, at, &mut numbers[..rows.len() / 8])
}

// Whether as many key bytes are those of 1 to 1024 rows.
#[tactic(auto, unfolding(crate::specs::Bytes::fit_rows))]
fn fit_rows(n: usize) -> bool
    ensures { result ≡ fit_rows n }
{
    (64..=model::TABLE_BYTES).contains(&n) && n % 64 == 0
}

// Makes the bytes those of fresh settings.
fn put_fresh(settings: &mut [u8])
    requires { length settings.old ≡ settings_length }
    ensures { settings.new ≡ settings_bytes fresh_settings }
{
    settings.fill(0);
    settings::put_state(settings, State::from(settings::fresh()));
}

// Makes the buffers those of a fresh bucket, the rows as numbers; returns 0, or 1 where the lengths don't fit one capacity.
#[tactic(auto, unfolding(crate::specs::Bytes::words_fresh))]
pub fn knitpasture_fresh_words(settings: &mut [u8], rows: &mut [u64], keys: &mut [u8]) -> u64
    ensures { fresh_outcome result (as_bytes settings.new rows.new keys.new) ≡ words_fresh (as_bytes settings.old rows.old keys.old) }
{
    if settings.len() != model::SETTINGS_BYTES
        || rows.len() != keys.len() / 8
        || !fit_rows(keys.len())
    {
        return Refusal::Unsound.number();
    }
    put_fresh(settings);
    rows.fill(0u64);
    keys.fill(0);
    0
}

// The same with the rows as bytes.
#[tactic(auto, unfolding(crate::specs::Bytes::hub_fresh))]
pub fn knitpasture_fresh(settings: &mut [u8], rows: &mut [u8], keys: &mut [u8]) -> u64
    ensures { fresh_outcome result (as_bytes settings.new rows.new keys.new) ≡ hub_fresh (as_bytes settings.old rows.old keys.old) }
{
    if settings.len() != model::SETTINGS_BYTES
        || rows.len() != keys.len()
        || !fit_rows(keys.len())
    {
        return Refusal::Unsound.number();
    }
    put_fresh(settings);
    rows.fill(0);
    keys.fill(0u8);
    0
}
