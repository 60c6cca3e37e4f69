// What C calls: an export for each entry of the hub, which calls it and has its clauses. The definitions are in knitpasture's specs/.
#![tactic(auto)]

ghost use Rattle.std.specs.Prelude.{◌≡◌, length};
ghost use Rattle.bucket.specs.Whole.{lent};
ghost use Rattle.outcome.specs.Calls.{call};
ghost use Rattle.outcome.specs.Outcome.{outcome};
ghost use Rattle.knitpasture.specs.Lent.{lent_outcome, lent_outcome_from};
ghost use Rattle.knitpasture.specs.Bytes.{as_bytes, byte_outcome, words_served, hub_served, hub_counted, hub_key, fresh_outcome, words_fresh, hub_fresh};

use settings::Settings;

// Serves a line on settings that are lent and altered here, and returns 0 or the refusal.
#[unsafe(no_mangle)]
pub extern "C" fn knitpasture_serve_lent(
    settings: &mut Settings,
    rows: &mut [u64],
    keys: &mut [u8],
    line: &[u8],
    answer: &mut [u8],
) -> u64
    ensures { lent_outcome result (lent settings.new rows.new keys.new) answer.new ≡ lent_outcome_from (outcome (lent settings.old rows.old keys.old) (call line.now answer.old)) }
{
    knitpasture::knitpasture_serve_lent(settings, rows, keys, line, answer)
}

// Serves a line on settings as bytes and rows as numbers, and returns 0 or the refusal.
#[unsafe(no_mangle)]
pub extern "C" fn knitpasture_serve_words(
    settings: &mut [u8],
    rows: &mut [u64],
    keys: &mut [u8],
    line: &[u8],
    answer: &mut [u8],
) -> u64
    ensures { byte_outcome result (as_bytes settings.new rows.new keys.new) answer.new ≡ words_served (as_bytes settings.old rows.old keys.old) (call line.now answer.old) }
{
    knitpasture::knitpasture_serve_words(settings, rows, keys, line, answer)
}

// Serves a line on settings and rows as bytes, and returns 0 or the refusal.
#[unsafe(no_mangle)]
pub extern "C" fn knitpasture_serve(
    settings: &mut [u8],
    rows: &mut [u8],
    keys: &mut [u8],
    line: &[u8],
    answer: &mut [u8],
) -> u64
    ensures { byte_outcome result (as_bytes settings.new rows.new keys.new) answer.new ≡ hub_served (as_bytes settings.old rows.old keys.old) (call line.now answer.old) }
{
    knitpasture::knitpasture_serve(settings, rows, keys, line, answer)
}

// The same, and an accepted line leaves the comparisons of a prefix with a key that it made.
#[unsafe(no_mangle)]
pub extern "C" fn knitpasture_serve_counted(
    settings: &mut [u8],
    rows: &mut [u8],
    keys: &mut [u8],
    line: &[u8],
    answer: &mut [u8],
    comparisons: &mut u64,
) -> u64
    ensures answer_after { byte_outcome result (as_bytes settings.new rows.new keys.new) answer.new ≡ hub_served (as_bytes settings.old rows.old keys.old) (call line.now answer.old) }
    ensures comparisons_after { comparisons.new ≡ hub_counted (as_bytes settings.old rows.old keys.old) (call line.now answer.old) comparisons.old }
{
    knitpasture::knitpasture_serve_counted(settings, rows, keys, line, answer, comparisons)
}

// The length of a used row's key, which stands in the key bytes from the row's second on; 0 for the empty part.
#[unsafe(no_mangle)]
pub extern "C" fn knitpasture_key(settings: &[u8], rows: &[u8], keys: &[u8], at: usize) -> usize
    ensures { result ≡ length (hub_key (as_bytes settings.now rows.now keys.now) at) }
{
    knitpasture::knitpasture_key(settings, rows, keys, at)
}

// Makes the buffers those of a fresh bucket, the rows as numbers; returns 0, or 1 where the lengths don't fit one capacity.
#[unsafe(no_mangle)]
pub extern "C" fn knitpasture_fresh_words(
    settings: &mut [u8],
    rows: &mut [u64],
    keys: &mut [u8],
) -> u64
    ensures { fresh_outcome result (as_bytes settings.new rows.new keys.new) ≡ words_fresh (as_bytes settings.old rows.old keys.old) }
{
    knitpasture::knitpasture_fresh_words(settings, rows, keys)
}

// The same with the rows as bytes.
#[unsafe(no_mangle)]
pub extern "C" fn knitpasture_fresh(settings: &mut [u8], rows: &mut [u8], keys: &mut [u8]) -> u64
    ensures { fresh_outcome result (as_bytes settings.new rows.new keys.new) ≡ hub_fresh (as_bytes settings.old rows.old keys.old) }
{
    knitpasture::knitpasture_fresh(settings, rows, keys)
}
