// The row that a line names. The definitions are in specs/Named.antt.
ghost use Rattle.std.specs.Prelude.{◌≡◌};
ghost use Rattle.fields.specs.Meaning.{version_means, Inside};
ghost use Rattle.request.specs.Meaning.{name_means};
ghost use Rattle.judge.specs.Named.{found_by, row_named, data_named};

use crate::Named;
use model::Refusal;
use request::Name;
use table::Table;

// Where the row that a key and a version field name stands.
fn find_named(table: &Table, key: &[u8], version: Option<u64>) -> Result<usize, usize>
    ensures { result ≡ found_by table.now.rows key.now (version_means version) }
{
    match version {
        None => search::find_current(table, key),
        Some(n) => search::find_version(table, key, n),
    }
}

// The row that a line names.
#[tactic(auto, using(crate::proofs::Looking::finding))]
pub fn row_named(table: &Table, line: &[u8], name: Name) -> Result<Named, Refusal>
    requires { Inside line.now name.key }
    ensures { result ≡ row_named table.now.rows (name_means line.now name) }
{
    let Ok(at) = find_named(table, text::part(line, name.key), name.version) else {
        return Err(Refusal::NoRow);
    };
    Ok(Named {
        at,
        numbers: table.numbers_at(at),
    })
}

// The row that a line names and that must be data.
#[tactic(auto, unfolding(crate::specs::Named::data_named))]
pub fn data_named(table: &Table, line: &[u8], name: Name) -> Result<Named, Refusal>
    requires { Inside line.now name.key }
    ensures { result ≡ data_named table.now.rows (name_means line.now name) }
{
    let named = row_named(table, line, name)?;
    if named.numbers.is_marker() {
        return Err(Refusal::IsMarker);
    }
    Ok(named)
}
