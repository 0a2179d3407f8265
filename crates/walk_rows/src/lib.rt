// A row beside an identifier, as a walk meets it: whether the row's instance is above the identifier, and whether a view lets it be read. The index is
// compared where the row lies; only an instance that is above is written out.
#![tactic(auto)]

ghost use Rattle.std.specs.Prelude.{◌≡◌, true};
ghost use Rattle.std.proofs.Math.Option.{none};
ghost use Rattle.numbers.specs.Order.{before};
ghost use Rattle.rows.specs.Fields.{faults, span};
ghost use Rattle.rows.specs.Rows.{key_fields, index_of};
ghost use Rattle.decision_steps.specs.Bytes.{Whole};
ghost use Rattle.decision_parts.specs.Parts.{ViewIn, rows_of};
ghost use Rattle.instance_encode.specs.Instances.{lists, instance};
ghost use Rattle.edit_rules.specs.TableRows.{row_of, row_index};
ghost use Rattle.walk_rules.specs.Walk.{is_allowed};
ghost use Rattle.walk_rows.specs.Reading.{readable, readable_row};

use answers::Decision;
use decision::MOST_PARTS;
use decision_parts::NamedView;
use rows::Table;

// Where the key of a whole row ends.
pub fn key_end(t: Table, row: &[u8]) -> usize
    requires { Whole t row.now }
    ensures { result ≡ span (key_fields t) row.now }
{
    match t {
        Table::Context => decision_steps::after(row, 0),
        Table::Mapping => decision_steps::after(row, 4),
        Table::Access => {
            let prefix = decision_steps::after(row, 0);
            decision_steps::after(row, prefix) + 5
        }
        Table::View => {
            let subtree = decision_steps::after(row, 0);
            subtree + 1 + 4 * numbers::wide(row[subtree])
        }
    }
}

fn is_allowed(d: Decision) -> bool
    ensures { result ≡ is_allowed d }
{
    d == Decision::Allowed
}

// Whether the view lets the instance of a column of the row with this key be read.
fn is_readable(w: &[u8], v: NamedView, t: Table, column: u32, key: &[u8]) -> bool
    requires view { ViewIn w.now v }
    requires listed { lists t column ≡ true }
    requires whole { faults (key_fields t) key.now ≡ none }
    ensures { result ≡ readable (rows_of w.now v) (instance t column (index_of t key.now)) }
{
    let mut parts = [0u32; MOST_PARTS];
    let written = instance_encode::encode(t, column, key, &mut parts);
    let Ok(n) = written else {
        return false;
    };
    is_allowed(decision::decide_variable_in(w, v, &parts[0..n]))
}

// Whether the row's index is above the parts.
pub fn is_row_above(t: Table, row: &[u8], parts: &[u32]) -> bool
    requires { Whole t row.now }
    ensures { result ≡ before parts.now (row_index t (row_of t row.now)) }
{
    let n = key_end(t, row);
    let quads = instance_encode::quads_of(t, &row[0..n]);
    walk_compare::is_above(&row[0..n], quads.from, quads.count, parts)
}

// Whether the view lets the instance of a column of the row be read.
pub fn is_row_readable(w: &[u8], v: NamedView, t: Table, column: u32, row: &[u8]) -> bool
    requires view { ViewIn w.now v }
    requires listed { lists t column ≡ true }
    requires whole { Whole t row.now }
    ensures { result ≡ readable_row t column (rows_of w.now v) (row_of t row.now) }
{
    let n = key_end(t, row);
    is_readable(w, v, t, column, &row[0..n])
}
