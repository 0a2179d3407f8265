// The rows that decide, told: which row of a view decides on a variable, and which access row is chosen for a group.
#![tactic(auto)]

ghost use Rattle.std.specs.Prelude.{◌≡◌};
ghost use Rattle.std.proofs.Math.Option.{none};
ghost use Rattle.rows.specs.declared.Table.TheVariants.{View};
ghost use Rattle.rows.specs.Fields.{faults, values};
ghost use Rattle.rows.specs.Rows.{key_fields};
ghost use Rattle.image.specs.Store.{held};
ghost use Rattle.decision_match.specs.Matches.{view_choice, access_choice};
ghost use Rattle.text_rows.specs.RowText.{key_text};
ghost use Rattle.call_answers.specs.Answers.{Room, Told};
ghost use Rattle.call_matches.specs.Texts.{none_text, typed_text, view_match_text, access_match_text};

use rows::{KEY_MAX, Shape, Table};

// Each function puts its text into `out` from `at` on, and answers where it ends.

// Tells that there is no such row.
fn tell_none(out: &mut [u8], at: usize) -> usize
    requires { Room at out.old }
    ensures { Told none_text at out.old out.new result }
{
    text_values::put_text(out, at, b"none")
}

// Tells a key, whose bytes are whole.
fn tell_key(out: &mut [u8], at: usize, t: Table, key: &[u8]) -> usize
    requires legal { faults (key_fields t) key.now ≡ none }
    requires room { Room at out.old }
    ensures { Told (key_text t (values (key_fields t) key.now)) at out.old out.new result }
{
    text_rows::put_entry(out, at, Shape::Key, t, key)
}

// Tells the key of a view row, whose bytes are whole, and the row's type.
fn tell_typed(out: &mut [u8], at: usize, key: &[u8], family_type: u8) -> usize
    requires legal { faults (key_fields View) key.now ≡ none }
    requires room { Room at out.old }
    ensures { Told (typed_text (values (key_fields View) key.now) family_type) at out.old out.new result }
{
    let space = text_rows::put_entry(out, at, Shape::Key, Table::View, key);
    let next = text_values::put_octet(out, space, b' ');
    text_values::put_decimal(out, next, family_type as u64)
}

// Tells which row of a view decides on the variable: its key and its type.
pub fn tell_view_match(
    out: &mut [u8],
    at: usize,
    store: &[u8],
    view_name: &[u8],
    variable_name: &[u32],
) -> usize
    requires { Room at out.old }
    ensures { Told (view_match_text (view_choice (held store.now) view_name.now variable_name.now)) at
        out.old out.new result }
{
    let mut key = [0u8; KEY_MAX];
    let matched = decision_match::match_view(store, view_name, variable_name, &mut key);
    match matched {
        Ok(Some((n, family_type))) => tell_typed(out, at, &key[0..n], family_type),
        Ok(None) => tell_none(out, at),
        Err(f) => call_answers::tell_fault(out, at, f),
    }
}

// Tells which access row is chosen for the group, the context, the model and the level: its key.
pub fn tell_access_match(
    out: &mut [u8],
    at: usize,
    store: &[u8],
    group_name: &[u8],
    context_name: &[u8],
    security_model: u32,
    security_level: u32,
) -> usize
    requires { Room at out.old }
    ensures { Told
        (access_match_text (access_choice (held store.now) group_name.now context_name.now security_model security_level))
        at out.old out.new result }
{
    let mut key = [0u8; KEY_MAX];
    let matched = decision_match::match_access(
        store,
        group_name,
        context_name,
        security_model,
        security_level,
        &mut key,
    );
    match matched {
        Ok(Some(n)) => tell_key(out, at, Table::Access, &key[0..n]),
        Ok(None) => tell_none(out, at),
        Err(f) => call_answers::tell_fault(out, at, f),
    }
}
