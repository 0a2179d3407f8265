// The owner's and the principals' edits of a store. A row is handed in the form of the image, its fields' bytes one after the other, and a key likewise.
#![tactic(auto)]

ghost use Rattle.std.specs.Prelude.{◌≡◌, false};
ghost use Rattle.rows.specs.Fields.{faults, span};
ghost use Rattle.rows.specs.Rows.{key_fields, fields_of};
ghost use Rattle.rows.specs.Steps.{reached};
ghost use Rattle.edit_rules.specs.Edits.{edit_of, shape_of, caller_of};
ghost use Rattle.edit_rows.specs.Promise.{Editable};
ghost use Rattle.edits.specs.Calls.{OwnerEdits, PrincipalEdits, edited_number, prepared};

use answers::{Fault, Refusal};
use edit_rules::Operation;
use image_layout::Layout;
use rows::{Shape, Table};

// The number of an edit's answer.
pub fn edited_number(e: Result<(), Refusal>) -> u32
    ensures { result ≡ edited_number e }
{
    match e {
        Ok(()) => 0,
        Err(Refusal::Barred(c)) => answers::cause_number(c),
        Err(Refusal::Faulty(f)) => answers::fault_number(f),
    }
}

// What an edit is handed, judged: where its key ends.
pub fn judge_handed(o: Operation, t: Table, bytes: &[u8]) -> Result<usize, Fault>
    ensures { result ≡ reached (faults (fields_of (shape_of o) t) bytes.now) (span (key_fields t) bytes.now) }
{
    match edit_rules::shape_of(o) {
        Shape::Row => rows::judge(t, bytes),
        Shape::Key => rows::judge_key(t, bytes),
    }
}

fn prepare(store: &[u8], o: Operation, t: Table, bytes: &[u8]) -> Result<(Layout, usize), Fault>
    ensures { result ≡ prepared store.now o t bytes.now }
{
    let l = image::survey_store(store)?;
    let k = judge_handed(o, t, bytes).or(Err(Fault::OutOfRange))?;
    Ok((l, k))
}

// The owner's edit of a store that is sound, its tables lying so.
pub fn edit_laid(
    store: &mut [u8],
    l: Layout,
    o: Operation,
    t: Table,
    bytes: &[u8],
) -> Result<(), Refusal>
    requires { Editable false t store.old l }
    ensures { OwnerEdits (edit_of o t bytes.now) store.old store.new result }
{
    let k = judge_handed(o, t, bytes).or(Err(Fault::OutOfRange))?;
    edit_rows::edit(store, l, false, o, t, bytes, k)
}

// The owner creates a row, changes the row with its key, or removes the row with a key.
pub fn owner_edit(store: &mut [u8], o: Operation, t: Table, bytes: &[u8]) -> Result<(), Refusal>
    ensures { OwnerEdits (edit_of o t bytes.now) store.old store.new result }
{
    let l = image::survey_store(store)?;
    edit_laid(store, l, o, t, bytes)
}

// The same by a principal, where the tables and the storage let it.
pub fn principal_edit(
    store: &mut [u8],
    security_model: u32,
    security_name: &[u8],
    security_level: u32,
    o: Operation,
    t: Table,
    bytes: &[u8],
) -> Result<(), Refusal>
    ensures { PrincipalEdits (caller_of security_model security_name.now security_level) (edit_of o t bytes.now)
        store.old store.new result }
{
    let (l, k) = prepare(store, o, t, bytes)?;
    if !edit_rules::is_caller(security_model, security_name, security_level) {
        return Err(Refusal::Faulty(Fault::OutOfRange));
    }
    let standing = edit_rights::standing_of(
        store,
        l,
        security_model,
        security_name,
        security_level,
    );
    edit_rights::admit(store, standing, edit_rules::shape_of(o), t, &bytes[0..k])?;
    edit_rows::edit(store, l, true, o, t, bytes, k)
}
