// The edit of a sound store by a row or key that is legal: answered at the place of the key, and made there.
#![tactic(auto)]

ghost use Rattle.std.specs.Prelude.{◌≡◌, true, false};
ghost use Rattle.rows.specs.Rows.{limit};
ghost use Rattle.image_judge.specs.Faults.{tables_at};
ghost use Rattle.edit_rules.specs.Edits.{edit as Edits·edit, edit_of, shape_of, faulted, presence_fault, row_fault};
ghost use Rattle.edit_rules.specs.Storage.{storage_in, storage_at, StorageKnown, place_fault, full_at};
ghost use Rattle.edit_rows.specs.Promise.{Edits, Editable, Handed, length_in};

use answers::{Fault, Refusal};
use edit_rules::Operation;
use image_layout::Layout;
use rows::{Shape, Table};
use table_update::Place;

// A row is created where none is held, and changed or removed where one is.
fn judge_presence(o: Operation, present: bool) -> Result<(), Refusal>
    ensures { result ≡ faulted (presence_fault o present) }
{
    match (edit_rules::is_create(o), present) {
        (true, true) => Err(Refusal::Faulty(Fault::RowHeld)),
        (false, false) => Err(Refusal::Faulty(Fault::RowAbsent)),
        _ => Ok(()),
    }
}

// What stands against an edit at the place of its key, if anything does. Strict: by a principal, to whom the storage rules apply.
pub fn judge_place(
    w: &[u8],
    strict: bool,
    o: Operation,
    p: Place,
    bytes: &[u8],
) -> Result<(), Refusal>
    requires { strict ≡ true → StorageKnown (shape_of o) w.now p bytes.now }
    ensures { result ≡ faulted (place_fault strict o p.present (storage_at w.now p) (storage_in bytes.now)) }
{
    judge_presence(o, p.present)?;
    if strict && !edit_storage::may_edit(w, edit_rules::shape_of(o), p, bytes) {
        return Err(Refusal::Faulty(Fault::StorageForbids));
    }
    Ok(())
}

// What stands against the edit of a row of a table by bytes, of which the first `key` are its key, if anything but room does.
pub fn judge(
    w: &[u8],
    l: Layout,
    strict: bool,
    o: Operation,
    t: Table,
    bytes: &[u8],
    key: usize,
) -> Result<(), Refusal>
    requires store { Editable strict t w.now l }
    requires handed { Handed (shape_of o) t bytes.now key }
    ensures { result ≡ faulted (row_fault strict (tables_at w.now l) (edit_of o t bytes.now)) }
{
    let x = table_update::extent_of(l, t);
    let p = table_update::seek(w, x, &bytes[0..key]);
    judge_place(w, strict, o, p, bytes)
}

// Whether an edit would bring a further row into a table that has as many as it may.
pub fn is_full(o: Operation, t: Table, count: usize) -> bool
    ensures { result ≡ full_at o (limit t) count }
{
    edit_rules::is_create(o) && rows::limit(t) <= count
}

fn length_in(s: Shape, n: usize) -> usize
    ensures { result ≡ length_in s n }
{
    match s {
        Shape::Row => n,
        Shape::Key => 0,
    }
}

// The edit of a row of a table by bytes, of which the first `key` are its key.
pub fn edit(
    w: &mut [u8],
    l: Layout,
    strict: bool,
    o: Operation,
    t: Table,
    bytes: &[u8],
    key: usize,
) -> Result<(), Refusal>
    requires store { Editable strict t w.old l }
    requires handed { Handed (shape_of o) t bytes.now key }
    ensures { Edits (λ rows. Edits·edit strict rows (edit_of o t bytes.now)) w.old w.new result }
{
    let x = table_update::extent_of(l, t);
    let p = table_update::seek(w, x, &bytes[0..key]);
    judge_place(w, strict, o, p, bytes)?;
    if is_full(o, t, x.count) {
        return Err(Refusal::Faulty(Fault::TableFull));
    }
    let end = image_layout::end_of(w, l.views);
    let n = length_in(edit_rules::shape_of(o), bytes.len());
    table_update::exchange(w, t, x, p, end, &bytes[0..n]);
    Ok(())
}
