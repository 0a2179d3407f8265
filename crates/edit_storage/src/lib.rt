// What the storage of a row lets a principal do with it.
#![tactic(auto)]

ghost use Rattle.std.specs.Prelude.{◌≡◌, ◌≤◌, length};
ghost use Rattle.std.proofs.Math.Option.{some};
ghost use Rattle.edit_rules.specs.Edits.{is_fixed, may_put};
ghost use Rattle.edit_rules.specs.Storage.{storage_in, StorageIn, storage_at, StorageKnown, may_edit};

use rows::{PERMANENT, READ_ONLY, Shape, VOLATILE};
use table_update::Place;

fn is_fixed(storage: u8) -> bool
    ensures { result ≡ is_fixed storage }
{
    matches!(storage, PERMANENT | READ_ONLY)
}

// A mapping, access or view row has its storage in its last octet but one.
fn storage(row: &[u8]) -> u8
    requires { 2 ≤ length row.now }
    ensures { result ≡ storage_in row.now }
{
    row[row.len() - 2]
}

// Where no row is held, nothing is forbidden that a volatile row would allow.
fn held_storage(w: &[u8], p: Place) -> u8
    requires { StorageIn w.now p }
    ensures { result ≡ storage_at w.now p }
{
    if p.present {
        storage(&w[p.from..p.end])
    } else {
        VOLATILE
    }
}

// A row of storage `old` may give way to one of storage `new`.
#[tactic(auto, unfolding(edit_rules::specs::Edits::may_put))]
fn may_replace(old: u8, new: u8) -> bool
    ensures { result ≡ may_put (some old) new }
{
    match old {
        READ_ONLY => false,
        PERMANENT => new == PERMANENT,
        _ => !is_fixed(new),
    }
}

// The storage of the row held, and of the row put, lets a principal make the edit.
#[tactic(auto, unfolding(edit_rules::specs::Edits::may_remove))]
pub fn may_edit(w: &[u8], s: Shape, p: Place, bytes: &[u8]) -> bool
    requires { StorageKnown s w.now p bytes.now }
    ensures { result ≡ may_edit s (storage_at w.now p) (storage_in bytes.now) }
{
    let old = held_storage(w, p);
    match s {
        Shape::Row => may_replace(old, storage(bytes)),
        Shape::Key => !is_fixed(old),
    }
}
