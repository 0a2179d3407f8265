// A walk over the tables, told: the next instance that a principal may read, or the number of the refusal.
#![tactic(auto)]

ghost use Rattle.std.specs.Prelude.{◌≡◌, ◌≤◌, length, take};
ghost use Rattle.std.proofs.Math.Option.{none};
ghost use Rattle.rows.specs.Fields.{faults};
ghost use Rattle.rows.specs.Rows.{key_fields};
ghost use Rattle.edit_rules.specs.Edits.{caller_of};
ghost use Rattle.line_fields.specs.Slots.{slot_in, part_in, Fit};
ghost use Rattle.call_verbs.specs.declared.Verb.TheVariants.{Walk};
ghost use Rattle.call_verbs.specs.Calls.{kinds_of};
ghost use Rattle.call_verbs.specs.CallSlots.{caller_in};
ghost use Rattle.call_answers.specs.Answers.{Room, Told};
ghost use Rattle.call_walks.specs.Texts.{next_text, TellsWalk};

use decision::MOST_PARTS;
use line_fields::MOST_FIELDS;
use rows::{KEY_MAX, Table};
use text_rows::Slot;
use walk_rules::Walked;

// Each function puts its text into `out` from `at` on, and answers where it ends.

// Tells an instance: its identifier of n parts, its column and its key, whose bytes are whole.
fn tell_next(
    out: &mut [u8],
    at: usize,
    instance: &[u32; MOST_PARTS],
    n: usize,
    t: Table,
    column: u32,
    key: &[u8],
) -> usize
    requires inside { n ≤ length instance.now }
    requires legal { faults (key_fields t) key.now ≡ none }
    requires room { Room at out.old }
    ensures { Told (next_text (take n instance.now) t column key.now) at out.old out.new result }
{
    let parts = &instance[..];
    let dotted = text_values::put_text(out, at, b"next ");
    let space = text_values::put_dotted(out, dotted, &parts[0..n]);
    let next = text_values::put_octet(out, space, b' ');
    call_answers::put_column_key(out, next, t, column, key)
}

// Tells the next instance behind an identifier that the principal may read.
fn tell_walk(
    out: &mut [u8],
    at: usize,
    store: &[u8],
    security_model: u32,
    security_name: &[u8],
    security_level: u32,
    identifier: &[u32],
) -> usize
    requires { Room at out.old }
    ensures { TellsWalk (caller_of security_model security_name.now security_level) identifier.now store.now at
        out.old out.new result }
{
    let mut instance = [0u32; MOST_PARTS];
    let mut key = [0u8; KEY_MAX];
    let walked = walk::walk(
        store,
        security_model,
        security_name,
        security_level,
        identifier,
        &mut instance,
        &mut key,
    );
    let Walked::Next(n, t, column, m) = walked else {
        return text_values::put_decimal(out, at, walk_rules::walked_number(walked) as u64);
    };
    tell_next(out, at, &instance, n, t, column, &key[0..m])
}

// The same, of the caller and the identifier that the slots of a line hold.
pub fn walk(
    store: &[u8],
    slots: [Slot; MOST_FIELDS],
    bytes: &[u8],
    parts: &[u32],
    out: &mut [u8],
    at: usize,
) -> usize
    requires slots { Fit slots (kinds_of Walk) bytes.now parts.now }
    requires room { Room at out.old }
    ensures { TellsWalk (caller_in slots bytes.now parts.now) (part_in (slot_in slots 3) parts.now) store.now at
        out.old out.new result }
{
    let model = line_fields::number_in(parts, slots[0]);
    let name = line_fields::octets_in(bytes, slots[1]);
    let level = line_fields::number_in(parts, slots[2]);
    let identifier = line_fields::identifier_in(parts, slots[3]);
    tell_walk(out, at, store, model, name, level, identifier)
}
