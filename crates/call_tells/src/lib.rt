// What the slots of a line ask to be told: put into `out` from `at` on, and where it ends. No store is changed.
#![tactic(auto)]

ghost use Rattle.std.specs.Prelude.{length};
ghost use Rattle.line_fields.specs.Slots.{slot_in, Within, Fit};
ghost use Rattle.call_verbs.specs.declared.Verb.TheVariants.{Encode, MatchView, MatchAccess};
ghost use Rattle.call_verbs.specs.Calls.{kinds_of};
ghost use Rattle.call_answers.specs.Answers.{Room, Told};
ghost use Rattle.call_tells.specs.Tells.{instance_in, decoded_in, view_match_in, access_match_in};

use line_fields::MOST_FIELDS;
use text_rows::Slot;

// The instance of a column and a key.
pub fn encode(
    slots: [Slot; MOST_FIELDS],
    bytes: &[u8],
    parts: &[u32],
    out: &mut [u8],
    at: usize,
) -> usize
    requires slots { Fit slots (kinds_of Encode) bytes.now parts.now }
    requires room { Room at out.old }
    ensures { Told (instance_in slots bytes.now parts.now) at out.old out.new result }
{
    let key = slots[1];
    let t = key.table;
    let column = line_fields::number_in(parts, slots[0]);
    call_answers::tell_encoded(out, at, t, column, line_fields::octets_in(bytes, key))
}

// What an identifier is the instance of.
pub fn decode(slots: [Slot; MOST_FIELDS], parts: &[u32], out: &mut [u8], at: usize) -> usize
    requires slots { Within (slot_in slots 0) (length parts.now) }
    requires room { Room at out.old }
    ensures { Told (decoded_in slots parts.now) at out.old out.new result }
{
    let oid = line_fields::identifier_in(parts, slots[0]);
    call_answers::tell_decoded(out, at, oid)
}

// The row of a view that decides on a variable.
pub fn match_view(
    store: &[u8],
    slots: [Slot; MOST_FIELDS],
    bytes: &[u8],
    parts: &[u32],
    out: &mut [u8],
    at: usize,
) -> usize
    requires slots { Fit slots (kinds_of MatchView) bytes.now parts.now }
    requires room { Room at out.old }
    ensures { Told (view_match_in store.now slots bytes.now parts.now) at out.old out.new result }
{
    let name = line_fields::octets_in(bytes, slots[0]);
    let variable = line_fields::identifier_in(parts, slots[1]);
    call_matches::tell_view_match(out, at, store, name, variable)
}

// The access row that is chosen for a group, a context, a model and a level.
pub fn match_access(
    store: &[u8],
    slots: [Slot; MOST_FIELDS],
    bytes: &[u8],
    parts: &[u32],
    out: &mut [u8],
    at: usize,
) -> usize
    requires slots { Fit slots (kinds_of MatchAccess) bytes.now parts.now }
    requires room { Room at out.old }
    ensures { Told (access_match_in store.now slots bytes.now parts.now) at out.old out.new result }
{
    let group = line_fields::octets_in(bytes, slots[0]);
    let context = line_fields::octets_in(bytes, slots[1]);
    let model = line_fields::number_in(parts, slots[2]);
    let level = line_fields::number_in(parts, slots[3]);
    call_matches::tell_access_match(out, at, store, group, context, model, level)
}
