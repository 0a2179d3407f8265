// An answer explained, told: its number, and each row that is shown in the words of a line that puts it.
#![tactic(auto)]

ghost use Rattle.std.specs.Prelude.{◌+◌, ◌≤◌, length};
ghost use Rattle.rows.specs.declared.Table.TheVariants.{Mapping, Access, View};
ghost use Rattle.image.specs.Store.{held};
ghost use Rattle.decision_steps.specs.Request.{asked};
ghost use Rattle.explain_rules.specs.Explanation.{rooms_of, explanation};
ghost use Rattle.text_values.specs.Texts.{Puts};
ghost use Rattle.line_fields.specs.Requests.{request_in};
ghost use Rattle.line_fields.specs.Slots.{Fit};
ghost use Rattle.call_verbs.specs.declared.Verb.TheVariants.{Explain};
ghost use Rattle.call_verbs.specs.Calls.{kinds_of};
ghost use Rattle.call_answers.specs.Answers.{Room, Told};
ghost use Rattle.call_explains.specs.Texts.{shown_text, explanation_text, fields_in, WholeIn, handed_text};

use explain_rules::Explained;
use line_fields::MOST_FIELDS;
use rows::{ROW_MAX, Shape, Table};
use text_rows::Slot;

// Each function puts its text into `out` from `at` on, and answers where it ends.

// A row that is shown, behind a space: it lies whole at the front of `room`.
fn put_shown(out: &mut [u8], at: usize, t: Table, shown: Option<usize>, room: &[u8]) -> usize
    requires whole { WholeIn t shown room.now }
    requires room { at + length (shown_text t (fields_in t shown room.now)) ≤ length out.old }
    ensures { Puts (shown_text t (fields_in t shown room.now)) at out.old out.new result }
{
    let Some(n) = shown else {
        return at;
    };
    let next = text_values::put_octet(out, at, b' ');
    text_rows::put_entry(out, next, Shape::Row, t, &room[0..n])
}

// Tells what a call handed back: the answer by its number, and the rows.
fn tell_handed(
    out: &mut [u8],
    at: usize,
    e: Explained,
    mapping: &[u8; ROW_MAX],
    access: &[u8; ROW_MAX],
    view: &[u8; ROW_MAX],
) -> usize
    requires mapping { WholeIn Mapping e.mapping mapping.now }
    requires access { WholeIn Access e.access access.now }
    requires view { WholeIn View e.view view.now }
    requires room { Room at out.old }
    ensures { Told (handed_text e (rooms_of mapping.now access.now view.now)) at
        out.old out.new result }
{
    let answer = e.answer;
    let mapping_shown = e.mapping;
    let access_shown = e.access;
    let view_shown = e.view;
    let first = text_values::put_decimal(out, at, answers::answer_number(answer) as u64);
    let second = put_shown(out, first, Table::Mapping, mapping_shown, &mapping[..]);
    let third = put_shown(out, second, Table::Access, access_shown, &access[..]);
    put_shown(out, third, Table::View, view_shown, &view[..])
}

// Tells the answer to a request and the rows behind it.
fn tell_explanation(
    out: &mut [u8],
    at: usize,
    store: &[u8],
    security_model: u32,
    security_name: &[u8],
    security_level: u32,
    view_type: u32,
    context_name: &[u8],
    variable_name: &[u32],
) -> usize
    requires { Room at out.old }
    ensures { Told (explanation_text (explanation (held store.now)
        (asked security_model security_name.now security_level view_type context_name.now variable_name.now)))
        at out.old out.new result }
{
    let mut mapping = [0u8; ROW_MAX];
    let mut access = [0u8; ROW_MAX];
    let mut view = [0u8; ROW_MAX];
    let explained = explain::explain(
        store,
        security_model,
        security_name,
        security_level,
        view_type,
        context_name,
        variable_name,
        &mut mapping,
        &mut access,
        &mut view,
    );
    tell_handed(out, at, explained, &mapping, &access, &view)
}

// The same, of the request that the slots of a line hold.
pub fn explain(
    store: &[u8],
    slots: [Slot; MOST_FIELDS],
    bytes: &[u8],
    parts: &[u32],
    out: &mut [u8],
    at: usize,
) -> usize
    requires slots { Fit slots (kinds_of Explain) bytes.now parts.now }
    requires room { Room at out.old }
    ensures { Told (explanation_text (explanation (held store.now) (request_in slots bytes.now parts.now))) at
        out.old out.new result }
{
    let model = line_fields::number_in(parts, slots[0]);
    let level = line_fields::number_in(parts, slots[1]);
    let view_type = line_fields::number_in(parts, slots[2]);
    let name = line_fields::octets_in(bytes, slots[3]);
    let context = line_fields::octets_in(bytes, slots[4]);
    let variable = line_fields::identifier_in(parts, slots[5]);
    tell_explanation(
        out, at, store, model, name, level, view_type, context, variable,
    )
}
