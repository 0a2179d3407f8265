// A line read as what it asks for, and the calls on a store that its fields hold, made.
#![tactic(auto)]

ghost use Rattle.std.specs.Prelude.{◌≡◌};
ghost use Rattle.calls.specs.Does.{ask};
ghost use Rattle.line_fields.specs.Requests.{request_in};
ghost use Rattle.line_fields.specs.Slots.{Fit};
ghost use Rattle.line_fields.specs.Buffers.{buffers};
ghost use Rattle.call_verbs.specs.declared.Verb.TheVariants.{Decide, Owner, Principal};
ghost use Rattle.call_verbs.specs.Calls.{kinds_of, line_said};
ghost use Rattle.call_verbs.specs.CallSlots.{owner_in, principal_in};
ghost use Rattle.call_words.specs.Reading.{ReadsCall, line_into, Answers, Rooms};

use call_verbs::Verb;
use line_fields::MOST_FIELDS;
use text_rows::Slot;
use text_words::LONGEST_LINE;

// ---- a line read

// What was read of a line: what it asks for, and the slots of its fields.
#[derive(Clone, Copy)]
pub struct Read {
    pub verb: Verb,
    pub slots: [Slot; MOST_FIELDS],
}

// Reads a line; one that is too long, or does not say each field of what its words name, asks for nothing known.
pub fn read_call(line: &[u8], bytes: &mut [u8], parts: &mut [u32]) -> Read
    requires { Rooms bytes.old parts.old }
    ensures reads { ReadsCall result bytes.new parts.new (line_said line.now) }
    ensures lays { buffers bytes.new parts.new ≡ line_into line.now (buffers bytes.old parts.old) }
{
    if LONGEST_LINE < line.len() {
        let slots = line_fields::no_slots();
        return Read {
            verb: Verb::Unknown,
            slots,
        };
    }
    let named = call_verbs::phrase_of(line);
    let verb = named.verb;
    let next = named.next;
    let kinds = call_verbs::kinds_of(verb);
    let fields = line_fields::read(
        kinds,
        call_verbs::field_count(verb),
        line,
        next,
        bytes,
        parts,
    );
    let slots = fields.slots;
    if !fields.whole {
        return Read {
            verb: Verb::Unknown,
            slots,
        };
    }
    Read { verb, slots }
}

// ---- the calls on a store that slots hold, made: the number of the answer

// A decision request.
pub fn decide(store: &[u8], slots: [Slot; MOST_FIELDS], bytes: &[u8], parts: &[u32]) -> u32
    requires { Fit slots (kinds_of Decide) bytes.now parts.now }
    ensures { Answers (ask (request_in slots bytes.now parts.now)) store.now store.now result }
{
    let answer = decision::is_access_allowed(
        store,
        line_fields::number_in(parts, slots[0]),
        line_fields::octets_in(bytes, slots[3]),
        line_fields::number_in(parts, slots[1]),
        line_fields::number_in(parts, slots[2]),
        line_fields::octets_in(bytes, slots[4]),
        line_fields::identifier_in(parts, slots[5]),
    );
    answers::answer_number(answer)
}

// An edit by the owner.
pub fn edit_as_owner(
    store: &mut [u8],
    slots: [Slot; MOST_FIELDS],
    bytes: &[u8],
    parts: &[u32],
) -> u32
    requires { Fit slots (kinds_of Owner) bytes.now parts.now }
    ensures { Answers (owner_in slots bytes.now) store.old store.new result }
{
    let s = slots[0];
    let o = s.operation;
    let t = s.table;
    let edited = edits::owner_edit(store, o, t, line_fields::octets_in(bytes, s));
    edits::edited_number(edited)
}

// An edit by a principal.
pub fn edit_as_principal(
    store: &mut [u8],
    slots: [Slot; MOST_FIELDS],
    bytes: &[u8],
    parts: &[u32],
) -> u32
    requires { Fit slots (kinds_of Principal) bytes.now parts.now }
    ensures { Answers (principal_in slots bytes.now parts.now) store.old store.new result }
{
    let s = slots[3];
    let o = s.operation;
    let t = s.table;
    let edited = edits::principal_edit(
        store,
        line_fields::number_in(parts, slots[0]),
        line_fields::octets_in(bytes, slots[1]),
        line_fields::number_in(parts, slots[2]),
        o,
        t,
        line_fields::octets_in(bytes, s),
    );
    edits::edited_number(edited)
}
