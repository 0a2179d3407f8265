// What the slots of a line hold, played on a store, and its answer told.
#![tactic(auto)]

ghost use Rattle.line_fields.specs.Slots.{Fit};
ghost use Rattle.call_verbs.specs.Calls.{kinds_of};
ghost use Rattle.call_verbs.specs.CallSlots.{asked_in};
ghost use Rattle.call_answers.specs.Answers.{Room};
ghost use Rattle.call_plays.specs.Plays.{PutsPlay};

use answers::Fault;
use call_verbs::Verb;
use line_fields::MOST_FIELDS;
use text_rows::Slot;

// Plays what slots hold on a store.
pub fn play_call(
    store: &mut [u8],
    verb: Verb,
    slots: [Slot; MOST_FIELDS],
    bytes: &[u8],
    parts: &[u32],
    out: &mut [u8],
    at: usize,
) -> usize
    requires slots { Fit slots (kinds_of verb) bytes.now parts.now }
    requires room { Room at out.old }
    ensures { PutsPlay (asked_in verb slots bytes.now parts.now) store.old store.new at
        out.old out.new result }
{
    match verb {
        Verb::Decide => {
            let number = call_words::decide(store, slots, bytes, parts);
            text_values::put_decimal(out, at, number as u64)
        }
        Verb::Owner => {
            let number = call_words::edit_as_owner(store, slots, bytes, parts);
            text_values::put_decimal(out, at, number as u64)
        }
        Verb::Principal => {
            let number = call_words::edit_as_principal(store, slots, bytes, parts);
            text_values::put_decimal(out, at, number as u64)
        }
        Verb::Encode => call_tells::encode(slots, bytes, parts, out, at),
        Verb::Decode => call_tells::decode(slots, parts, out, at),
        Verb::Image => call_answers::tell_image(out, at, store),
        Verb::MatchView => call_tells::match_view(store, slots, bytes, parts, out, at),
        Verb::MatchAccess => call_tells::match_access(store, slots, bytes, parts, out, at),
        Verb::Walk => call_walks::walk(store, slots, bytes, parts, out, at),
        Verb::Explain => call_explains::explain(store, slots, bytes, parts, out, at),
        Verb::Unknown => call_answers::tell_fault(out, at, Fault::OutOfRange),
    }
}
