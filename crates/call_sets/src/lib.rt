// The set of edits that a line says, made on a store by its principal, and the answer told.
#![tactic(auto)]

ghost use Rattle.std.proofs.Math.Option.{some};
ghost use Rattle.std.specs.Prelude.{suc, ◌≤◌, length};
ghost use Rattle.edit_rules.specs.Edits.{caller_of};
ghost use Rattle.set_rules.specs.Handed.{edits_of};
ghost use Rattle.calls.specs.Does.{by_set};
ghost use Rattle.text_words.specs.Words.{longest, words_from};
ghost use Rattle.call_verbs.specs.Calls.{calls};
ghost use Rattle.set_words.specs.SetWords.{set_said};
ghost use Rattle.call_answers.specs.Answers.{Room, Told};
ghost use Rattle.call_plays.specs.Plays.{position_text, PutsPlay};

use answers::Fault;
use line_fields::LINE_ROOM;
use set_rules::EditSet;

// Each function puts its text into `out` from `to` on, and answers where it ends.

// Tells an answer's number and the position that it carries.
fn tell_position(number: u32, position: usize, out: &mut [u8], to: usize) -> usize
    requires { Room to out.old }
    ensures { Told (position_text number position) to out.old out.new result }
{
    let space = text_values::put_decimal(out, to, number as u64);
    let next = text_values::put_octet(out, space, b' ');
    text_values::put_decimal(out, next, position as u64)
}

// Makes a principal's set of edits, and tells its answer.
fn make(
    store: &mut [u8],
    security_model: u32,
    security_name: &[u8],
    security_level: u32,
    set: EditSet,
    bytes: &[u8],
    out: &mut [u8],
    to: usize,
) -> usize
    requires { Room to out.old }
    ensures { PutsPlay
        (some (calls (by_set (caller_of security_model security_name.now security_level) (edits_of set bytes.now))))
        store.old store.new to out.old out.new result }
{
    let made = edit_sets::principal_set(
        store,
        security_model,
        security_name,
        security_level,
        set,
        bytes,
    );
    let answer = made.answer;
    tell_position(edits::edited_number(answer), made.position, out, to)
}

// Plays the set that the words of a line from the one that begins at `at` on say.
pub fn play(store: &mut [u8], line: &[u8], at: usize, out: &mut [u8], to: usize) -> usize
    requires short { length line.now ≤ longest }
    requires place { at ≤ suc (length line.now) }
    requires room { Room to out.old }
    ensures { PutsPlay (set_said (words_from at line.now)) store.old store.new to
        out.old out.new result }
{
    let mut bytes = [0u8; LINE_ROOM];
    let mut parts = [0u32; LINE_ROOM];
    let Some(caller) = set_words::read_caller(line, at, &mut bytes, &mut parts) else {
        return call_answers::tell_fault(out, to, Fault::OutOfRange);
    };
    let model = caller.model;
    let level = caller.level;
    let read = set_words::read_edits(line, caller.next, &mut bytes, &mut parts);
    if read.whole {
        let set = read.set;
        let name = line_fields::octets_in(&bytes, caller.name);
        return make(store, model, name, level, set, &bytes, out, to);
    }
    call_answers::tell_fault(out, to, Fault::OutOfRange)
}
