// The call that a line says, played on a store, and its answer told. The program `trycalls` plays lists of calls so.
#![tactic(auto)]

ghost use Rattle.std.specs.Prelude.{◌≤◌, length};
ghost use Rattle.call_verbs.specs.Calls.{line_said};
ghost use Rattle.call_answers.specs.Answers.{Room};
ghost use Rattle.call_plays.specs.Plays.{PutsPlay};
ghost use Rattle.call_lines.specs.Lines.{line_asks, line_room, PutsLine};

use call_answers::ANSWER_ROOM;
use line_fields::LINE_ROOM;

// Room for what is told of a line: its number of 20 digits at most, a space, the answer, a newline.
pub const TOLD_ROOM: usize = ANSWER_ROOM + 22;

// Each plays a line on a store: the answer's text in `out` from `at` on, and where it ends.

// What the words in front name.
fn play_named(store: &mut [u8], line: &[u8], out: &mut [u8], at: usize) -> usize
    requires { Room at out.old }
    ensures { PutsPlay (line_said line.now) store.old store.new at out.old out.new result }
{
    let mut bytes = [0u8; LINE_ROOM];
    let mut parts = [0u32; LINE_ROOM];
    let read = call_words::read_call(line, &mut bytes, &mut parts);
    let verb = read.verb;
    let slots = read.slots;
    call_plays::play_call(store, verb, slots, &bytes, &parts, out, at)
}

// A set of edits, or what the words in front name.
pub fn play(store: &mut [u8], line: &[u8], out: &mut [u8], at: usize) -> usize
    requires { Room at out.old }
    ensures { PutsPlay (line_asks line.now) store.old store.new at out.old out.new result }
{
    let Some(end) = set_words::set_end(line) else {
        return play_named(store, line, out, at);
    };
    call_sets::play(store, line, end + 1, out, at)
}

// ---- what is printed

// For the line of that number: the number, the answer, a newline.
pub fn answer_line(store: &mut [u8], number: u64, line: &[u8], out: &mut [u8]) -> usize
    requires { line_room ≤ length out.old }
    ensures { PutsLine (line_asks line.now) number store.old store.new out.old out.new result }
{
    let space = text_values::put_decimal(out, 0, number);
    let from = text_values::put_octet(out, space, b' ');
    let newline = play(store, line, out, from);
    text_values::put_octet(out, newline, b'\n')
}
