// Lines that say requests, and what is written for them: a line's number and its answer. Document 01's program `tryreq` reads them.
#![tactic(auto)]

ghost use Rattle.std.specs.Prelude.{◌≡◌, ◌+◌, ◌≤◌, length};
ghost use Rattle.std.proofs.Math.Option.{some};
ghost use Rattle.answers.specs.Numbers.{fault_number};
ghost use Rattle.image_judge.specs.Faults.{SoundLayout, tables_at};
ghost use Rattle.line_fields.specs.Requests.{request_kinds, request_in};
ghost use Rattle.line_fields.specs.Slots.{Fit};
ghost use Rattle.request_lines.specs.Answers.{request_answer, line_answer};
ghost use Rattle.text_values.specs.Texts.{Puts};
ghost use Rattle.request_lines.specs.Report.{most_told, told};

use answers::Fault;
use image_layout::Layout;
use line_fields::{LINE_ROOM, MOST_FIELDS, REQUEST_FIELDS};
use text_rows::Slot;
use text_words::LONGEST_LINE;

// ---- the answer

// What a line is answered that says no request.
pub const MALFORMED: u32 = 7;

// The answer to the request that slots hold.
fn answer_fields(
    image: &[u8],
    l: Layout,
    slots: [Slot; MOST_FIELDS],
    bytes: &[u8],
    parts: &[u32],
) -> u32
    requires sound { SoundLayout image.now l }
    requires slots { Fit slots request_kinds bytes.now parts.now }
    ensures { result ≡ request_answer (tables_at image.now l) (some (request_in slots bytes.now parts.now)) }
{
    let answer = decision::answer_request(
        image,
        l,
        line_fields::number_in(parts, slots[0]),
        line_fields::octets_in(bytes, slots[3]),
        line_fields::number_in(parts, slots[1]),
        line_fields::number_in(parts, slots[2]),
        line_fields::octets_in(bytes, slots[4]),
        line_fields::identifier_in(parts, slots[5]),
    );
    answers::answer_number(answer)
}

// The answer to a line.
pub fn answer_line(image: &[u8], l: Layout, line: &[u8]) -> u32
    requires { SoundLayout image.now l }
    ensures { result ≡ line_answer (tables_at image.now l) line.now }
{
    if LONGEST_LINE < line.len() {
        return MALFORMED;
    }
    let mut bytes = [0u8; LINE_ROOM];
    let mut parts = [0u32; LINE_ROOM];
    let kinds = line_fields::request_kinds();
    let fields = line_fields::read(kinds, REQUEST_FIELDS, line, 0, &mut bytes, &mut parts);
    if !fields.whole {
        return MALFORMED;
    }
    let slots = fields.slots;
    answer_fields(image, l, slots, &bytes, &parts)
}

// ---- what is written

// A line's number and its answer take at most this many octets: 20 digits each, a space, a newline.
pub const MOST_TOLD: usize = 42;

// Writes a line's number and its answer from `at` on: where they end.
pub fn tell(out: &mut [u8], at: usize, number: u64, answer: u32) -> usize
    requires { at + most_told ≤ length out.old }
    ensures tells { Puts (told number answer) at out.old out.new result }
    ensures within { result ≤ at + most_told }
{
    let space = text_values::put_decimal(out, at, number);
    let behind = text_values::put_octet(out, space, b' ');
    let newline = text_values::put_decimal(out, behind, answer as u64);
    text_values::put_octet(out, newline, b'\n')
}

// Writes what is told of a refused image, 0 and its number: where it ends.
pub fn tell_refusal(out: &mut [u8], fault: Fault) -> usize
    requires { most_told ≤ length out.old }
    ensures tells { Puts (told 0 (fault_number fault)) 0 out.old out.new result }
    ensures within { result ≤ most_told }
{
    tell(out, 0, 0, answers::fault_number(fault))
}
