// Document 01's program `tryreq`: the requests of standard input, a line each, answered on the tables of the file `tables.bin`.
#![tactic(auto)]

ghost use Rattle.std.specs.Prelude.{◌≡◌, ◌+◌, ◌≤◌, length};
ghost use Rattle.image_judge.specs.Faults.{SoundLayout, tables_at};
ghost use Rattle.program_io.specs.Outside.{outside};
ghost use Rattle.program_io.specs.Files.{octets_of};
ghost use Rattle.program_io.specs.Desk.{piece_room};
ghost use Rattle.request_lines.specs.Report.{most_told};
ghost use Rattle.tryreq.specs.Runs.{Answers, Due, Reports, Runs};

use image_layout::Layout;
use program_io::{Desk, PIECE_ROOM};
use request_lines::MOST_TOLD;
use std::io::{Read, Write};
use text_words::LONGEST_LINE;

// Tells the answer to the line that was found, if one was, behind what is told already: how much is told then.
fn answer(image: &[u8], l: Layout, d: Desk, line: &[u8], out: &mut [u8], used: usize) -> usize
    requires sound { SoundLayout image.now l }
    requires line { d.len ≤ length line.now }
    requires room { used + most_told ≤ length out.old }
    ensures { Answers (tables_at image.now l) d line.now out.old out.new used result }
{
    if !d.found {
        return used;
    }
    let n = d.len;
    let answer = request_lines::answer_line(image, l, &line[0..n]);
    request_lines::tell(out, used, d.number, answer)
}

// How much of what is told is to be written now: all, where the piece is used up and it may be waited for more, or where there is no room for another
// answer, and else none.
fn due(d: Desk, used: usize) -> usize
    requires { used ≤ piece_room }
    ensures { Due used result }
{
    if d.at == d.end {
        return used;
    }
    if PIECE_ROOM - used < MOST_TOLD {
        return used;
    }
    0
}

// Answers the lines of standard input.
fn serve<R: Read, W: Write>(
    rt: &impl Eprint,
    image: &[u8],
    l: Layout,
    input: &mut R,
    output: &mut W,
) -> Desk
    requires { SoundLayout image.now l }
    ensures { Reports (tables_at image.now l) (outside (R.remaining input.old) (W.contents output.old))
        (outside (R.remaining input.new) (W.contents output.new)) result }
{
    let mut piece = [0u8; PIECE_ROOM];
    let mut line = [0u8; LONGEST_LINE + 1];
    let mut out = [0u8; PIECE_ROOM];
    let mut used = 0;
    let mut d = program_io::refill(rt, program_io::start(), input, &mut piece);
    // by hand: the desk says whether anything is left to read
    while d.at < d.end {
        d = program_io::next_line(d, &piece, &mut line);
        used = answer(image, l, d, &line, &mut out, used);
        let n = due(d, used);
        d = program_io::write(rt, d, output, &out[0..n]);
        used -= n;
        d = program_io::refill(rt, d, input, &mut piece);
    }
    d = program_io::last_line(d);
    used = answer(image, l, d, &line, &mut out, used);
    program_io::write(rt, d, output, &out[0..used])
}

// Reads the tables, and answers the lines, or says what is wrong with the tables.
fn run<F: Read + Drop, R: Read, W: Write>(
    rt: &impl Eprint,
    tables: Option<F>,
    input: &mut R,
    output: &mut W,
) -> Desk
    ensures { Runs (octets_of F.remaining tables) (outside (R.remaining input.old) (W.contents output.old))
        (outside (R.remaining input.new) (W.contents output.new)) result }
{
    let file = program_io::load(rt, tables);
    let octets = file.octets;
    let n = file.len;
    match image::survey_image(&octets[0..n]) {
        Ok(l) => serve(rt, &octets[0..n], l, input, output),
        Err(f) => {
            let mut out = [0u8; MOST_TOLD];
            let end = request_lines::tell_refusal(&mut out, f);
            program_io::write(rt, program_io::start(), output, &out[0..end])
        }
    }
}

fn main(rt: HostRuntime) {
    let tables = program_io::open_tables(&rt);
    run(&rt, tables, &mut rt.stdin(), &mut rt.stdout());
}
