// The program `trycalls`: the calls of standard input, a line each, played on the tables of `tables.bin`, for practice at a desk.
#![tactic(auto)]

ghost use Rattle.std.specs.Prelude.{◌≤◌, length};
ghost use Rattle.program_io.specs.Outside.{outside};
ghost use Rattle.program_io.specs.Files.{octets_of};
ghost use Rattle.call_lines.specs.Lines.{line_room};
ghost use Rattle.trycalls.specs.Runs.{Answers, Serves, Runs};

use call_lines::TOLD_ROOM;
use image::ROOM;
use program_io::{Desk, PIECE_ROOM};
use request_lines::MOST_TOLD;
use std::io::{Read, Write};
use text_words::LONGEST_LINE;

// Plays the line that was found, if one was, and writes its number, its answer and a newline.
fn answer<W: Write>(
    rt: &impl Eprint,
    store: &mut [u8],
    d: Desk,
    line: &[u8],
    out: &mut [u8],
    output: &mut W,
) -> Desk
    requires line { d.len ≤ length line.now }
    requires room { line_room ≤ length out.old }
    ensures { Answers (W.contents output.old) (W.contents output.new) d result line.now store.old store.new }
{
    if !d.found {
        return d;
    }
    let n = d.len;
    let end = call_lines::answer_line(store, d.number, &line[0..n], out);
    program_io::write(rt, d, output, &out[0..end])
}

// Plays the lines of standard input.
fn serve<R: Read, W: Write>(
    rt: &impl Eprint,
    store: &mut [u8],
    input: &mut R,
    output: &mut W,
) -> Desk
    ensures { Serves (outside (R.remaining input.old) (W.contents output.old)) (outside (R.remaining input.new) (W.contents output.new))
        result store.old store.new }
{
    let mut piece = [0u8; PIECE_ROOM];
    let mut line = [0u8; LONGEST_LINE + 1];
    let mut out = [0u8; TOLD_ROOM];
    let mut d = program_io::refill(rt, program_io::start(), input, &mut piece);
    // by hand: the desk says whether anything is left to read
    while d.at < d.end {
        d = program_io::next_line(d, &piece, &mut line);
        d = answer(rt, store, d, &line, &mut out, output);
        d = program_io::refill(rt, d, input, &mut piece);
    }
    d = program_io::last_line(d);
    answer(rt, store, d, &line, &mut out, output)
}

// Reads the tables, and plays the lines, or says what is wrong with the tables.
fn run<F: Read + Drop, R: Read, W: Write>(
    rt: &impl Eprint,
    tables: Option<F>,
    input: &mut R,
    output: &mut W,
) -> Desk
    ensures { Runs (octets_of F.remaining tables) (outside (R.remaining input.old) (W.contents output.old))
        (outside (R.remaining input.new) (W.contents output.new)) result }
{
    let file = program_io::load(rt, tables);
    let octets = file.octets;
    let n = file.len;
    let mut store = [0u8; ROOM];
    match image_transfer::read_image(&octets[0..n], &mut store) {
        Ok(()) => serve(rt, &mut store, input, output),
        Err(f) => {
            let mut out = [0u8; MOST_TOLD];
            let end = request_lines::tell_refusal(&mut out, f);
            program_io::write(rt, program_io::start(), output, &out[0..end])
        }
    }
}

fn main(rt: HostRuntime) {
    let tables = program_io::open_tables(&rt);
    run(&rt, tables, &mut rt.stdin(), &mut rt.stdout());
}
