// What the programs that answer lines share: the octets of `tables.bin`, and the desk at which they work, that is the lines of standard input
// and what is written to standard output.
#![tactic(auto)]

ghost use Rattle.std.specs.Prelude.{◌≡◌, suc, ◌+◌, ◌≤◌, ◌<◌, length, take};
ghost use Rattle.text_words.specs.Words.{longest};
ghost use Rattle.image.specs.Store.{room as largest};
ghost use Rattle.program_io.specs.Outside.{ReadsSome};
ghost use Rattle.program_io.specs.Lines.{Continues};
ghost use Rattle.program_io.specs.Files.{octets_of, ReadsFile, TablesFile};
ghost use Rattle.program_io.specs.Desk.{Opens, Writes, Reads, Ready, NextLine, Refills, LastLine, most_lines};

use image::ROOM;
use std::io::{ErrorKind, Read, Write};
use std::rt::Files;
use std::{fs, io};

// ---- what failed

// Room for what the system says of an error.
const REASON_ROOM: usize = 320;

// Says on standard error what failed, and why, in the system's words without the error's number.
fn say(rt: &impl Eprint, what: &str, error: io::Error) {
    let mut text = [0u8; REASON_ROOM];
    let mut room = &mut text[..];
    let _ = write!(room, "{error}");
    let len = REASON_ROOM.saturating_sub(room.len());
    let words = str::from_utf8(&text[..len]).unwrap_or("");
    let reason = words.split(" (os error ").next().unwrap_or(words);
    let _ = eprintln!(rt; "{what}: {reason}");
}

// ---- the file

// Room for a file: the largest image and one octet more, by which a longer file shows.
pub const FILE_ROOM: usize = ROOM + 1;

// The front of a file, `len` octets of it.
#[derive(Clone, Copy, PartialEq, Eq, Debug)]
pub struct File {
    pub octets: [u8; FILE_ROOM],
    pub len: usize,
}

// Reads once into the front of `room`: how many octets, none at the end. Where the read fails, there are none, and that is said of `what`.
fn read_some<R: Read>(rt: &impl Eprint, from: &mut R, room: &mut [u8], what: &str) -> usize
    ensures within { result ≤ length room.new }
    ensures reads { ReadsSome (R.remaining from.old) (R.remaining from.new) (length room.old) (take result room.new) }
{
    match from.read(room) {
        Ok(n) => n,
        Err(e) => {
            say(rt, what, e);
            0
        }
    }
}

// Reads an open file to its end, as far as there is room: how many octets it has.
fn read_file<F: Read>(rt: &impl Eprint, file: &mut F, octets: &mut [u8]) -> usize
    ensures within { result ≤ length octets.new }
    ensures reads { ReadsFile (F.remaining file.old) (length octets.old) (take result octets.new) }
{
    let mut len = 0;
    // By hand: a read says how much it reads, so that no range has the places.
    while len < octets.len() {
        let n = read_some(rt, file, &mut octets[len..], "tables.bin");
        if n == 0 {
            break;
        }
        len += n;
    }
    len
}

// Opens `tables.bin`. A file that is there and does not open is said.
pub fn open_tables<R: Files + Eprint>(rt: &R) -> Option<R::File> {
    match fs::open(rt, "tables.bin") {
        Ok(file) => Some(file),
        Err(e) => {
            if e.kind() != ErrorKind::NotFound {
                say(rt, "tables.bin", e);
            }
            None
        }
    }
}

// The octets of `tables.bin`: of one longer than the largest image, as many as that has and one more. A missing file has none; one that is there and
// cannot be read has none either, and that is said.
pub fn load<F: Read + Drop>(rt: &impl Eprint, file: Option<F>) -> File
    ensures file { TablesFile (octets_of F.remaining file) (take result.len result.octets) }
    ensures within { result.len ≤ length result.octets }
    ensures size { length result.octets ≡ largest + 1 }
{
    let mut octets = [0u8; FILE_ROOM];
    match file {
        None => File { octets, len: 0 },
        Some(mut file) => {
            let len = read_file(rt, &mut file, &mut octets);
            File { octets, len }
        }
    }
}

// ---- standard input and standard output

// Octets that are read at once.
pub const PIECE_ROOM: usize = 65536;

// A proved loop has to end, so it counts its reads down, from a number that no run uses up: 2^63 octets.
const MOST_READS: u64 = 140737488355328;

// The desk: the reads that may still be made, none behind the input's end; whether standard output takes what is written; where the rest of the piece
// lies; how many lines are taken; how much is there of a line that is begun; and whether a line was found, and its length.
#[derive(Clone, Copy, PartialEq, Eq, Debug)]
pub struct Desk {
    pub reads: u64,
    pub writable: bool,
    pub at: usize,
    pub end: usize,
    pub number: u64,
    pub begun: usize,
    pub found: bool,
    pub len: usize,
}

// A desk where nothing is read or written yet.
pub fn start() -> Desk
    ensures { Opens result }
{
    Desk {
        reads: MOST_READS,
        writable: true,
        at: 0,
        end: 0,
        number: 0,
        begun: 0,
        found: false,
        len: 0,
    }
}

// Writes a text to standard output. Where it does not take the text, that is said, and nothing is written any more.
pub fn write<W: Write>(rt: &impl Eprint, d: Desk, output: &mut W, text: &[u8]) -> Desk
    ensures { Writes (W.contents output.old) (W.contents output.new) d result text.now }
{
    let mut r = d;
    if !d.writable {
        return r;
    }
    if let Err(e) = output.write_all(text) {
        say(rt, "standard output", e);
        r.writable = false;
    }
    r
}

// Reads the next piece of standard input.
fn read<R: Read>(rt: &impl Eprint, d: Desk, input: &mut R, piece: &mut [u8]) -> Desk
    requires { 0 < d.reads }
    ensures { Reads (R.remaining input.old) (R.remaining input.new) d result piece.new }
{
    let mut r = d;
    r.at = 0;
    r.end = read_some(rt, input, piece, "standard input");
    if r.end == 0 {
        r.reads = 0;
        return r;
    }
    r.reads -= 1;
    r
}

// Reads on where the piece is used up. Where there is nothing more to read, or nobody to write to, it stays used up.
pub fn refill<R: Read>(rt: &impl Eprint, d: Desk, input: &mut R, piece: &mut [u8]) -> Desk
    requires { Ready d piece.old }
    ensures { Refills (R.remaining input.old) (R.remaining input.new) d result piece.old piece.new }
{
    if d.writable {
        if d.at < d.end {
            return d;
        }
        if 0 < d.reads {
            return read(rt, d, input, piece);
        }
    }
    let mut r = d;
    r.at = d.end;
    r
}

// ---- lines

// How much of a line is begun, and where the piece was left: at a newline, or at its end.
#[derive(Clone, Copy, PartialEq, Eq, Debug)]
pub struct Continued {
    pub begun: usize,
    pub end: usize,
}

// Continues the line, of which `begun` octets are there, with those of `piece` from `at` up to a newline or its end.
fn continue_line(line: &mut [u8], begun: usize, piece: &[u8], at: usize) -> Continued
    requires begun { begun ≤ length line.old }
    requires at { at ≤ length piece.now }
    ensures { Continues result line.old line.new begun piece.now at }
{
    let end = text_words::end_of(piece, at, b'\n');
    let n = (end - at).min(line.len() - begun);
    let to = at + n;
    splice::copy_in(line, begun, &piece[at..to]);
    Continued {
        begun: begun + n,
        end,
    }
}

// Takes the next line from the piece as far as the piece has it. Of one that is too long no more is kept than shows it.
pub fn next_line(d: Desk, piece: &[u8], line: &mut [u8]) -> Desk
    requires ready { Ready d piece.now }
    requires some { d.at < d.end }
    requires room { length line.old ≡ suc longest }
    requires begun { d.begun ≤ length line.old }
    ensures { NextLine d result piece.now line.old line.new }
{
    let end = d.end;
    let c = continue_line(line, d.begun, &piece[0..end], d.at);
    let mut r = d;
    if c.end < end {
        r.at = c.end + 1;
        r.number = d.number + 1;
        r.begun = 0;
        r.found = true;
        r.len = c.begun;
        return r;
    }
    r.at = end;
    r.begun = c.begun;
    r.found = false;
    r.len = 0;
    r
}

// At the input's end: what is begun is the last line.
pub fn last_line(d: Desk) -> Desk
    requires { d.number ≤ most_lines }
    ensures { LastLine d result }
{
    let mut r = d;
    r.found = false;
    r.len = 0;
    if 0 < d.begun {
        r.number = d.number + 1;
        r.found = true;
        r.len = d.begun;
    }
    r
}
