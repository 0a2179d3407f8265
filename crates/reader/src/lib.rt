// A reader over lent sub-identifiers that knows its place. By document 01's form its steps are thin: each leaves the work to a function on the slice and
// the place. `read_from` stands above it, for callers that hold no reader. Its functions are free, and no methods: the promises name `reader::next`.
#![tactic(auto)]

ghost use Rattle.std.specs.Prelude.{◌≡◌, ◌-◌, length};
ghost use Rattle.reader.specs.Reading.{step_at, reader_at, ReadsOn, read_from};

#[derive(Clone, Copy, PartialEq, Eq, Debug)]
pub struct Reader<'a> {
    pub parts: &'a [u32],
    pub at: usize,
}

// The part at a place, and the place behind it; at the end there is no part, and the place stays.
fn step_at(parts: &[u32], at: usize) -> (Option<u32>, usize)
    ensures { result ≡ step_at parts.now at }
{
    if at < parts.len() {
        (Some(parts[at]), at + 1)
    } else {
        (None, at)
    }
}

// How many parts there are from a place on.
pub fn left_at(parts: &[u32], at: usize) -> usize
    ensures { result ≡ length parts.now - at }
{
    parts.len().saturating_sub(at)
}

// A reader at a place.
pub fn new(parts: &[u32], at: usize) -> Reader<'_>
    ensures { result ≡ reader_at parts.entry at }
{
    Reader { parts, at }
}

// Reads the part at the reader's place and moves on behind it; at the end the reader stays.
pub fn next(r: &mut Reader) -> Option<u32>
    ensures { ReadsOn r.old r.new result }
{
    let (part, at) = step_at(r.parts, r.at);
    r.at = at;
    part
}

// How many parts are left.
pub fn left(r: Reader) -> usize
    ensures { result ≡ length r.entry.parts.now - r.entry.at }
{
    left_at(r.parts, r.at)
}

// ---- for callers that hold no reader

// The part at a place, the place behind it, and how many parts are left there.
#[derive(Clone, Copy, PartialEq, Eq, Debug)]
pub struct Read {
    pub part: Option<u32>,
    pub at: usize,
    pub left: usize,
}

// Reads at a place, by a reader that is made there.
pub fn read_from(parts: &[u32], at: usize) -> Read
    ensures { result ≡ read_from parts.now at }
{
    let mut reader = new(parts, at);
    let part = next(&mut reader);
    Read {
        part,
        at: reader.at,
        left: left(reader),
    }
}
