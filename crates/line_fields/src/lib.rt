// The fields of a line, read by their kinds from its words. Numbers and identifiers go into a lent buffer of parts, everything else into one of
// bytes; a slot for each field says where it lies.
#![tactic(auto)]

ghost use Rattle.std.specs.Prelude.{◌≡◌, length, take, ◌*◌, ◌<◌};
ghost use Rattle.numbers.specs.Laid.{laid};
ghost use Rattle.text_words.specs.Words.{words_from, Fills};
ghost use Rattle.text_fields.specs.RowWords.{Roomy};
ghost use Rattle.line_fields.specs.Kinds.{number as Kinds·number, edited, kind_said, values_said};
ghost use Rattle.line_fields.specs.Requests.{request_kinds};
ghost use Rattle.line_fields.specs.Slots.{number_in, part_in, no_slots, word_found, Kinds, Lists, in_parts, Within, Finds, Lent, ReadsFields};
ghost use Rattle.line_fields.specs.Buffers.{buffers, edit_front, kind_front, laid_in, fields_into};

use edit_rules::Operation;
use rows::Table;
use text_rows::Slot;
use text_words::LONGEST_LINE;

// The most fields of a line.
pub const MOST_FIELDS: usize = 6;

// Room for what a line says: an octet of it makes four bytes or parts at most.
pub const LINE_ROOM: usize = 4 * (LONGEST_LINE + 1);

// The kinds of fields.
#[derive(Clone, Copy)]
pub enum Kind {
    Number,
    Name,
    Identifier,
    Key,
    Edit,
}

// ---- a field: one whose first word begins at `at` in the line lies in its buffer from `4 * at` on, behind all that words before it make

// The number that a word says, into `out` at `from`.
fn number(word: &[u8], out: &mut [u32], from: usize) -> Option<usize>
    requires { from < length out.old }
    ensures { Fills result from 1 out.old out.new (Kinds·number word.now) }
{
    let x = text_words::decimal(word)?;
    out[from] = x;
    Some(from + 1)
}

// The field that one word says.
fn one_word(filled: Option<usize>, from: usize, next: usize) -> Option<(Slot, usize)>
    ensures { result ≡ word_found filled from next }
{
    let end = filled?;
    Some((
        Slot {
            operation: Operation::Create,
            table: Table::Context,
            from,
            end,
        },
        next,
    ))
}

// What the operation that a word names is handed, from the word that begins at `at` on, in `bytes` from `from` on.
fn edit(word: &[u8], line: &[u8], at: usize, bytes: &mut [u8], from: usize) -> Option<(Slot, usize)>
    requires { Roomy line.now at bytes.old from }
    ensures finds { Finds result from at line.now (edited word.now (words_from at line.now)) }
    ensures lays { bytes.new ≡ laid from (edit_front word.now (words_from at line.now)) bytes.old }
{
    let operation = match text_words::place_of(word, b"create change remove") {
        0 => Operation::Create,
        1 => Operation::Change,
        2 => Operation::Remove,
        _ => return None,
    };
    text_rows::entry(operation, line, at, bytes, from)
}

// The field of a kind that the words from a place on say.
pub fn field(
    k: Kind,
    line: &[u8],
    at: usize,
    bytes: &mut [u8],
    parts: &mut [u32],
) -> Option<(Slot, usize)>
    requires { Lent line.now at bytes.old parts.old }
    ensures finds { Finds result (4 * at) at line.now (kind_said k (words_from at line.now)) }
    ensures lays { buffers bytes.new parts.new
        ≡ laid_in (in_parts k) (4 * at) (kind_front k (words_from at line.now)) (buffers bytes.old parts.old) }
{
    let end = text_words::word_at(line, at)?;
    let word = &line[at..end];
    let from = 4 * at;
    let next = end + 1;
    match k {
        Kind::Number => one_word(number(word, parts, from), from, next),
        Kind::Name => one_word(text_words::hex_octets(word, bytes, from), from, next),
        Kind::Identifier => one_word(text_words::dotted(word, parts, from), from, next),
        Kind::Key => text_rows::entry(Operation::Remove, line, at, bytes, from),
        Kind::Edit => edit(word, line, next, bytes, from),
    }
}

// ---- the fields of a line

// Whether a line says a field of each kind and nothing else, and the slots of its fields.
#[derive(Clone, Copy)]
pub struct Fields {
    pub whole: bool,
    pub slots: [Slot; MOST_FIELDS],
}

// Slots of no field.
pub fn no_slots() -> [Slot; MOST_FIELDS]
    ensures { result ≡ no_slots }
{
    [Slot {
        operation: Operation::Create,
        table: Table::Context,
        from: 0,
        end: 0,
    }; MOST_FIELDS]
}

// The fields of the first `n` kinds that the words from the one that begins at `at` on say.
pub fn read(
    kinds: [Kind; MOST_FIELDS],
    n: usize,
    line: &[u8],
    at: usize,
    bytes: &mut [u8],
    parts: &mut [u32],
) -> Fields
    requires kinds { Kinds n kinds }
    requires lent { Lent line.now at bytes.old parts.old }
    ensures reads { ReadsFields result (take n kinds) bytes.new parts.new
        (values_said (take n kinds) (words_from at line.now)) }
    ensures lays { buffers bytes.new parts.new
        ≡ fields_into (take n kinds) line.now (words_from at line.now) (buffers bytes.old parts.old) }
{
    let mut slots = no_slots();
    let mut next = at;
    for i in 0..n {
        let Some((s, behind)) = field(kinds[i], line, next, bytes, parts) else {
            return Fields {
                whole: false,
                slots,
            };
        };
        slots[i] = s;
        next = behind;
    }
    // no word is over
    let whole = line.len() < next;
    Fields { whole, slots }
}

// ---- a request

// How many fields a request has.
pub const REQUEST_FIELDS: usize = 6;

// Their kinds: model, level, kind, security name, context name, variable.
pub fn request_kinds() -> [Kind; MOST_FIELDS]
    ensures { Lists request_kinds result }
{
    [
        Kind::Number,
        Kind::Number,
        Kind::Number,
        Kind::Name,
        Kind::Name,
        Kind::Identifier,
    ]
}

// ---- what a slot holds

// The number in a slot.
pub fn number_in(parts: &[u32], s: Slot) -> u32
    requires { Within s (length parts.now) }
    ensures { result ≡ number_in s parts.now }
{
    let from = s.from;
    if from < s.end {
        return parts[from];
    }
    0
}

// The identifier in a slot.
pub fn identifier_in(parts: &[u32], s: Slot) -> &[u32]
    requires { Within s (length parts.now) }
    ensures { result.now ≡ part_in s parts.now }
{
    let from = s.from;
    let end = s.end;
    &parts[from..end]
}

// The octets in a slot.
pub fn octets_in(bytes: &[u8], s: Slot) -> &[u8]
    requires { Within s (length bytes.now) }
    ensures { result.now ≡ part_in s bytes.now }
{
    let from = s.from;
    let end = s.end;
    &bytes[from..end]
}
