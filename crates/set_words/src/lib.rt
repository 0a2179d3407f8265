// A set of edits by a principal, read from the words of a line.
#![tactic(auto)]

ghost use Rattle.std.specs.Prelude.{◌≡◌, suc, ◌*◌, ◌≤◌, length, take};
ghost use Rattle.set_rules.specs.Sets.{most_edits};
ghost use Rattle.text_words.specs.Words.{longest, words_from};
ghost use Rattle.line_fields.specs.Slots.{Lent};
ghost use Rattle.line_fields.specs.Buffers.{buffers, fields_into};
ghost use Rattle.set_words.specs.SetWords.{caller_said, edits_said};
ghost use Rattle.set_words.specs.Reading.{Begins, Calls, Stands, no_edits, with_edit, ReadsEdits};
ghost use Rattle.set_words.specs.Buffers.{caller_kinds, edits_into};

use edit_rules::Operation;
use line_fields::Kind;
use rows::Table;
use set_rules::{EditSet, MOST_EDITS, SetEdit};
use text_rows::Slot;
use text_words::LONGEST_LINE;

// ---- the word `set`

// Where it ends, at the front of a line that is not too long.
pub fn set_end(line: &[u8]) -> Option<usize>
    ensures { Begins result line.now }
{
    if LONGEST_LINE < line.len() {
        return None;
    }
    let end = text_words::end_of(line, 0, b' ');
    if octets::are_same(&line[0..end], b"set") {
        return Some(end);
    }
    None
}

// ---- the principal

// A principal as it is read: its numbers, the slot of its name, and the place of the next word.
#[derive(Clone, Copy)]
pub struct Principal {
    pub model: u32,
    pub name: Slot,
    pub level: u32,
    pub next: usize,
}

// The principal that the words from the one that begins at `at` on say.
pub fn read_caller(line: &[u8], at: usize, bytes: &mut [u8], parts: &mut [u32]) -> Option<Principal>
    requires { Lent line.now at bytes.old parts.old }
    ensures calls { Calls result line.now bytes.new (caller_said (words_from at line.now)) }
    ensures lays { buffers bytes.new parts.new
        ≡ fields_into caller_kinds line.now (words_from at line.now) (buffers bytes.old parts.old) }
{
    let (m, name_at) = line_fields::field(Kind::Number, line, at, bytes, parts)?;
    let model = line_fields::number_in(parts, m);
    let (name, level_at) = line_fields::field(Kind::Name, line, name_at, bytes, parts)?;
    let (l, next) = line_fields::field(Kind::Number, line, level_at, bytes, parts)?;
    let level = line_fields::number_in(parts, l);
    Some(Principal {
        model,
        name,
        level,
        next,
    })
}

// ---- the edits

// What stands behind an edit: nothing, the word `;` and the place of the next edit, or what may not stand there.
#[derive(Clone, Copy)]
pub enum Behind {
    Nothing,
    Edit(usize),
    Malformed,
}

fn behind_edit(line: &[u8], at: usize) -> Behind
    ensures { Stands result at line.now }
{
    let Some(end) = text_words::word_at(line, at) else {
        return Behind::Nothing;
    };
    if octets::are_same(&line[at..end], b";") {
        return Behind::Edit(end + 1);
    }
    Behind::Malformed
}

// A set of no edits.
fn no_edits() -> EditSet
    ensures { result ≡ no_edits }
{
    let edits = [SetEdit {
        operation: Operation::Create,
        table: Table::Context,
        from: 0,
        end: 0,
    }; MOST_EDITS];
    EditSet { edits, count: 0 }
}

// A set with an edit more; one that has no place is only counted.
fn with_edit(s: EditSet, e: Slot) -> EditSet
    requires room { length s.edits ≡ most_edits }
    requires few { s.count ≤ suc longest }
    ensures { result ≡ with_edit s e }
{
    let n = s.count;
    let mut edits = s.edits;
    if MOST_EDITS <= n {
        return EditSet {
            edits,
            count: n + 1,
        };
    }
    let operation = e.operation;
    let table = e.table;
    edits[n] = SetEdit {
        operation,
        table,
        from: e.from,
        end: e.end,
    };
    EditSet {
        edits,
        count: n + 1,
    }
}

// Whether words say edits and nothing else, and the set of them.
#[derive(Clone, Copy)]
pub struct ReadSet {
    pub whole: bool,
    pub set: EditSet,
}

// The edits that the words from the one that begins at `at` on say; what lies in front of theirs stays.
pub fn read_edits(line: &[u8], at: usize, bytes: &mut [u8], parts: &mut [u32]) -> ReadSet
    requires { Lent line.now at bytes.old parts.old }
    ensures reads { ReadsEdits result bytes.new (edits_said (words_from at line.now)) }
    ensures lays { buffers bytes.new parts.new
        ≡ edits_into line.now (words_from at line.now) (buffers bytes.old parts.old) }
    ensures keeps { take (4 * at) bytes.new ≡ take (4 * at) bytes.old }
{
    let mut set = no_edits();
    if line.len() < at {
        return ReadSet { whole: true, set };
    }
    let mut next = at;
    loop {
        let Some((e, end)) = line_fields::field(Kind::Edit, line, next, bytes, parts) else {
            return ReadSet { whole: false, set };
        };
        set = with_edit(set, e);
        match behind_edit(line, end) {
            Behind::Nothing => {
                return ReadSet { whole: true, set };
            }
            Behind::Edit(n) => {
                next = n;
            }
            Behind::Malformed => {
                return ReadSet { whole: false, set };
            }
        }
    }
}
