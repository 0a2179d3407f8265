// A row or a key of a table: read from the words of a line into its bytes in the form of the image, and told from its bytes in words.
#![tactic(auto)]

ghost use Rattle.std.specs.Prelude.{◌≡◌, ◌+◌, ◌≤◌, length, take, drop};
ghost use Rattle.std.proofs.Math.Option.{none};
ghost use Rattle.numbers.specs.Laid.{laid};
ghost use Rattle.rows.specs.Fields.{fault, faults, value, values};
ghost use Rattle.rows.specs.Forms.{field_of};
ghost use Rattle.rows.specs.Rows.{row_fields, fields_of};
ghost use Rattle.text_words.specs.Words.{words_from};
ghost use Rattle.text_values.specs.Texts.{Puts};
ghost use Rattle.text_fields.specs.RowWords.{Roomy};
ghost use Rattle.text_rows.specs.EntryWords.{Counts, entry_said, entry_front, Enters};
ghost use Rattle.text_rows.specs.FieldText.{field_text, FieldIn};
ghost use Rattle.text_rows.specs.RowText.{fields_text, entry_text, Fields};
ghost use Rattle.text_rows.specs.TableWords.{table_word};

use edit_rules::Operation;
use rows::{Form, Shape, Table};

// ---- read from words

// Where a field of a line lies in its buffer; and its operation and table, where it has them.
#[derive(Clone, Copy)]
pub struct Slot {
    pub operation: Operation,
    pub table: Table,
    pub from: usize,
    pub end: usize,
}

// How many fields a row or a key of a table has.
fn field_count(s: Shape, t: Table) -> usize
    ensures { Counts result s t }
{
    match s {
        Shape::Row => rows::row_len(t),
        Shape::Key => rows::key_len(t),
    }
}

// The row or the key, as the operation has it, that the words from the one that begins at `at` on say, its bytes in `out` from `from` on.
pub fn entry(
    o: Operation,
    line: &[u8],
    at: usize,
    out: &mut [u8],
    from: usize,
) -> Option<(Slot, usize)>
    requires { Roomy line.now at out.old from }
    ensures enters { Enters result o from at line.now (entry_said o (words_from at line.now)) }
    ensures lays { out.new ≡ laid from (entry_front o (words_from at line.now)) out.old }
{
    let word_end = text_words::word_at(line, at)?;
    let table = match text_words::place_of(&line[at..word_end], b"context mapping access view") {
        0 => Table::Context,
        1 => Table::Mapping,
        2 => Table::Access,
        3 => Table::View,
        _ => return None,
    };
    let n = field_count(edit_rules::shape_of(o), table);
    let (end, next) = text_fields::fields(table, n, line, word_end + 1, out, from)?;
    Some((
        Slot {
            operation: o,
            table,
            from,
            end,
        },
        next,
    ))
}

// ---- told in words

// The word that names a table.
pub fn put_table(out: &mut [u8], at: usize, t: Table) -> usize
    requires { at + length (table_word t) ≤ length out.old }
    ensures { Puts (table_word t) at out.old out.new result }
{
    match t {
        Table::Context => text_values::put_text(out, at, b"context"),
        Table::Mapping => text_values::put_text(out, at, b"mapping"),
        Table::Access => text_values::put_text(out, at, b"access"),
        Table::View => text_values::put_text(out, at, b"view"),
    }
}

// Where the field of form `f` that begins at `at` ends.
fn field_end(f: Form, row: &[u8], at: usize) -> usize
    requires { fault (field_of f) (drop at row.now) ≡ none }
    ensures { FieldIn f row.now at result }
{
    match f {
        Form::Name(_, _) => at + 1 + numbers::wide(row[at]),
        Form::Subtree(_, _) => at + 1 + 4 * numbers::wide(row[at]),
        Form::Large(_, _) => at + 4,
        Form::Small(_, _) => at + 1,
    }
}

// The text of the field of form `f` that lies in `row` from `from` to `end`.
fn put_field(out: &mut [u8], at: usize, f: Form, row: &[u8], from: usize, end: usize) -> usize
    requires whole { FieldIn f row.now from end }
    requires room { at + length (field_text (field_of f) (value (field_of f) (drop from row.now))) ≤ length out.old }
    ensures { Puts (field_text (field_of f) (value (field_of f) (drop from row.now))) at out.old out.new result }
{
    match f {
        Form::Name(_, _) => text_values::put_name(out, at, &row[from + 1..end]),
        Form::Subtree(_, _) => text_values::put_dotted_quads(out, at, &row[from + 1..end]),
        Form::Large(_, _) => text_values::put_decimal(out, at, numbers::quad_at(row, from) as u64),
        Form::Small(_, _) => text_values::put_decimal(out, at, numbers::wide(row[from]) as u64),
    }
}

// The first `n` fields of a row, each behind a space: `row` holds these and no more.
fn put_fields(out: &mut [u8], at: usize, t: Table, n: usize, row: &[u8]) -> usize
    requires whole { Fields n t row.now }
    requires room { at + length (fields_text (take n (row_fields t)) (values (take n (row_fields t)) row.now)) ≤ length out.old }
    ensures { Puts (fields_text (take n (row_fields t)) (values (take n (row_fields t)) row.now)) at out.old out.new result }
{
    let mut o = at;
    let mut k = 0;
    for i in 0..n {
        let f = rows::form_at(t, i);
        let end = field_end(f, row, k);
        let next = text_values::put_octet(out, o, b' ');
        o = put_field(out, next, f, row, k, end);
        k = end;
    }
    o
}

// The row or the key whose bytes are whole.
pub fn put_entry(out: &mut [u8], at: usize, s: Shape, t: Table, bytes: &[u8]) -> usize
    requires legal { faults (fields_of s t) bytes.now ≡ none }
    requires room { at + length (entry_text s t (values (fields_of s t) bytes.now)) ≤ length out.old }
    ensures { Puts (entry_text s t (values (fields_of s t) bytes.now)) at out.old out.new result }
{
    let next = put_table(out, at, t);
    put_fields(out, next, t, field_count(s, t), bytes)
}
