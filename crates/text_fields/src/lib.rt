// Fields of a row read from the words of a line into their bytes in the form of the image. What the bytes can hold is taken, in range or not.
#![tactic(auto)]

ghost use Rattle.std.specs.Prelude.{◌≡◌, ◌+◌, ◌≤◌, length, take};
ghost use Rattle.numbers.specs.BigEndian.{octet, quad};
ghost use Rattle.numbers.specs.Laid.{laid};
ghost use Rattle.rows.specs.Forms.{field_of};
ghost use Rattle.rows.specs.Rows.{row_fields};
ghost use Rattle.text_words.specs.Words.{longest, words_from, decimal, hex_octets, dotted, Fills};
ghost use Rattle.text_fields.specs.FieldWords.{counted, numbered, field_said, word_bytes};
ghost use Rattle.text_fields.specs.RowWords.{fields_said, fields_front, Roomy, Places};

use rows::{Form, Table};
use text_words::LONGEST_LINE;

// The most octets that one octet counts.
const OCTET_MOST: usize = 255;

// ---- a field

// A name or a mask: its octets behind the place of their count, which is put last.
fn name(word: &[u8], out: &mut [u8], from: usize) -> Option<usize>
    requires { from + word_bytes word.now ≤ length out.old }
    ensures { Fills result from (word_bytes word.now) out.old out.new (counted octet (hex_octets word.now)) }
{
    // two digits an octet
    if 2 * OCTET_MOST < word.len() {
        return None;
    }
    let first = from + 1;
    let end = text_words::hex_octets(word, out, first)?;
    out[from] = (end - first) as u8;
    Some(end)
}

// A subtree, likewise. A function of its own: it reads into a buffer of its own, and knows only then how many there are.
fn subtree(word: &[u8], out: &mut [u8], from: usize) -> Option<usize>
    requires room { from + word_bytes word.now ≤ length out.old }
    requires short { length word.now ≤ longest }
    ensures { Fills result from (word_bytes word.now) out.old out.new (counted quad (dotted word.now)) }
{
    let mut parts = [0u32; LONGEST_LINE];
    let n = text_words::dotted(word, &mut parts, 0)?;
    let count = u8::try_from(n).ok()?;
    let first = from + 1;
    let end = first + 4 * n;
    numbers::put_quads(&mut out[first..end], &parts[0..n]);
    out[from] = count;
    Some(end)
}

// A number of four bytes, which hold every number that a word says.
fn large(word: &[u8], out: &mut [u8], from: usize) -> Option<usize>
    requires { from + word_bytes word.now ≤ length out.old }
    ensures { Fills result from (word_bytes word.now) out.old out.new (numbered quad (decimal word.now)) }
{
    let x = text_words::decimal(word)?;
    numbers::put_quad(out, from, x);
    Some(from + 4)
}

// A number of one byte.
fn small(word: &[u8], out: &mut [u8], from: usize) -> Option<usize>
    requires { from + word_bytes word.now ≤ length out.old }
    ensures { Fills result from (word_bytes word.now) out.old out.new (numbered octet (decimal word.now)) }
{
    let n = text_words::decimal(word)?;
    let x = u8::try_from(n).ok()?;
    out[from] = x;
    Some(from + 1)
}

// The field of form `f` that a word says, its bytes in `out` from `from` on.
pub fn field(f: Form, word: &[u8], out: &mut [u8], from: usize) -> Option<usize>
    requires room { from + word_bytes word.now ≤ length out.old }
    requires short { length word.now ≤ longest }
    ensures { Fills result from (word_bytes word.now) out.old out.new (field_said (field_of f) word.now) }
{
    match f {
        Form::Name(_, _) => name(word, out, from),
        Form::Subtree(_, _) => subtree(word, out, from),
        Form::Large(_, _) => large(word, out, from),
        Form::Small(_, _) => small(word, out, from),
    }
}

// ---- the fields of a row

// The first `n` fields of a row, a word for each from the one that begins at `at` on, their bytes in `out` from `from` on.
pub fn fields(
    t: Table,
    n: usize,
    line: &[u8],
    at: usize,
    out: &mut [u8],
    from: usize,
) -> Option<(usize, usize)>
    requires fields { n ≤ length (row_fields t) }
    requires room { Roomy line.now at out.old from }
    ensures places { Places result from at line.now
        (fields_said (take n (row_fields t)) (words_from at line.now)) }
    ensures lays { out.new ≡ laid from (fields_front (take n (row_fields t)) (words_from at line.now)) out.old }
{
    let mut a = at;
    let mut k = from;
    for i in 0..n {
        let end = text_words::word_at(line, a)?;
        k = field(rows::form_at(t, i), &line[a..end], out, k)?;
        a = end + 1;
    }
    Some((k, a))
}
