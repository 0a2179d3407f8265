// The fields of a key read from an index by the reader, part by part, and written as the key's bytes in the form of the image.
#![tactic(auto)]

ghost use Rattle.std.specs.Prelude.{◌≡◌, ◌+◌, ◌*◌, ◌≤◌, ◌<◌, length, drop, replicate};
ghost use Rattle.numbers.specs.Laid.{laid};
ghost use Rattle.numbers.specs.BigEndian.{size, bound, bytes};
ghost use Rattle.rows.specs.Fields.{sequence, integer};
ghost use Rattle.rows.specs.Forms.{field_of, room_of};
ghost use Rattle.rows.specs.Rows.{key_fields, key_max};
ghost use Rattle.instance_fields.specs.Reading.{width_of, largest, any_part, part_at, count_at, ReadsField, ReadsFields, field_front, key_front};

use rows::{Form, Table};

// ---- the parts of an index

// The part at a place, if it is from `lo` to `hi`.
fn number(index: &[u32], at: usize, lo: u32, hi: u32) -> Option<(u32, usize, usize)>
    ensures { result ≡ part_at lo hi index.now at }
{
    let read = reader::read_from(index, at);
    let x = read.part?;
    (lo..=hi).contains(&x).then_some((x, read.at, read.left))
}

// The same, if as many parts are left behind it.
fn count(index: &[u32], at: usize, lo: u32, hi: u32) -> Option<(u32, usize, usize)>
    ensures { result ≡ count_at lo hi index.now at }
{
    number(index, at, lo, hi).filter(|(x, _, left)| *x as usize <= *left)
}

// ---- a part as bytes

// How many bytes a part takes in the key.
// an enum and two matches: a trait or a const parameter would need its width as a ghost beside it, and one store by slices is no plainer
#[derive(Clone, Copy, PartialEq, Eq, Debug)]
pub enum Size {
    One,
    Four,
}

// The largest number of that many bytes.
fn largest_in(w: Size) -> u32
    ensures { result ≡ largest (width_of w) }
{
    match w {
        Size::One => u8::MAX as u32,
        Size::Four => u32::MAX,
    }
}

// A number's bytes at `at`; the place behind them.
fn write_number(w: Size, key: &mut [u8], at: usize, x: u32) -> usize
    requires room { at + size (width_of w) ≤ length key.old }
    requires fits { x < bound (width_of w) }
    ensures behind { result ≡ at + size (width_of w) }
    ensures written { key.new ≡ laid at (bytes (width_of w) x) key.old }
{
    match w {
        Size::One => {
            key[at] = x as u8;
            at + 1
        }
        Size::Four => {
            numbers::put_quad(key, at, x);
            at + 4
        }
    }
}

// ---- the fields of an index

// A number from `lo` to `hi`.
fn integer_at(
    w: Size,
    index: &[u32],
    at: usize,
    lo: u32,
    hi: u32,
    key: &mut [u8],
    byte: usize,
) -> Option<(usize, usize)>
    requires room { byte + size (width_of w) ≤ length key.old }
    requires fits { hi < bound (width_of w) }
    ensures reads { ReadsField (integer (width_of w) lo hi) index.now at byte result }
    ensures lays { key.new ≡ laid byte (field_front (integer (width_of w) lo hi) (drop at index.now)) key.old }
{
    let (x, next, _) = number(index, at, lo, hi)?;
    Some((next, write_number(w, key, byte, x)))
}

// `n` numbers of any size that fits.
fn numbers_at(
    w: Size,
    index: &[u32],
    at: usize,
    n: usize,
    key: &mut [u8],
    byte: usize,
) -> Option<(usize, usize)>
    requires { byte + n * size (width_of w) ≤ length key.old }
    ensures reads { ReadsFields (replicate n (any_part (width_of w))) index.now at byte result }
    ensures lays { key.new ≡ laid byte (key_front (replicate n (any_part (width_of w))) (drop at index.now)) key.old }
{
    let hi = largest_in(w);
    let mut p = at;
    let mut k = byte;
    for _ in 0..n {
        (p, k) = integer_at(w, index, p, 0, hi, key, k)?;
    }
    Some((p, k))
}

// A count from `lo` to `hi`, and as many parts.
fn sequence_at(
    w: Size,
    index: &[u32],
    at: usize,
    lo: u8,
    hi: u8,
    key: &mut [u8],
    byte: usize,
) -> Option<(usize, usize)>
    requires { byte + 1 + hi * size (width_of w) ≤ length key.old }
    ensures reads { ReadsField (sequence (width_of w) lo hi) index.now at byte result }
    ensures lays { key.new ≡ laid byte (field_front (sequence (width_of w) lo hi) (drop at index.now)) key.old }
{
    let (n, next, _) = count(index, at, lo as u32, hi as u32)?;
    key[byte] = n as u8;
    numbers_at(w, index, next, n as usize, key, byte + 1)
}

// A field by its form.
fn field(f: Form, index: &[u32], at: usize, key: &mut [u8], byte: usize) -> Option<(usize, usize)>
    requires { byte + room_of f ≤ length key.old }
    ensures reads { ReadsField (field_of f) index.now at byte result }
    ensures lays { key.new ≡ laid byte (field_front (field_of f) (drop at index.now)) key.old }
{
    match f {
        Form::Name(lo, hi) => sequence_at(Size::One, index, at, lo, hi, key, byte),
        Form::Subtree(lo, hi) => sequence_at(Size::Four, index, at, lo, hi, key, byte),
        Form::Large(lo, hi) => integer_at(Size::Four, index, at, lo, hi, key, byte),
        Form::Small(lo, hi) => integer_at(Size::One, index, at, lo as u32, hi as u32, key, byte),
    }
}

// The fields of a table's key, one behind the other.
pub fn read_fields(t: Table, index: &[u32], key: &mut [u8]) -> Option<(usize, usize)>
    requires { key_max ≤ length key.old }
    ensures reads { ReadsFields (key_fields t) index.now 0 0 result }
    ensures lays { key.new ≡ laid 0 (key_front (key_fields t) index.now) key.old }
{
    let mut at = 0;
    let mut byte = 0;
    for i in 0..rows::key_len(t) {
        (at, byte) = field(rows::form_at(t, i), index, at, key, byte)?;
    }
    Some((at, byte))
}
