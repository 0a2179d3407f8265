// The answers of calls as text, put into a lent buffer: a fault, an instance encoded or decoded, an image.
#![tactic(auto)]

ghost use Rattle.std.specs.Prelude.{◌≡◌, ◌++◌, ◌+◌, ◌≤◌, length};
ghost use Rattle.std.proofs.Math.Option.{none};
ghost use Rattle.rows.specs.Fields.{faults};
ghost use Rattle.rows.specs.Rows.{key_fields};
ghost use Rattle.image.specs.Store.{held};
ghost use Rattle.instance_decode.specs.Decoding.{read_instance};
ghost use Rattle.text_values.specs.Texts.{Puts};
ghost use Rattle.call_answers.specs.Answers.{fault_text, instance_text, instance_word, column_key_of, decoded_text, image_text_of, Room, Told};

use answers::Fault;
use image::ROOM;
use rows::{KEY_MAX, Shape, Table};

// Sub-identifiers enough for every instance: the longest has 110.
const PARTS: usize = 128;

// Room for the longest answer: `image `, and two digits to each octet of the largest image.
pub const ANSWER_ROOM: usize = 6 + 2 * ROOM;

// Each function puts its text into `out` from `at` on, and answers where it ends.

// Tells a fault by its number.
pub fn tell_fault(out: &mut [u8], at: usize, f: Fault) -> usize
    requires { Room at out.old }
    ensures { Told (fault_text f) at out.old out.new result }
{
    text_values::put_decimal(out, at, answers::fault_number(f) as u64)
}

// Tells the instance of a column and a key, or why it is none.
pub fn tell_encoded(out: &mut [u8], at: usize, t: Table, column: u32, key: &[u8]) -> usize
    requires { Room at out.old }
    ensures { Told (instance_text t column key.now) at out.old out.new result }
{
    let mut oid = [0u32; PARTS];
    let written = instance_encode::encode(t, column, key, &mut oid);
    match written {
        Ok(n) => {
            let next = text_values::put_text(out, at, b"oid ");
            text_values::put_dotted(out, next, &oid[0..n])
        }
        Err(f) => tell_fault(out, at, f),
    }
}

// A column and a key, whose bytes are whole.
pub fn put_column_key(out: &mut [u8], at: usize, t: Table, column: u32, key: &[u8]) -> usize
    requires legal { faults (key_fields t) key.now ≡ none }
    requires room { at + length (column_key_of t column key.now) ≤ length out.old }
    ensures { Puts (column_key_of t column key.now) at out.old out.new result }
{
    let space = text_values::put_decimal(out, at, column as u64);
    let next = text_values::put_octet(out, space, b' ');
    text_rows::put_entry(out, next, Shape::Key, t, key)
}

// Tells a column and a key, whose bytes are whole.
fn tell_instance(out: &mut [u8], at: usize, t: Table, column: u32, key: &[u8]) -> usize
    requires legal { faults (key_fields t) key.now ≡ none }
    requires room { Room at out.old }
    ensures { Told (instance_word ++ column_key_of t column key.now) at out.old out.new result }
{
    let next = text_values::put_text(out, at, b"instance ");
    put_column_key(out, next, t, column, key)
}

// Tells which column and key an object identifier is the instance of, or that it is none.
pub fn tell_decoded(out: &mut [u8], at: usize, oid: &[u32]) -> usize
    requires { Room at out.old }
    ensures { Told (decoded_text (read_instance oid.now)) at out.old out.new result }
{
    let mut key = [0u8; KEY_MAX];
    let decoded = instance_decode::decode(oid, &mut key);
    match decoded {
        Ok(i) => tell_instance(out, at, i.table, i.column, &key[0..i.key]),
        Err(f) => tell_fault(out, at, f),
    }
}

// Tells the image of a store's tables, or that the store is not sound.
pub fn tell_image(out: &mut [u8], at: usize, store: &[u8]) -> usize
    requires { Room at out.old }
    ensures { Told (image_text_of (held store.now)) at out.old out.new result }
{
    let mut image = [0u8; ROOM];
    let written = image_transfer::write_image(store, &mut image);
    match written {
        Ok(n) => {
            let next = text_values::put_text(out, at, b"image ");
            text_values::put_hex(out, next, &image[0..n])
        }
        Err(f) => tell_fault(out, at, f),
    }
}
