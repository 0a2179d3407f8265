// The instance of a column of a row, read: its table, its column and its key. The key comes back in the form of the image: its fields' bytes one after
// the other.
#![tactic(auto)]

ghost use Rattle.std.specs.Prelude.{◌≡◌, ◌≤◌, length, take};
ghost use Rattle.numbers.specs.Order.{begins};
ghost use Rattle.instance_encode.specs.Instances.{base};
ghost use Rattle.rows.specs.Rows.{key_max};
ghost use Rattle.instance_decode.specs.Decoding.{table_of, found_in, read_index, Delivers, Decodes};
ghost use Rattle.instance_decode.specs.Numbers.{decoded_number};

use answers::Fault;
use rows::{KEY_MAX, Table};

// An instance that was read: its table, its column, and how many bytes its key has.
#[derive(Clone, Copy, PartialEq, Eq, Debug)]
pub struct Instance {
    pub table: Table,
    pub column: u32,
    pub key: usize,
}

// The number of document 01 for an answer.
pub fn decoded_number(d: Result<Instance, Fault>) -> u32
    ensures { result ≡ decoded_number d }
{
    match d {
        Ok(_) => 0,
        Err(f) => answers::fault_number(f),
    }
}

// ---- the index

// The key that an index spells, at the front of `key`. It is made apart from it, so that a refusal leaves `key` as it was.
fn decode_index(
    table: Table,
    column: u32,
    index: &[u32],
    made: &mut [u8],
    key: &mut [u8],
) -> Result<Instance, Fault>
    requires room { key_max ≤ length made.old }
    requires fits { length made.old ≤ length key.old }
    ensures { Delivers (read_index table column index.now) key.old key.new result }
{
    let (at, n) = instance_fields::read_fields(table, index, made).ok_or(Fault::NotAnInstance)?;
    if 0 < reader::left_at(index, at) {
        return Err(Fault::NotAnInstance);
    }
    splice::copy_in(key, 0, &made[..n]);
    Ok(Instance {
        table,
        column,
        key: n,
    })
}

// ---- the base and the column

// Whether the identifier begins with these parts.
fn begins_with(oid: &[u32], front: &[u8]) -> bool
    ensures { result ≡ begins front.now oid.now }
{
    front.len() <= oid.len()
        && front
            .iter()
            .zip(oid)
            .all(|(octet, part)| u32::from(*octet) == *part)
}

// Whether the identifier begins with the table's base.
fn is_of_table(t: Table, oid: &[u32]) -> bool
    ensures { result ≡ begins (base t) oid.now }
{
    let n = instance_encode::base_len(t);
    begins_with(oid, &instance_encode::base_of(t)[..n])
}

// That table.
fn table_of(oid: &[u32]) -> Option<Table>
    ensures { result ≡ found_in (table_of oid.now) }
{
    [Table::Context, Table::Mapping, Table::Access, Table::View]
        .into_iter()
        .find(|t| is_of_table(*t, oid))
}

// The table, the column and the key of an instance; the key at the front of `key`.
pub fn decode(oid: &[u32], key: &mut [u8; KEY_MAX]) -> Result<Instance, Fault>
    ensures { Decodes oid.now key.old key.new result }
{
    let table = table_of(oid).ok_or(Fault::NotAnInstance)?;
    let read = reader::read_from(oid, instance_encode::base_len(table));
    let column = read.part.ok_or(Fault::NotAnInstance)?;
    if !instance_encode::is_listed(table, column) {
        return Err(Fault::NotAnInstance);
    }
    let mut made = [0u8; KEY_MAX];
    decode_index(table, column, &oid[read.at..], &mut made, key)
}
