// The instance of a column of a row, written (RFC 3415 section 4). A key is handed over in the form of the image: its fields' bytes one after the other.
#![tactic(auto)]

ghost use Rattle.std.specs.Prelude.{◌≡◌, [], ◌∷◌, ◌++◌, ◌+◌, ◌*◌, ◌≤◌, length, take, drop};
ghost use Rattle.std.proofs.Math.Option.{none};
ghost use Rattle.numbers.specs.Laid.{laid};
ghost use Rattle.rows.specs.Fields.{faults};
ghost use Rattle.numbers.specs.BigEndian.{quad, numbers};
ghost use Rattle.rows.specs.Rows.{key_fields};
ghost use Rattle.instance_encode.specs.Instances.{base, longest_base, columns, counted, lists, instance, Encodes};
ghost use Rattle.instance_encode.specs.Runs.{quads_from, quads_in, runs};

use answers::Fault;
use rows::Table;

// The parts of the longest base.
pub const BASE_ROOM: usize = 11;

// The bytes of an access key behind its names: a model and a level.
const MODEL_AND_LEVEL: usize = 5;

// The columns that document 01 lists for a table: they follow one another.
#[derive(Clone, Copy, PartialEq, Eq, Debug)]
pub struct Columns {
    pub first: u8,
    pub count: usize,
}

pub fn columns_of(t: Table) -> Columns
    ensures listed { counted result.first result.count ≡ columns t }
    ensures few { result.first + result.count ≤ 10 }
{
    match t {
        Table::Context => Columns { first: 1, count: 1 },
        Table::Mapping => Columns { first: 3, count: 3 },
        Table::Access => Columns { first: 4, count: 6 },
        Table::View => Columns { first: 3, count: 4 },
    }
}

// Whether document 01 lists the column for the table.
pub fn is_listed(t: Table, column: u32) -> bool
    ensures { result ≡ lists t column }
{
    let c = columns_of(t);
    let first = u32::from(c.first);
    (first..first + c.count as u32).contains(&column)
}

// The base of a table's instances, each part an octet, and a zero behind it where it has ten parts.
pub fn base_of(t: Table) -> [u8; BASE_ROOM]
    ensures { result ≡ take longest_base (base t ++ (0 ∷ [])) }
{
    match t {
        Table::Context => [1, 3, 6, 1, 6, 3, 16, 1, 1, 1, 0],
        Table::Mapping => [1, 3, 6, 1, 6, 3, 16, 1, 2, 1, 0],
        Table::Access => [1, 3, 6, 1, 6, 3, 16, 1, 4, 1, 0],
        Table::View => [1, 3, 6, 1, 6, 3, 16, 1, 5, 2, 1],
    }
}

// How many parts the base has.
pub fn base_len(t: Table) -> usize
    ensures parts { result ≡ length (base t) }
    ensures most { result ≤ longest_base }
{
    match t {
        Table::Context => 10,
        Table::Mapping => 10,
        Table::Access => 10,
        Table::View => 11,
    }
}

// ---- the index of a key

// A part for each byte, laid from `at` on.
fn put_octets(out: &mut [u32], at: usize, bytes: &[u8])
    requires { at + length bytes.now ≤ length out.old }
    ensures { out.new ≡ laid at bytes.now out.old }
{
    for (i, octet) in bytes.iter().enumerate() {
        out[at + i] = u32::from(*octet);
    }
}

// A part for each of the first `n` numbers of four bytes.
// beside `put_octets`: one function with a closure for the part would be longer than the two loops
fn put_numbers(out: &mut [u32], at: usize, n: usize, bytes: &[u8])
    requires room { at + n ≤ length out.old }
    requires inside { 4 * n ≤ length bytes.now }
    ensures { out.new ≡ laid at (numbers quad n bytes.now) out.old }
{
    for i in 0..n {
        out[at + i] = numbers::quad_at(bytes, 4 * i) as u32;
    }
}

// Where the numbers of four bytes lie in a key: together, from a place on.
#[derive(Clone, Copy, PartialEq, Eq, Debug)]
pub struct Quads {
    pub from: usize,
    pub count: usize,
}

// Where they lie by table. In the key's index each of them is a part, and so is every other byte.
pub fn quads_of(t: Table, key: &[u8]) -> Quads
    requires { faults (key_fields t) key.now ≡ none }
    ensures place { result.from ≡ quads_from t key.now }
    ensures number { result.count ≡ quads_in t key.now }
{
    match t {
        Table::Context => Quads { from: 0, count: 0 },
        Table::Mapping => Quads { from: 0, count: 1 },
        Table::Access => Quads {
            from: key.len() - MODEL_AND_LEVEL,
            count: 1,
        },
        Table::View => {
            let n = key[0] as usize;
            Quads {
                from: 2 + n,
                count: key[1 + n] as usize,
            }
        }
    }
}

// The index in its three runs: the bytes before these numbers, the numbers, the bytes behind them.
fn put_runs(out: &mut [u32], at: usize, key: &[u8], q: Quads)
    requires inside { q.from + 4 * q.count ≤ length key.now }
    requires room { at + length key.now ≤ length out.old + 3 * q.count }
    ensures { out.new ≡ laid at (runs q.from q.count key.now) out.old }
{
    put_octets(out, at, &key[..q.from]);
    put_numbers(out, at + q.from, q.count, &key[q.from..]);
    put_octets(out, at + q.from + q.count, &key[q.from + 4 * q.count..]);
}

// ---- the instance

// Base, column and the index in its runs, at the front of `out`.
fn put_instance(t: Table, column: u32, key: &[u8], q: Quads, out: &mut [u32])
    requires inside { q.from + 4 * q.count ≤ length key.now }
    requires room { length (base t) + 1 + length key.now ≤ length out.old + 3 * q.count }
    ensures { out.new ≡ laid 0 (instance t column (runs q.from q.count key.now)) out.old }
{
    let n = base_len(t);
    put_octets(out, 0, &base_of(t)[..n]);
    out[n] = column;
    put_runs(out, n + 1, key, q);
}

// The instance of a column of the row that has the key, at the front of `out`.
pub fn encode(t: Table, column: u32, key: &[u8], out: &mut [u32]) -> Result<usize, Fault>
    ensures { Encodes t column key.now out.old out.new result }
{
    if !is_listed(t, column) || rows::judge_key(t, key).is_err() {
        return Err(Fault::OutOfRange);
    }
    let q = quads_of(t, key);
    let n = base_len(t) + 1 + (key.len() - 3 * q.count);
    if out.len() < n {
        return Err(Fault::TooShort);
    }
    put_instance(t, column, key, q, out);
    Ok(n)
}
