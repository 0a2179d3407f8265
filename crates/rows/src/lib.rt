// The four tables, the forms of their fields, and a row's bytes judged field by field, where they lie.
#![tactic(auto)]

ghost use Rattle.std.specs.Prelude.{◌≡◌, ◌≤◌, ◌<◌, length, take, drop, [], ◌++◌};
ghost use Rattle.numbers.specs.BigEndian.{quad};
ghost use Rattle.rows.specs.Fields.{within, faults};
ghost use Rattle.rows.specs.Rows.{mapping_key, mapping_rest, access_key, access_rest, view_key, view_rest, key_fields, row_fields, limit};
ghost use Rattle.rows.specs.Forms.{field_of, field_in};
ghost use Rattle.rows.specs.Steps.{reached, sequence_step, integer_step, field_step, fields_step, key_step, row_step};

use answers::Fault;

// The tables, in document 01's order.
#[derive(Clone, Copy, PartialEq, Eq, Debug)]
pub enum Table {
    Context,
    Mapping,
    Access,
    View,
}

// What bytes or words say of a row: all of it, or its key alone.
#[derive(Clone, Copy, PartialEq, Eq, Debug)]
pub enum Shape {
    Row,
    Key,
}

// A field's form: a name or a mask, a subtree, a number of four bytes or of one; and its range, of octets, sub-identifiers or the number itself.
#[derive(Clone, Copy, PartialEq, Eq, Debug)]
pub enum Form {
    Name(u8, u8),
    Subtree(u8, u8),
    Large(u32, u32),
    Small(u8, u8),
}

// ---- figures of document 01, "Rows and their fields"

// The largest security model.
pub const MODEL_MAX: u32 = 2147483647;

// Security levels, from the lowest to the highest.
pub const NO_AUTH_NO_PRIV: u8 = 1;

pub const AUTH_NO_PRIV: u8 = 2;

pub const AUTH_PRIV: u8 = 3;

// Storage types, from the first to the last.
pub const VOLATILE: u8 = 2;

pub const NON_VOLATILE: u8 = 3;

pub const PERMANENT: u8 = 4;

pub const READ_ONLY: u8 = 5;

// Statuses of a row.
pub const ACTIVE: u8 = 1;

pub const NOT_IN_SERVICE: u8 = 2;

// The most bytes of a row, and of a key.
pub const ROW_MAX: usize = 310;

pub const KEY_MAX: usize = 290;

// How many rows each table holds at most.
pub const MOST_CONTEXTS: usize = 16;

pub const MOST_MAPPINGS: usize = 64;

pub const MOST_ACCESSES: usize = 64;

pub const MOST_VIEWS: usize = 96;

// The most rows of a table.
pub fn limit(t: Table) -> usize
    ensures { result ≡ limit t }
{
    match t {
        Table::Context => MOST_CONTEXTS,
        Table::Mapping => MOST_MAPPINGS,
        Table::Access => MOST_ACCESSES,
        Table::View => MOST_VIEWS,
    }
}

// ---- the fields of each table, in their order

// Model and name, then group, storage, status.
fn mapping_form(i: usize) -> Form
    requires { i < 5 }
    ensures { field_of result ≡ field_in (mapping_key ++ mapping_rest) i }
{
    match i {
        0 => Form::Large(1, MODEL_MAX),
        1 => Form::Name(1, 32),
        2 => Form::Name(1, 32),
        3 => Form::Small(VOLATILE, READ_ONLY),
        _ => Form::Small(ACTIVE, NOT_IN_SERVICE),
    }
}

// Group, prefix, model and level, then match, three view names, storage, status.
fn access_form(i: usize) -> Form
    requires { i < 10 }
    ensures { field_of result ≡ field_in (access_key ++ access_rest) i }
{
    match i {
        0 => Form::Name(1, 32),
        1 => Form::Name(0, 32),
        2 => Form::Large(0, MODEL_MAX),
        3 => Form::Small(NO_AUTH_NO_PRIV, AUTH_PRIV),
        4 => Form::Small(1, 2),
        5 => Form::Name(0, 32),
        6 => Form::Name(0, 32),
        7 => Form::Name(0, 32),
        8 => Form::Small(VOLATILE, READ_ONLY),
        _ => Form::Small(ACTIVE, NOT_IN_SERVICE),
    }
}

// Name and subtree, then mask, type, storage, status.
fn view_form(i: usize) -> Form
    requires { i < 6 }
    ensures { field_of result ≡ field_in (view_key ++ view_rest) i }
{
    match i {
        0 => Form::Name(1, 32),
        1 => Form::Subtree(1, 64),
        2 => Form::Name(0, 16),
        3 => Form::Small(1, 2),
        4 => Form::Small(VOLATILE, READ_ONLY),
        _ => Form::Small(ACTIVE, NOT_IN_SERVICE),
    }
}

// The form of the field at place `i` of a row.
#[tactic(auto, unfolding(crate::specs::Rows::row_fields))]
pub fn form_at(t: Table, i: usize) -> Form
    requires { i < length (row_fields t) }
    ensures { field_of result ≡ field_in (row_fields t) i }
{
    match t {
        Table::Context => Form::Name(0, 32),
        Table::Mapping => mapping_form(i),
        Table::Access => access_form(i),
        Table::View => view_form(i),
    }
}

// How many fields a key has.
#[tactic(auto, unfolding(crate::specs::Rows::key_fields))]
pub fn key_len(t: Table) -> usize
    ensures { result ≡ length (key_fields t) }
{
    match t {
        Table::Context => 1,
        Table::Mapping => 2,
        Table::Access => 4,
        Table::View => 2,
    }
}

// How many fields a row has. By hand beside `key_len`: the two share no number, and as one function it would be the same two matches.
#[tactic(auto, unfolding(crate::specs::Rows::row_fields))]
pub fn row_len(t: Table) -> usize
    ensures { result ≡ length (row_fields t) }
{
    match t {
        Table::Context => 1,
        Table::Mapping => 5,
        Table::Access => 10,
        Table::View => 6,
    }
}

// ---- a row's bytes judged

// Whether a number is in its range.
pub fn within(lo: usize, hi: usize, x: usize) -> bool
    ensures { result ≡ within lo hi x }
{
    (lo <= x) & (x <= hi)
}

// A count byte from `lo` to `hi` and as many parts of `size` bytes.
#[tactic(auto, using(crate::proofs::Steps::steps))]
fn sequence(row: &[u8], at: usize, size: usize, lo: usize, hi: usize) -> Result<usize, Fault>
    requires inside { at ≤ length row.now }
    requires few { size ≤ 4 }
    ensures { result ≡ sequence_step size lo hi row.now at }
{
    if row.len() <= at {
        return Err(Fault::Torn);
    }
    let n = numbers::wide(row[at]);
    if !within(lo, hi, n) {
        return Err(Fault::OutOfRange);
    }
    let t = 1 + n * size;
    if row.len() - at < t {
        return Err(Fault::Torn);
    }
    Ok(at + t)
}

// A number of four bytes from `lo` to `hi`.
#[tactic(auto, using(crate::proofs::Steps::steps))]
fn large(row: &[u8], at: usize, lo: usize, hi: usize) -> Result<usize, Fault>
    requires { at ≤ length row.now }
    ensures { result ≡ integer_step quad lo hi row.now at }
{
    if row.len() - at < 4 {
        return Err(Fault::Torn);
    }
    let n = numbers::quad_at(row, at);
    if !within(lo, hi, n) {
        return Err(Fault::OutOfRange);
    }
    Ok(at + 4)
}

// The field of a form at `at`: where the next begins.
fn field(f: Form, row: &[u8], at: usize) -> Result<usize, Fault>
    requires { at ≤ length row.now }
    ensures { result ≡ field_step (field_of f) row.now at }
{
    match f {
        Form::Name(lo, hi) => sequence(row, at, 1, lo as usize, hi as usize),
        Form::Subtree(lo, hi) => sequence(row, at, 4, lo as usize, hi as usize),
        Form::Large(lo, hi) => large(row, at, lo as usize, hi as usize),
        // a number of one byte is a count of parts that take none
        Form::Small(lo, hi) => sequence(row, at, 0, lo as usize, hi as usize),
    }
}

// The fields from place `from` to before place `to`, the first of them at `at`: where they end.
fn fields(t: Table, from: usize, to: usize, row: &[u8], at: usize) -> Result<usize, Fault>
    requires fields { to ≤ length (row_fields t) }
    requires inside { at ≤ length row.now }
    ensures { result ≡ fields_step (drop from (take to (row_fields t))) row.now at }
{
    let mut a = at;
    for i in from..to {
        a = field(form_at(t, i), row, a)?;
    }
    Ok(a)
}

// Where the row's key ends, if its fields end with the row.
#[tactic(auto, using(crate::proofs::Steps::steps))]
fn whole(row: &[u8], end: usize, key: usize) -> Result<usize, Fault>
    ensures { result ≡ reached (faults [] (drop end row.now)) key }
{
    if end < row.len() {
        return Err(Fault::Torn);
    }
    Ok(key)
}

// The key at the front of a row, or by itself, judged: where it ends.
#[tactic(auto, using(crate::proofs::Forms::places))]
pub fn judge_front(t: Table, row: &[u8]) -> Result<usize, Fault>
    ensures { result ≡ fields_step (key_fields t) row.now 0 }
{
    fields(t, 0, key_len(t), row, 0)
}

// The key of a table judged, by itself.
pub fn judge_key(t: Table, key: &[u8]) -> Result<usize, Fault>
    ensures { result ≡ key_step t key.now }
{
    let end = judge_front(t, key)?;
    whole(key, end, end)
}

// The row of a table judged: where its key ends.
pub fn judge(t: Table, row: &[u8]) -> Result<usize, Fault>
    ensures { result ≡ row_step t row.now }
{
    let key = judge_front(t, row)?;
    let end = fields(t, key_len(t), row_len(t), row, key)?;
    whole(row, end, key)
}
