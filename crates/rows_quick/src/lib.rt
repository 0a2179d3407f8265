// A legal row told with few branches, its tests joined, where speed counts.
// None or false tells nothing: `rows::judge` says what is wrong, if anything is.
#![tactic(auto)]

ghost use Rattle.std.specs.Prelude.{◌≡◌, ◌+◌, ◌≤◌, ◌<◌, length, get_or};
ghost use Rattle.rows.specs.declared.Table.TheVariants.{Context, Mapping, Access, View};
ghost use Rattle.rows.specs.Rows.{access_rest};
ghost use Rattle.rows.specs.Steps.{row_step};
ghost use Rattle.rows_quick.specs.Quick.{KeyEnd, Fits, ends_well};

use answers::Fault;
use rows::{Table, within};

// Ranges of document 01 as lengths and places are compared.
const MODEL_LAST: usize = rows::MODEL_MAX as usize;

const LEVEL_FIRST: usize = rows::NO_AUTH_NO_PRIV as usize;

const LEVEL_LAST: usize = rows::AUTH_PRIV as usize;

const STORAGE_FIRST: usize = rows::VOLATILE as usize;

const STORAGE_LAST: usize = rows::READ_ONLY as usize;

const STATUS_FIRST: usize = rows::ACTIVE as usize;

const STATUS_LAST: usize = rows::NOT_IN_SERVICE as usize;

// The byte at a place, as a length.
fn byte_at(row: &[u8], at: usize) -> usize
    requires { at < length row.now }
    ensures value { result ≡ get_or row.now at 0 }
    ensures bounded { result < 256 }
{
    numbers::wide(row[at])
}

// A storage and a status as the last bytes.
fn ends_well(row: &[u8]) -> bool
    requires { 2 ≤ length row.now }
    ensures { result ≡ ends_well row.now }
{
    let n = row.len();
    let storage = byte_at(row, n - 2);
    let status = byte_at(row, n - 1);
    within(STORAGE_FIRST, STORAGE_LAST, storage) & within(STATUS_FIRST, STATUS_LAST, status)
}

// A context name, and nothing behind it.
fn context_end(row: &[u8]) -> Option<usize>
    ensures { KeyEnd Context row.now result }
{
    let n = row.len();
    if n < 1 {
        return None;
    }
    let name = byte_at(row, 0);
    ((1 + name == n) & within(0, 32, name)).then_some(n)
}

// Model and security name, then group, storage and status.
fn mapping_end(row: &[u8]) -> Option<usize>
    ensures { KeyEnd Mapping row.now result }
{
    let n = row.len();
    if n < 10 {
        return None;
    }
    let model = numbers::quad_at(row, 0);
    let name = byte_at(row, 4);
    let a = 5 + name;
    if n < a + 4 {
        return None;
    }
    let group = byte_at(row, a);
    let legal = (a + 1 + group + 2 == n)
        & within(1, MODEL_LAST, model)
        & within(1, 32, name)
        & within(1, 32, group)
        & ends_well(row);
    legal.then_some(a)
}

// What follows the key of an access row: the match, three view names, a storage and a status.
fn access_rest_fits(row: &[u8], key: usize) -> bool
    requires { key + 6 ≤ length row.now }
    ensures { Fits access_rest row.now key result }
{
    let n = row.len();
    let exact = byte_at(row, key);
    let read = byte_at(row, key + 1);
    let a = key + 2 + read;
    if n < a + 4 {
        return false;
    }
    let write = byte_at(row, a);
    let b = a + 1 + write;
    if n < b + 3 {
        return false;
    }
    let notify = byte_at(row, b);
    (b + 1 + notify + 2 == n)
        & within(1, 2, exact)
        & within(0, 32, read)
        & within(0, 32, write)
        & within(0, 32, notify)
        & ends_well(row)
}

// Group, prefix, model and level, then what `access_rest_fits` looks at.
fn access_end(row: &[u8]) -> Option<usize>
    ensures { KeyEnd Access row.now result }
{
    let n = row.len();
    if n < 14 {
        return None;
    }
    let group = byte_at(row, 0);
    let a = 1 + group;
    if n < a + 12 {
        return None;
    }
    let prefix = byte_at(row, a);
    let b = a + 1 + prefix;
    if n < b + 11 {
        return None;
    }
    let model = numbers::quad_at(row, b);
    let level = byte_at(row, b + 4);
    let key = b + 5;
    let legal = within(1, 32, group)
        & within(0, 32, prefix)
        & within(0, MODEL_LAST, model)
        & within(LEVEL_FIRST, LEVEL_LAST, level)
        & access_rest_fits(row, key);
    legal.then_some(key)
}

// View name and subtree, then mask, type, storage and status.
fn view_end(row: &[u8]) -> Option<usize>
    ensures { KeyEnd View row.now result }
{
    let n = row.len();
    if n < 11 {
        return None;
    }
    let name = byte_at(row, 0);
    let a = 1 + name;
    if n < a + 9 {
        return None;
    }
    let parts = byte_at(row, a);
    let b = a + 1 + parts * 4;
    if n < b + 4 {
        return None;
    }
    let mask = byte_at(row, b);
    let kind = byte_at(row, n - 3);
    let legal = (b + 1 + mask + 3 == n)
        & within(1, 32, name)
        & within(1, 64, parts)
        & within(0, 16, mask)
        & within(1, 2, kind)
        & ends_well(row);
    legal.then_some(b)
}

// Where the key of a legal row ends.
fn key_end(t: Table, row: &[u8]) -> Option<usize>
    ensures { KeyEnd t row.now result }
{
    match t {
        Table::Context => context_end(row),
        Table::Mapping => mapping_end(row),
        Table::Access => access_end(row),
        Table::View => view_end(row),
    }
}

// A row judged: a legal one by a quick look at its lengths and its end, any other field by field.
pub fn judge_row(t: Table, row: &[u8]) -> Result<usize, Fault>
    ensures { result ≡ row_step t row.now }
{
    match key_end(t, row) {
        Some(k) => Ok(k),
        None => rows::judge(t, row),
    }
}
