// One row beside a request: the tests of RFC 3415, section 3.2, steps 1 to 4, on a row's bytes where they lie.
#![tactic(auto)]

ghost use Rattle.std.specs.Prelude.{◌≡◌, ◌+◌, ◌-◌, ◌≤◌, ◌<◌, length, get_or};
ghost use Rattle.numbers.specs.Order.{same};
ghost use Rattle.rows.specs.declared.Table.TheVariants.{Context, Mapping, Access};
ghost use Rattle.rows.specs.Rows.{context_of, mapping_of, access_of};
ghost use Rattle.decision_steps.specs.Decision.{is_active, bears_context, maps_principal, context_fits, view_for};
ghost use Rattle.decision_steps.specs.Bytes.{Whole, NameIn, name_at, After, NamedAt, rank_of};

// These stay numbers and are no enums: a row's octets and an agent's request hand numbers that may be out of range, which document 01 answers by 7.

// A row's status (RowStatus): only active rows take part.
const ACTIVE: u8 = 1;

// An access row's context match.
const EXACT: u8 = 1;

// The model of an access row that serves every model.
const ANY_MODEL: usize = 0;

// The view types of a request; a third is notify.
const READ: u32 = 1;

const WRITE: u32 = 2;

// ---- fields of a row

// Where the field after the name at `at` begins.
pub fn after(row: &[u8], at: usize) -> usize
    requires { NameIn row.now at }
    ensures { After row.now at result }
{
    at + 1 + numbers::wide(row[at])
}

// Whether the name at `at` of the row is `name`.
pub fn is_name(row: &[u8], at: usize, name: &[u8]) -> bool
    requires { NameIn row.now at }
    ensures { result ≡ same (name_at row.now at) name.now }
{
    let from = at + 1;
    let end = from + numbers::wide(row[at]);
    octets::are_same(&row[from..end], name)
}

// Whether the row is active: the status is the last octet of a row.
pub fn is_active(row: &[u8]) -> bool
    requires { 1 ≤ length row.now }
    ensures { result ≡ is_active (get_or row.now (length row.now - 1) 0) }
{
    let last = row.len() - 1;
    row[last] == ACTIVE
}

// ---- step 1

// Whether a context row is that of the context.
pub fn bears_context(row: &[u8], context_name: &[u8]) -> bool
    requires { Whole Context row.now }
    ensures { result ≡ bears_context context_name.now (context_of row.now) }
{
    is_name(row, 0, context_name)
}

// ---- step 2

// Whether a mapping row is active and that of the principal.
pub fn maps_principal(row: &[u8], security_model: usize, security_name: &[u8]) -> bool
    requires { Whole Mapping row.now }
    ensures { result ≡ maps_principal security_model security_name.now (mapping_of row.now) }
{
    if numbers::quad_at(row, 0) != security_model {
        return false;
    }
    if !is_name(row, 4, security_name) {
        return false;
    }
    is_active(row)
}

// Where the group's name lies in a mapping row.
pub fn group_at(row: &[u8]) -> usize
    requires { Whole Mapping row.now }
    ensures { NamedAt row.now result (mapping_of row.now).group_name }
{
    after(row, 4)
}

// ---- step 3

// Whether the prefix at `at` of the row fits the context, by the match octet at `matching`.
fn fits(row: &[u8], at: usize, matching: usize, context_name: &[u8]) -> bool
    requires prefix { NameIn row.now at }
    requires octet { matching < length row.now }
    ensures { result ≡ context_fits (get_or row.now matching 0) (name_at row.now at) context_name.now }
{
    if row[matching] == EXACT {
        return is_name(row, at, context_name);
    }
    let k = numbers::wide(row[at]);
    if context_name.len() < k {
        return false;
    }
    is_name(row, at, &context_name[0..k])
}

// An access row's rank among the candidates for the group, the model, the level and the context; 0 where it is none of them.
pub fn rank(
    row: &[u8],
    group_name: &[u8],
    security_model: usize,
    security_level: usize,
    context_name: &[u8],
) -> usize
    requires { Whole Access row.now }
    ensures { result ≡ rank_of group_name.now security_model security_level context_name.now (access_of row.now) }
{
    if !is_name(row, 0, group_name) {
        return 0;
    }
    if !is_active(row) {
        return 0;
    }
    let p = after(row, 0);
    let m = after(row, p);
    if !fits(row, p, m + 5, context_name) {
        return 0;
    }
    let least = numbers::wide(row[m + 4]);
    if security_level < least {
        return 0;
    }
    let own = numbers::quad_at(row, m);
    let base = numbers::wide(row[p]) * 4 + least;
    if own == ANY_MODEL {
        return base;
    }
    if own == security_model {
        return 256 + base;
    }
    0
}

// ---- step 4

// Where the name of the view for the view type lies in an access row.
pub fn view_at(row: &[u8], view_type: u32) -> usize
    requires { Whole Access row.now }
    ensures { NamedAt row.now result (view_for view_type (access_of row.now)) }
{
    let p = after(row, 0);
    let read = after(row, p) + 6;
    if view_type == READ {
        return read;
    }
    let write = after(row, read);
    if view_type == WRITE {
        return write;
    }
    after(row, write)
}
