// A view row beside a variable: RFC 3415, section 3.2, step 5, on the row's bytes where they lie.
#![tactic(auto)]

ghost use Rattle.std.specs.Prelude.{◌≡◌, ◌%◌, length};
ghost use Rattle.rows.specs.declared.Table.TheVariants.{View};
ghost use Rattle.rows.specs.Rows.{view_of};
ghost use Rattle.decision_steps.specs.Decision.{in_view, mask_bit, agrees};
ghost use Rattle.decision_steps.specs.Bytes.{Whole, identifier};
ghost use Rattle.decision_views.specs.Matching.{matching};

// A view row's type; the other is excluded.
pub const INCLUDED: u8 = 1;

// Bit `i` of the mask, the highest bit of the first octet first; a missing bit is 1.
fn mask_bit(mask: &[u8], i: usize) -> bool
    ensures { result ≡ mask_bit mask.now i }
{
    let k = i / 8;
    if mask.len() <= k {
        return true;
    }
    (mask[k] >> (7 - i % 8)) & 1 == 1
}

// Whether the variable agrees with the subtree wherever the mask bit is 1. Subtrees of a view mostly differ at their end, so the last part
// is looked at first; parts in front that are the same need no look at the mask.
fn is_below(subtree: &[u8], mask: &[u8], variable: &[u8]) -> bool
    requires { length subtree.now % 4 ≡ 0 }
    ensures { result ≡ agrees mask.now 0 (identifier subtree.now) (identifier variable.now) }
{
    let n = subtree.len();
    if variable.len() < n {
        return false;
    }
    if 4 <= n {
        let last = n - 4;
        if !octets::same_four(subtree, variable, last) {
            if mask_bit(mask, last / 4) {
                return false;
            }
        }
    }
    let first = octets::skip(subtree, variable, 0, n) / 4;
    for i in first..n / 4 {
        let k = 4 * i;
        if !octets::same_four(subtree, variable, k) {
            if mask_bit(mask, i) {
                return false;
            }
        }
    }
    true
}

// Whether a view row is active and of the view of the name.
pub fn is_in_view(row: &[u8], view_name: &[u8]) -> bool
    requires { Whole View row.now }
    ensures { result ≡ in_view view_name.now (view_of row.now) }
{
    if !decision_steps::is_name(row, 0, view_name) {
        return false;
    }
    decision_steps::is_active(row)
}

// Whether a view row is in the view of the name and matches the variable, which is in parts of 4 bytes. The subtree is looked at first, since rows
// of one view differ in it and share the name.
pub fn is_matching(row: &[u8], view_name: &[u8], variable: &[u8]) -> bool
    requires { Whole View row.now }
    ensures { result ≡ matching view_name.now (identifier variable.now) (view_of row.now) }
{
    let s = decision_steps::after(row, 0);
    let from = s + 1;
    let mask = from + 4 * numbers::wide(row[s]);
    let bits = mask + 1;
    let end = decision_steps::after(row, mask);
    if !is_below(&row[from..mask], &row[bits..end], variable) {
        return false;
    }
    is_in_view(row, view_name)
}

// A view row's type: the last octet but two.
pub fn family_type(row: &[u8]) -> u8
    requires { Whole View row.now }
    ensures { result ≡ (view_of row.now).family_type }
{
    let at = row.len() - 3;
    row[at]
}
