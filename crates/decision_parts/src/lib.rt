// The decision of RFC 3415, section 3.2, in two parts, over the bytes of a table image where they lie: steps 1 to 4, which are the same for every
// variable of a principal, and step 5, the variable in the view.
#![tactic(auto)]

ghost use Rattle.std.specs.Prelude.{◌≡◌, map};
ghost use Rattle.std.proofs.Math.Option;
ghost use Rattle.answers.specs.declared.Cause.TheVariants.{NotInView};
ghost use Rattle.numbers.specs.Lists.{OnSome};
ghost use Rattle.rows.specs.declared.Table.TheVariants.{Mapping, Access, View};
ghost use Rattle.rows.specs.Rows.{mapping_of, access_of, view_of};
ghost use Rattle.image_layout.specs.Layout.{rows_in};
ghost use Rattle.image_judge.specs.Faults.{SoundTable, SoundLayout};
ghost use Rattle.decision_steps.specs.Decision.{chosen_access, view_for, chosen_view, or_refused, by_type, step5};
ghost use Rattle.decision_steps.specs.Bytes.{Whole, identifier};
ghost use Rattle.decision_find.specs.Found.{bytes_at, Lies, FoundIn, Chosen};
ghost use Rattle.decision_parts.specs.Parts.{part, ViewIn, rows_of, over_rows, Says, Authorizes};

use answers::{Cause, Decision};
use decision_find::ViewRows;
use decision_views::INCLUDED;
use image_layout::{Extent, Layout};

// A view: its name lies from `from` to `to` in the image, and `rows` holds all its rows.
#[derive(Clone, Copy)]
pub struct NamedView {
    pub from: usize,
    pub to: usize,
    pub rows: ViewRows,
}

// That, and the rows that steps 2 and 3 chose, as far as the steps got.
#[derive(Clone, Copy)]
pub struct Authorized {
    pub mapping: Option<(usize, usize)>,
    pub access: Option<(usize, usize)>,
    pub standing: Result<NamedView, Cause>,
}

// ---- step 4

// The view whose name lies from `from` to `to`; the empty name means none.
fn by_name(w: &[u8], views: Extent, from: usize, to: usize) -> Result<NamedView, Cause>
    requires name { Lies w.now from to }
    requires rows { SoundTable View w.now views }
    ensures { Says w.now result (over_rows (part w.now from to) (map view_of (rows_in w.now views))) }
{
    if from == to {
        return Err(Cause::NoSuchView);
    }
    let rows = decision_find::find_view(w, views, &w[from..to]);
    if rows.rows.count == 0 {
        return Err(Cause::NoSuchView);
    }
    Ok(NamedView { from, to, rows })
}

// The view that the access row from `at` to `end` names for the view type.
fn by_access(
    w: &[u8],
    views: Extent,
    at: usize,
    end: usize,
    view_type: u32,
) -> Result<NamedView, Cause>
    requires place { Lies w.now at end }
    requires whole { Whole Access (part w.now at end) }
    requires rows { SoundTable View w.now views }
    ensures { Says w.now result
        (over_rows (view_for view_type (access_of (part w.now at end))) (map view_of (rows_in w.now views))) }
{
    let n = decision_steps::view_at(&w[at..end], view_type);
    let m = decision_steps::after(&w[at..end], n);
    by_name(w, views, at + n + 1, at + m)
}

// ---- step 3

// The access row for the group of a mapping row.
fn access_of(
    w: &[u8],
    accesses: Extent,
    row: &[u8],
    security_model: usize,
    security_level: usize,
    context_name: &[u8],
) -> Option<(usize, usize)>
    requires rows { SoundTable Access w.now accesses }
    requires whole { Whole Mapping row.now }
    ensures { Chosen Access access_of w.now result
        (chosen_access (mapping_of row.now).group_name security_model security_level context_name.now
        (map access_of (rows_in w.now accesses))) }
{
    let at = decision_steps::group_at(row);
    let from = at + 1;
    let end = decision_steps::after(row, at);
    decision_find::find_access(
        w,
        accesses,
        &row[from..end],
        security_model,
        security_level,
        context_name,
    )
}

// ---- the first part

// Steps 1 to 4 of a principal, on tables that are known to be sound.
pub fn authorize(
    w: &[u8],
    l: Layout,
    security_model: usize,
    security_name: &[u8],
    security_level: usize,
    view_type: u32,
    context_name: &[u8],
) -> Authorized
    requires { SoundLayout w.now l }
    ensures { Authorizes w.now l security_model security_name.now security_level view_type
        context_name.now result }
{
    if decision_find::find_context(w, l.contexts, context_name).is_none() {
        return Authorized {
            mapping: None,
            access: None,
            standing: Err(Cause::NoSuchContext),
        };
    }
    let mapping = decision_find::find_mapping(w, l.mappings, security_model, security_name);
    let Some((a, e)) = mapping else {
        return Authorized {
            mapping,
            access: None,
            standing: Err(Cause::NoGroupName),
        };
    };
    let access = access_of(
        w,
        l.accesses,
        &w[a..e],
        security_model,
        security_level,
        context_name,
    );
    let Some((b, f)) = access else {
        return Authorized {
            mapping,
            access,
            standing: Err(Cause::NoAccessEntry),
        };
    };
    Authorized {
        mapping,
        access,
        standing: by_access(w, l.views, b, f, view_type),
    }
}

// ---- the second part

// The row of the view that decides on the variable, which is in parts of 4 bytes.
pub fn deciding_row(w: &[u8], v: NamedView, variable: &[u8]) -> Option<(usize, usize)>
    requires { ViewIn w.now v }
    ensures { Chosen View view_of w.now result (chosen_view (identifier variable.now) (rows_of w.now v)) }
{
    decision_find::find_view_row(w, v.rows, &w[v.from..v.to], variable)
}

// What step 5 answers by the row that decides: notInView where none does.
pub fn by_row(w: &[u8], row: Option<(usize, usize)>) -> Decision
    requires lies { FoundIn w.now row }
    requires whole { OnSome (Whole View) (bytes_at w.now row) }
    ensures { result ≡ or_refused NotInView (Option.map view_of (bytes_at w.now row)) by_type }
{
    let Some((at, end)) = row else {
        return Decision::Refused(Cause::NotInView);
    };
    if decision_views::family_type(&w[at..end]) == INCLUDED {
        return Decision::Allowed;
    }
    Decision::Refused(Cause::NotInView)
}

// Step 5: the decision on the variable by the view.
pub fn decide_in(w: &[u8], v: NamedView, variable: &[u8]) -> Decision
    requires { ViewIn w.now v }
    ensures { result ≡ step5 (identifier variable.now) (rows_of w.now v) }
{
    by_row(w, deciding_row(w, v, variable))
}
