// What the tables let a principal do: its edit is judged as a write in the empty context at each column that it writes.
#![tactic(auto)]

ghost use Rattle.std.specs.Prelude.{◌≡◌, ◌+◌, ◌≤◌, ◌<◌, length, set};
ghost use Rattle.std.proofs.Math.Option.{none};
ghost use Rattle.rows.specs.Fields.{faults};
ghost use Rattle.rows.specs.Rows.{key_fields, index_of};
ghost use Rattle.image_judge.specs.Faults.{SoundLayout};
ghost use Rattle.decision_steps.specs.Request.{most_parts};
ghost use Rattle.decision_steps.specs.Decision.{step5};
ghost use Rattle.decision_parts.specs.Parts.{ViewIn, rows_of};
ghost use Rattle.instance_encode.specs.Instances.{counted, instance, status_column};
ghost use Rattle.edit_rules.specs.Edits.{caller_of, is_context, columns_written, first_refusal};
ghost use Rattle.edit_rights.specs.Admission.{admission};
ghost use Rattle.edit_rights.specs.Standing.{StandingIn, judged_by, Stands};

use answers::{Cause, Decision, Fault, Refusal};
use decision::MOST_PARTS;
use decision_parts::NamedView;
use image_layout::Layout;
use instance_encode::Columns;
use rows::{Shape, Table};

const WRITE: u32 = 2;

fn is_context(t: Table) -> bool
    ensures { result ≡ is_context t }
{
    t == Table::Context
}

fn status_column(t: Table) -> u8
    ensures { result ≡ status_column t }
{
    match t {
        Table::Context => 1,
        Table::Mapping => 5,
        Table::Access => 9,
        Table::View => 6,
    }
}

// ---- the columns that an edit writes

// A put writes all of the table's, a removal the status.
fn columns_written(s: Shape, t: Table) -> Columns
    ensures written { counted result.first result.count ≡ columns_written s t }
    ensures few { result.first + result.count ≤ 10 }
{
    match s {
        Shape::Row => instance_encode::columns_of(t),
        Shape::Key => Columns {
            first: status_column(t),
            count: 1,
        },
    }
}

// The first refusal by the view of a variable, with each of these columns in turn at one of its places.
fn judge_columns(
    w: &[u8],
    v: NamedView,
    variable: &mut [u32],
    at: usize,
    columns: Columns,
) -> Decision
    requires view { ViewIn w.now v }
    requires parts { length variable.old ≤ most_parts }
    requires place { at < length variable.old }
    requires few { columns.first + columns.count ≤ 10 }
    ensures { result ≡ first_refusal (λ column. step5 (set variable.old at column) (rows_of w.now v))
        (counted columns.first columns.count) }
{
    let first = columns.first as usize;
    for column in first..first + columns.count {
        variable[at] = column as u32;
        let judged = decision::decide_variable_in(w, v, variable);
        let Decision::Allowed = judged else {
            return judged;
        };
    }
    Decision::Allowed
}

// The edit of the row with this key, judged by the view. An instance has no more than 110 parts.
fn judge_in(w: &[u8], v: NamedView, s: Shape, t: Table, key: &[u8]) -> Decision
    requires view { ViewIn w.now v }
    requires whole { faults (key_fields t) key.now ≡ none }
    ensures { result ≡ first_refusal (λ column. step5 (instance t column (index_of t key.now)) (rows_of w.now v))
        (columns_written s t) }
{
    let columns = columns_written(s, t);
    let mut parts = [0u32; MOST_PARTS];
    // never met: a whole key always has an instance, and it fits
    let Ok(n) = instance_encode::encode(t, columns.first as u32, key, &mut parts) else {
        return Decision::Refused(Cause::NotInView);
    };
    judge_columns(
        w,
        v,
        &mut parts[0..n],
        instance_encode::base_len(t),
        columns,
    )
}

// A caller's standing: steps 1 to 4, the same for all its edits.
pub fn standing_of(
    w: &[u8],
    l: Layout,
    security_model: u32,
    security_name: &[u8],
    security_level: u32,
) -> Result<NamedView, Cause>
    requires { SoundLayout w.now l }
    ensures { Stands w.now l (caller_of security_model security_name.now security_level) result }
{
    let context = [0u8; 1];
    let authorized = decision_parts::authorize(
        w,
        l,
        security_model as usize,
        security_name,
        security_level as usize,
        WRITE,
        &context[0..0],
    );
    authorized.standing
}

// The edit judged by a standing: step 5 at each column.
fn judge_by(
    w: &[u8],
    standing: Result<NamedView, Cause>,
    s: Shape,
    t: Table,
    key: &[u8],
) -> Decision
    requires standing { StandingIn w.now standing }
    requires whole { faults (key_fields t) key.now ≡ none }
    ensures { result ≡ judged_by w.now standing s t (index_of t key.now) }
{
    match standing {
        Ok(v) => judge_in(w, v, s, t, key),
        Err(cause) => Decision::Refused(cause),
    }
}

// ---- admission

// The edit of the row with this key, admitted or denied: a context row's to nobody, any other's as the tables say.
pub fn admit(
    w: &[u8],
    standing: Result<NamedView, Cause>,
    s: Shape,
    t: Table,
    key: &[u8],
) -> Result<(), Refusal>
    requires standing { StandingIn w.now standing }
    requires whole { faults (key_fields t) key.now ≡ none }
    ensures { result ≡ admission (is_context t) (judged_by w.now standing s t (index_of t key.now)) }
{
    if is_context(t) {
        return Err(Refusal::Faulty(Fault::ContextTable));
    }
    match judge_by(w, standing, s, t, key) {
        Decision::Allowed => Ok(()),
        Decision::Refused(cause) => Err(Refusal::Barred(cause)),
    }
}
