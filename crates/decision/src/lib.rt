// The decision of RFC 3415, section 3.2, over the bytes of a table image where they lie.
#![tactic(auto)]

ghost use Rattle.std.specs.Prelude.{◌≡◌, ◌≤◌, length};
ghost use Rattle.rows.specs.declared.Table.TheVariants.{View};
ghost use Rattle.rows.specs.Rows.{view_of};
ghost use Rattle.image_judge.specs.Faults.{SoundLayout, tables_at};
ghost use Rattle.decision_steps.specs.Request.{asked, in_range, most_parts};
ghost use Rattle.decision_steps.specs.Decision.{chosen_view, step5, decision, answer_on};
ghost use Rattle.decision_steps.specs.Bytes.{identifier};
ghost use Rattle.decision_find.specs.Found.{Chosen, RowsTo, rows_of_view};
ghost use Rattle.decision_parts.specs.Parts.{ViewIn, rows_of};
ghost use Rattle.decision.specs.Decides.{Decides};

use answers::{Answer, Decision, Fault};
use decision_find::ViewRows;
use decision_parts::NamedView;
use image_layout::Layout;
use rows::MODEL_MAX;

// The ranges of a request: the levels from noAuthNoPriv to authPriv, the view types from read to notify, a name's octets, and a variable's parts and bytes.

pub const NO_AUTH_NO_PRIV: u32 = 1;

pub const AUTH_PRIV: u32 = 3;

const READ: u32 = 1;

const NOTIFY: u32 = 3;

pub const LONGEST_NAME: usize = 32;

pub const MOST_PARTS: usize = 128;

const MOST_BYTES: usize = 512;

// ---- the decision by its two parts

// The decision on tables that are known to be sound. The variable is in parts of 4 bytes.
pub fn decide(
    w: &[u8],
    l: Layout,
    security_model: usize,
    security_name: &[u8],
    security_level: usize,
    view_type: u32,
    context_name: &[u8],
    variable: &[u8],
) -> Decision
    requires { SoundLayout w.now l }
    ensures { result ≡ decision (tables_at w.now l)
        (asked security_model security_name.now security_level view_type context_name.now
        (identifier variable.now)) }
{
    let authorized = decision_parts::authorize(
        w,
        l,
        security_model,
        security_name,
        security_level,
        view_type,
        context_name,
    );
    match authorized.standing {
        Ok(v) => decision_parts::decide_in(w, v, variable),
        Err(cause) => Decision::Refused(cause),
    }
}

// The row that decides on a variable in numbers, no more than 128 of them, among rows that hold all of the view.
pub fn variable_row(
    w: &[u8],
    rows: ViewRows,
    view_name: &[u8],
    variable_name: &[u32],
) -> Option<(usize, usize)>
    requires rows { RowsTo w.now rows }
    requires parts { length variable_name.now ≤ most_parts }
    ensures { Chosen View view_of w.now result
        (chosen_view variable_name.now (rows_of_view view_name.now w.now rows.rows)) }
{
    let mut bytes = [0u8; MOST_BYTES];
    let n = 4 * variable_name.len();
    numbers::put_quads(&mut bytes[0..n], variable_name);
    decision_find::find_view_row(w, rows, view_name, &bytes[0..n])
}

// The same of a view whose name lies in the image.
pub fn variable_row_in(w: &[u8], v: NamedView, variable_name: &[u32]) -> Option<(usize, usize)>
    requires view { ViewIn w.now v }
    requires parts { length variable_name.now ≤ most_parts }
    ensures { Chosen View view_of w.now result (chosen_view variable_name.now (rows_of w.now v)) }
{
    variable_row(w, v.rows, &w[v.from..v.to], variable_name)
}

// Step 5 of such a variable: the decision on it by the view.
pub fn decide_variable_in(w: &[u8], v: NamedView, variable_name: &[u32]) -> Decision
    requires view { ViewIn w.now v }
    requires parts { length variable_name.now ≤ most_parts }
    ensures { result ≡ step5 variable_name.now (rows_of w.now v) }
{
    decision_parts::by_row(w, variable_row_in(w, v, variable_name))
}

// The decision on tables that are known to be sound, of a variable in numbers, no more than 128 of them.
pub fn decide_variable(
    w: &[u8],
    l: Layout,
    security_model: u32,
    security_name: &[u8],
    security_level: u32,
    view_type: u32,
    context_name: &[u8],
    variable_name: &[u32],
) -> Decision
    requires tables { SoundLayout w.now l }
    requires parts { length variable_name.now ≤ most_parts }
    ensures { result ≡ decision (tables_at w.now l)
        (asked security_model security_name.now security_level view_type context_name.now variable_name.now) }
{
    let authorized = decision_parts::authorize(
        w,
        l,
        security_model as usize,
        security_name,
        security_level as usize,
        view_type,
        context_name,
    );
    match authorized.standing {
        Ok(v) => decide_variable_in(w, v, variable_name),
        Err(cause) => Decision::Refused(cause),
    }
}

// ---- the call

// Whether the numbers of a request, and the lengths of its names and its variable, are in their ranges.
pub fn in_range(
    security_model: u32,
    security_name: usize,
    security_level: u32,
    view_type: u32,
    context_name: usize,
    variable: usize,
) -> bool
    ensures { result ≡ in_range security_model security_name security_level view_type context_name variable }
{
    (1..=MODEL_MAX).contains(&security_model)
        && (1..=LONGEST_NAME).contains(&security_name)
        && (NO_AUTH_NO_PRIV..=AUTH_PRIV).contains(&security_level)
        && (READ..=NOTIFY).contains(&view_type)
        && context_name <= LONGEST_NAME
        && (1..=MOST_PARTS).contains(&variable)
}

// The answer to a request on tables that are known to be sound: a field out of its range, or the decision.
pub fn answer_request(
    w: &[u8],
    l: Layout,
    security_model: u32,
    security_name: &[u8],
    security_level: u32,
    view_type: u32,
    context_name: &[u8],
    variable_name: &[u32],
) -> Answer
    requires { SoundLayout w.now l }
    ensures { result ≡ answer_on (tables_at w.now l)
        (asked security_model security_name.now security_level view_type context_name.now variable_name.now) }
{
    if !in_range(
        security_model,
        security_name.len(),
        security_level,
        view_type,
        context_name.len(),
        variable_name.len(),
    ) {
        return Err(Fault::OutOfRange);
    }
    Ok(decide_variable(
        w,
        l,
        security_model,
        security_name,
        security_level,
        view_type,
        context_name,
        variable_name,
    ))
}

// RFC 3415's isAccessAllowed: may the principal read, write or be notified of the variable?
#[tactic(auto, using(crate::proofs::Answers::unsound))]
pub fn is_access_allowed(
    store: &[u8],
    security_model: u32,
    security_name: &[u8],
    security_level: u32,
    view_type: u32,
    context_name: &[u8],
    variable_name: &[u32],
) -> Answer
    ensures { Decides
        (asked security_model security_name.now security_level view_type context_name.now variable_name.now)
        store.now result }
{
    let l = image::survey_store(store)?;
    answer_request(
        store,
        l,
        security_model,
        security_name,
        security_level,
        view_type,
        context_name,
        variable_name,
    )
}
