// An answer explained: the decision, and the rows that its steps picked, copied from where they lie in the image into lent rooms.
#![tactic(auto)]

ghost use Rattle.std.specs.Prelude.{◌≡◌, ◌≤◌, length};
ghost use Rattle.numbers.specs.Lists.{OnSome};
ghost use Rattle.rows.specs.Rows.{row_max};
ghost use Rattle.image_judge.specs.Faults.{SoundLayout, tables_at};
ghost use Rattle.decision_steps.specs.Request.{asked, most_parts};
ghost use Rattle.decision_find.specs.Found.{bytes_at, FoundIn};
ghost use Rattle.decision_parts.specs.Parts.{saying, StandingIn};
ghost use Rattle.explain_rules.specs.Explanation.{explained, shown, lent, rooms_of, HandsBack, Explains};
ghost use Rattle.explain.specs.Judges.{Judges};

use answers::{Answer, Cause, Decision};
use decision_parts::NamedView;
use explain_rules::Explained;
use image_layout::Layout;
use rows::ROW_MAX;

// ---- step 5

// The decision, and the view row that it was made by.
#[derive(Clone, Copy)]
pub struct Judged {
    pub view: Option<(usize, usize)>,
    pub decision: Decision,
}

// The decision on a variable, no more than 128 parts, by what steps 1 to 4 came to.
fn judge(w: &[u8], standing: Result<NamedView, Cause>, variable_name: &[u32]) -> Judged
    requires view { StandingIn w.now standing }
    requires parts { length variable_name.now ≤ most_parts }
    ensures { Judges w.now variable_name.now (saying w.now standing) result }
{
    match standing {
        Err(cause) => Judged {
            view: None, // where there is no view, no row of one decides
            decision: Decision::Refused(cause),
        },
        Ok(v) => {
            let view = decision::variable_row_in(w, v, variable_name);
            let decision = decision_parts::by_row(w, view);
            Judged { view, decision }
        }
    }
}

// ---- the rows

// Copies the row found, if one was, to the front of `room`.
fn show(w: &[u8], row: Option<(usize, usize)>, room: &mut [u8]) -> Option<usize>
    requires lies { FoundIn w.now row }
    requires room { OnSome (λ v. length v ≤ length room.old) (bytes_at w.now row) }
    ensures counts { result ≡ shown (bytes_at w.now row) }
    ensures lays { room.new ≡ lent (bytes_at w.now row) room.old }
{
    let Some((at, end)) = row else {
        return None;
    };
    splice::copy_in(room, 0, &w[at..end]);
    Some(end - at)
}

// ---- the call

// The explanation on tables that are known to be sound, of a request in its ranges.
fn explain_rows(
    w: &[u8],
    l: Layout,
    security_model: u32,
    security_name: &[u8],
    security_level: u32,
    view_type: u32,
    context_name: &[u8],
    variable_name: &[u32],
    mapping: &mut [u8],
    access: &mut [u8],
    view: &mut [u8],
) -> Explained
    requires tables { SoundLayout w.now l }
    requires parts { length variable_name.now ≤ most_parts }
    requires mapping { row_max ≤ length mapping.old }
    requires access { row_max ≤ length access.old }
    requires view { row_max ≤ length view.old }
    ensures { HandsBack
        (explained (tables_at w.now l)
        (asked security_model security_name.now security_level view_type context_name.now variable_name.now))
        (rooms_of mapping.old access.old view.old)
        (rooms_of mapping.new access.new view.new) result }
{
    let authorized = decision_parts::authorize(
        w,
        l,
        security_model as usize,
        security_name,
        security_level as usize,
        view_type,
        context_name,
    );
    let judged = judge(w, authorized.standing, variable_name);
    let mapping_row = authorized.mapping;
    let access_row = authorized.access;
    let view_row = judged.view;
    let decision = judged.decision;
    let mapping_shown = show(w, mapping_row, mapping);
    let access_shown = show(w, access_row, access);
    let view_shown = show(w, view_row, view);
    Explained {
        answer: Ok(decision),
        mapping: mapping_shown,
        access: access_shown,
        view: view_shown,
    }
}

// The answer to a request and the rows behind it, each whole at the front of its room; a room whose row is not shown is left as found.
pub fn explain(
    store: &[u8],
    security_model: u32,
    security_name: &[u8],
    security_level: u32,
    view_type: u32,
    context_name: &[u8],
    variable_name: &[u32],
    mapping: &mut [u8; ROW_MAX],
    access: &mut [u8; ROW_MAX],
    view: &mut [u8; ROW_MAX],
) -> Explained
    ensures { Explains
        (asked security_model security_name.now security_level view_type context_name.now variable_name.now)
        store.now
        (rooms_of mapping.old access.old view.old)
        (rooms_of mapping.new access.new view.new) result }
{
    let legal = decision::in_range(
        security_model,
        security_name.len(),
        security_level,
        view_type,
        context_name.len(),
        variable_name.len(),
    );
    match image::survey_call(store, legal) {
        Ok(l) => explain_rows(
            store,
            l,
            security_model,
            security_name,
            security_level,
            view_type,
            context_name,
            variable_name,
            mapping,
            access,
            view,
        ),
        Err(f) => Explained {
            answer: Err(f),
            mapping: None,
            access: None,
            view: None,
        },
    }
}
