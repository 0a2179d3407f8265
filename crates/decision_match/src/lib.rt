// The rows that decide, handed back: of a view the row that decides on a variable, of the access rows the one chosen for a group. The key comes back
// in the form of the image, its fields' bytes one after the other, as the decoder hands it back.
#![tactic(auto)]

ghost use Rattle.std.specs.Prelude.{◌≡◌, map, ◌≤◌, length, take};
ghost use Rattle.numbers.specs.Laid.{laid};
ghost use Rattle.rows.specs.declared.Table.TheVariants.{Access, View};
ghost use Rattle.rows.specs.Fields.{span};
ghost use Rattle.rows.specs.Rows.{key_fields, key_max, access_of};
ghost use Rattle.image_layout.specs.Layout.{rows_in};
ghost use Rattle.image_judge.specs.Faults.{SoundTable};
ghost use Rattle.decision_steps.specs.Request.{most_parts};
ghost use Rattle.decision_steps.specs.Decision.{chosen_access, chosen_view};
ghost use Rattle.decision_steps.specs.Bytes.{Whole};
ghost use Rattle.decision_find.specs.Found.{rows_of_view};
ghost use Rattle.decision_match.specs.Matches.{chosen, legal_view, legal_access, HandsView, HandsAccess, MatchesView, MatchesAccess};
ghost use Rattle.decision_match.specs.Numbers.{view_match_number, access_match_number};

use answers::Fault;
use decision::{AUTH_PRIV, LONGEST_NAME, MOST_PARTS, NO_AUTH_NO_PRIV};
use decision_find::ViewRows;
use image_layout::Extent;
use rows::{KEY_MAX, MODEL_MAX, Table};

// The number of document 01 for an answer.
pub fn view_match_number(m: Result<Option<(usize, u8)>, Fault>) -> u32
    ensures { result ≡ view_match_number m }
{
    answers::result_number(m)
}

// The number of document 01 for an answer.
pub fn access_match_number(m: Result<Option<usize>, Fault>) -> u32
    ensures { result ≡ access_match_number m }
{
    answers::result_number(m)
}

// ---- a row's key

// Puts the key of a row at the front of `key`: its length.
fn hand_key(t: Table, row: &[u8], key: &mut [u8]) -> usize
    requires whole { Whole t row.now }
    requires room { key_max ≤ length key.old }
    ensures counts { result ≡ span (key_fields t) row.now }
    ensures lays { key.new ≡ laid 0 (take result row.now) key.old }
{
    let Ok(n) = rows::judge_front(t, row) else {
        // a row of a sound store is whole
        return 0;
    };
    splice::copy_in(key, 0, &row[0..n]);
    n
}

// ---- step 5

fn is_legal_view(view_name: usize, variable_name: usize) -> bool
    ensures { result ≡ legal_view view_name variable_name }
{
    (1..=LONGEST_NAME).contains(&view_name) && (1..=MOST_PARTS).contains(&variable_name)
}

// Among the rows of a sound table.
fn view_row(
    w: &[u8],
    x: Extent,
    view_name: &[u8],
    variable_name: &[u32],
    key: &mut [u8],
) -> Result<Option<(usize, u8)>, Fault>
    requires rows { SoundTable View w.now x }
    requires parts { length variable_name.now ≤ most_parts }
    requires room { key_max ≤ length key.old }
    ensures { HandsView
        (chosen (chosen_view variable_name.now (rows_of_view view_name.now w.now x)))
        key.old key.new result }
{
    let end = image_layout::end_of(w, x);
    let rows = ViewRows { rows: x, end };
    let Some((at, to)) = decision::variable_row(w, rows, view_name, variable_name) else {
        return Ok(None);
    };
    let k = hand_key(Table::View, &w[at..to], key);
    Ok(Some((k, decision_views::family_type(&w[at..to]))))
}

// The row of a view that decides on the variable; its key at the front of `key`.
pub fn match_view(
    store: &[u8],
    view_name: &[u8],
    variable_name: &[u32],
    key: &mut [u8; KEY_MAX],
) -> Result<Option<(usize, u8)>, Fault>
    ensures { MatchesView store.now view_name.now variable_name.now key.old key.new result }
{
    let l = image::survey_call(store, is_legal_view(view_name.len(), variable_name.len()))?;
    view_row(store, l.views, view_name, variable_name, key)
}

// ---- step 3

fn is_legal_access(
    group_name: usize,
    context_name: usize,
    security_model: u32,
    security_level: u32,
) -> bool
    ensures { result ≡ legal_access group_name context_name security_model security_level }
{
    (1..=LONGEST_NAME).contains(&group_name)
        && context_name <= LONGEST_NAME
        && (1..=MODEL_MAX).contains(&security_model)
        && (NO_AUTH_NO_PRIV..=AUTH_PRIV).contains(&security_level)
}

// Among the rows of a sound table.
fn access_row(
    w: &[u8],
    x: Extent,
    group_name: &[u8],
    context_name: &[u8],
    security_model: u32,
    security_level: u32,
    key: &mut [u8],
) -> Result<Option<usize>, Fault>
    requires rows { SoundTable Access w.now x }
    requires room { key_max ≤ length key.old }
    ensures { HandsAccess
        (chosen (chosen_access group_name.now security_model security_level context_name.now
        (map access_of (rows_in w.now x))))
        key.old key.new result }
{
    let found = decision_find::find_access(
        w,
        x,
        group_name,
        security_model as usize,
        security_level as usize,
        context_name,
    );
    let Some((at, end)) = found else {
        return Ok(None);
    };
    Ok(Some(hand_key(Table::Access, &w[at..end], key)))
}

// The access row chosen for the group, the context, the model and the level; its key at the front of `key`.
pub fn match_access(
    store: &[u8],
    group_name: &[u8],
    context_name: &[u8],
    security_model: u32,
    security_level: u32,
    key: &mut [u8; KEY_MAX],
) -> Result<Option<usize>, Fault>
    ensures { MatchesAccess store.now group_name.now context_name.now security_model security_level
        key.old key.new result }
{
    let legal = is_legal_access(
        group_name.len(),
        context_name.len(),
        security_model,
        security_level,
    );
    let l = image::survey_call(store, legal)?;
    access_row(
        store,
        l.accesses,
        group_name,
        context_name,
        security_model,
        security_level,
        key,
    )
}
