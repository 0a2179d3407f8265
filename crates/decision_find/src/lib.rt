// The rows that RFC 3415, section 3.2, chooses, found over the bytes of a table image where they lie: each table's rows are passed once at most.
#![tactic(auto)]

ghost use Rattle.std.specs.Prelude.{map};
ghost use Rattle.rows.specs.declared.Table.TheVariants.{Context, Mapping, Access, View};
ghost use Rattle.rows.specs.Rows.{context_of, mapping_of, access_of, view_of};
ghost use Rattle.image_layout.specs.Layout.{rows_in};
ghost use Rattle.image_judge.specs.Faults.{SoundTable};
ghost use Rattle.decision_steps.specs.Decision.{bears_context, maps_principal, chosen_access, chosen_view};
ghost use Rattle.decision_steps.specs.Bytes.{identifier};
ghost use Rattle.decision_find.specs.Found.{Chosen, first_of, Testable, FirstRow, RowsTo, rows_of_view, ToLast};

use image_layout::Extent;

// The rows of the view table up to one of them, and where that one ends.
#[derive(Clone, Copy)]
pub struct ViewRows {
    pub rows: Extent,
    pub end: usize,
}

// ---- steps 1 and 2

// The first row of a table that passes the test; the function is generic, so it is compiled for each test anew.
pub fn find_row<F: Fn(&[u8]) -> bool>(w: &[u8], x: Extent, test: F) -> Option<(usize, usize)>
    requires { Testable (λ row. F.pre test row) w.now x }
    ensures { FirstRow (λ row b. F.post test row b) w.now x result }
{
    let mut o = x.rows;
    for i in 0..x.count {
        let e = o + image_layout::pair_at(w, x.lengths + 2 * i);
        if test(&w[o..e]) {
            return Some((o, e));
        }
        o = e;
    }
    None
}

// The context's row.
pub fn find_context(w: &[u8], x: Extent, context_name: &[u8]) -> Option<(usize, usize)>
    requires { SoundTable Context w.now x }
    ensures { Chosen Context context_of w.now result
        (first_of context_of (bears_context context_name.now) (rows_in w.now x)) }
{
    find_row(w, x, |row| decision_steps::bears_context(row, context_name))
}

// The principal's mapping.
pub fn find_mapping(
    w: &[u8],
    x: Extent,
    security_model: usize,
    security_name: &[u8],
) -> Option<(usize, usize)>
    requires { SoundTable Mapping w.now x }
    ensures { Chosen Mapping mapping_of w.now result
        (first_of mapping_of (maps_principal security_model security_name.now) (rows_in w.now x)) }
{
    find_row(
        w,
        x,
        |row| decision_steps::maps_principal(row, security_model, security_name),
    )
}

// ---- step 3

// The access row for the group, the model, the level and the context: the best row so far is carried along.
pub fn find_access(
    w: &[u8],
    x: Extent,
    group_name: &[u8],
    security_model: usize,
    security_level: usize,
    context_name: &[u8],
) -> Option<(usize, usize)>
    requires { SoundTable Access w.now x }
    ensures { Chosen Access access_of w.now result
        (chosen_access group_name.now security_model security_level context_name.now
        (map access_of (rows_in w.now x))) }
{
    let mut o = x.rows;
    let mut best = 0;
    let mut found = None;
    for i in 0..x.count {
        let e = o + image_layout::pair_at(w, x.lengths + 2 * i);
        let r = decision_steps::rank(
            &w[o..e],
            group_name,
            security_model,
            security_level,
            context_name,
        );
        if best < r {
            best = r;
            found = Some((o, e));
        }
        o = e;
    }
    found
}

// ---- steps 4 and 5: from the end, since in the order of the indices the last row of a view that matches is the longest, then the greatest

// The rows up to the last that is in the view of the name; none where the view has none.
pub fn find_view(w: &[u8], x: Extent, view_name: &[u8]) -> ViewRows
    requires { SoundTable View w.now x }
    ensures { ToLast view_name.now w.now x result }
{
    // by hand: a row's place is known from its end alone, and `n` is what is answered
    let mut n = x.count;
    let mut g = x.lengths + 2 * n;
    let mut e = image_layout::end_of(w, x);
    while 0 < n {
        g -= 2;
        let o = e - image_layout::pair_at(w, g);
        if decision_views::is_in_view(&w[o..e], view_name) {
            return ViewRows {
                rows: Extent {
                    lengths: x.lengths,
                    rows: x.rows,
                    count: n,
                },
                end: e,
            };
        }
        e = o;
        n -= 1;
    }
    ViewRows {
        rows: Extent {
            lengths: x.lengths,
            rows: x.rows,
            count: 0,
        },
        end: e,
    }
}

// The row of the view of the name that decides on the variable, among rows that hold all of the view. The walk goes one way and ends at the first row
// that matches, so no row is compared with the variable twice.
pub fn find_view_row(
    w: &[u8],
    v: ViewRows,
    view_name: &[u8],
    variable: &[u8],
) -> Option<(usize, usize)>
    requires { RowsTo w.now v }
    ensures { Chosen View view_of w.now result
        (chosen_view (identifier variable.now) (rows_of_view view_name.now w.now v.rows)) }
{
    let x = v.rows;
    // by hand, as above: the walk goes from the end
    let mut i = x.count;
    let mut g = x.lengths + 2 * i;
    let mut e = v.end;
    while 0 < i {
        g -= 2;
        let o = e - image_layout::pair_at(w, g);
        if decision_views::is_matching(&w[o..e], view_name, variable) {
            return Some((o, e));
        }
        e = o;
        i -= 1;
    }
    None
}
