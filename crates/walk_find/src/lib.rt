// The first instance above an identifier that a view lets be read. The instances are met in ascending order: tables by their bases, columns, then rows by
// their indices.
#![tactic(auto)]

ghost use Rattle.std.specs.Prelude.{◌≡◌, true, ◌∷◌};
ghost use Rattle.numbers.specs.Lists.{find};
ghost use Rattle.numbers.specs.Order.{before};
ghost use Rattle.image_layout.specs.Layout.{rows_in};
ghost use Rattle.image_judge.specs.Faults.{SoundTable, SoundLayout, tables_at};
ghost use Rattle.decision_find.specs.Found.{Chosen, first_of};
ghost use Rattle.decision_parts.specs.Parts.{ViewIn, rows_of};
ghost use Rattle.instance_encode.specs.Instances.{lists};
ghost use Rattle.edit_rules.specs.TableRows.{row_of};
ghost use Rattle.walk_rules.specs.Walk.{instances};
ghost use Rattle.walk_rows.specs.Reading.{readable_row};
ghost use Rattle.walk_find.specs.Met.{passing, stops, first_in, LeftAt, Meets};

use decision_parts::NamedView;
use image_layout::{Extent, Layout};
use rows::Table;

// ---- one column

// The first row of a column whose instance the view lets be read.
fn first_row(w: &[u8], x: Extent, v: NamedView, t: Table, column: u32) -> Option<(usize, usize)>
    requires rows { SoundTable t w.now x }
    requires view { ViewIn w.now v }
    requires listed { lists t column ≡ true }
    ensures { Chosen t (row_of t) w.now result
        (first_of (row_of t) (readable_row t column (rows_of w.now v)) (rows_in w.now x)) }
{
    let n = x.count;
    let mut i = 0;
    let mut g = x.lengths;
    let mut o = x.rows;
    while i < n {
        let e = o + image_layout::pair_at(w, g);
        if walk_rows::is_row_readable(w, v, t, column, &w[o..e]) {
            return Some((o, e));
        }
        g += 2;
        o = e;
        i += 1;
    }
    None
}

// The same among the rows whose column and index are above the parts.
fn in_column(
    w: &[u8],
    x: Extent,
    v: NamedView,
    t: Table,
    column: u8,
    parts: &[u32],
) -> Option<(usize, usize)>
    requires rows { SoundTable t w.now x }
    requires view { ViewIn w.now v }
    requires listed { lists t column ≡ true }
    ensures { Chosen t (row_of t) w.now result
        (first_of (row_of t) (passing t column (rows_of w.now v) (λ i. before parts.now (column ∷ i))) (rows_in w.now x)) }
{
    let front = [column];
    let onward = walk_compare::past(parts, &front);
    let Some(k) = onward else {
        return None;
    };
    let end = parts.len();
    let above = walk_seek::rows_above(w, x, t, &parts[k..end]);
    first_row(w, above, v, t, column as u32)
}

// ---- the columns of a table

// The first instance of a table above the identifier that the view lets be read; behind the base the identifier's parts from `k` on are left.
fn in_columns(
    w: &[u8],
    x: Extent,
    v: NamedView,
    t: Table,
    identifier: &[u32],
    k: usize,
) -> Option<(Table, u32, usize, usize)>
    requires rows { SoundTable t w.now x }
    requires view { ViewIn w.now v }
    requires left { LeftAt t identifier.now k }
    ensures { Meets w.now result (first_in t (rows_of w.now v) identifier.now w.now x) }
{
    let end = identifier.len();
    let columns = instance_encode::columns_of(t);
    let mut column = columns.first;
    let mut left = columns.count;
    while 0 < left {
        let found = in_column(w, x, v, t, column, &identifier[k..end]);
        if let Some((at, to)) = found {
            return Some((t, column as u32, at, to));
        }
        column += 1;
        left -= 1;
    }
    None
}

// The first instance of a table above the identifier that the view lets be read.
fn in_table(
    w: &[u8],
    x: Extent,
    v: NamedView,
    t: Table,
    identifier: &[u32],
) -> Option<(Table, u32, usize, usize)>
    requires rows { SoundTable t w.now x }
    requires view { ViewIn w.now v }
    ensures { Meets w.now result (first_in t (rows_of w.now v) identifier.now w.now x) }
{
    let front = instance_encode::base_of(t);
    let n = instance_encode::base_len(t);
    let onward = walk_compare::past(identifier, &front[0..n]);
    let Some(k) = onward else {
        return None;
    };
    in_columns(w, x, v, t, identifier, k)
}

// ---- the tables, by their bases

// The first instance of all above the identifier that the view lets be read.
pub fn in_tables(
    w: &[u8],
    l: Layout,
    v: NamedView,
    identifier: &[u32],
) -> Option<(Table, u32, usize, usize)>
    requires tables { SoundLayout w.now l }
    requires view { ViewIn w.now v }
    ensures { Meets w.now result
        (find (stops (rows_of w.now v) identifier.now) (instances (tables_at w.now l))) }
{
    let context = in_table(w, l.contexts, v, Table::Context, identifier);
    let None = context else {
        return context;
    };
    let mapping = in_table(w, l.mappings, v, Table::Mapping, identifier);
    let None = mapping else {
        return mapping;
    };
    let access = in_table(w, l.accesses, v, Table::Access, identifier);
    let None = access else {
        return access;
    };
    in_table(w, l.views, v, Table::View, identifier)
}
