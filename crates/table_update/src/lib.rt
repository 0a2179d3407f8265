// A row of a table found by its key, and exchanged where it lies: put in, replaced or taken out, by one function.
#![tactic(auto)]

ghost use Rattle.std.specs.Prelude.{◌≡◌};
ghost use Rattle.octets.specs.Order.{order};
ghost use Rattle.image_layout.specs.Layout.{Inside, extent_of, rows_in};
ghost use Rattle.table_update.specs.Exchange.{front, Rising, Sought, TablePlace, RoomFor, Exchanges, one_row, one_if, position};

use image_layout::{Extent, Layout, Middle};
use rows::Table;
use std::cmp::Ordering;

// The place of a key in a table: which row it is or would be, where that row's bytes lie, and whether it is held.
#[derive(Clone, Copy)]
pub struct Place {
    pub row: usize,
    pub from: usize,
    pub end: usize,
    pub present: bool,
}

// Where the rows of a table lie.
pub fn extent_of(l: Layout, t: Table) -> Extent
    ensures { result ≡ extent_of t l }
{
    match t {
        Table::Context => l.contexts,
        Table::Mapping => l.mappings,
        Table::Access => l.accesses,
        Table::View => l.views,
    }
}

// How the row's first bytes, as many as the key has, stand to the key.
fn against(row: &[u8], key: &[u8]) -> Ordering
    ensures { result ≡ order (front key.now row.now) key.now }
{
    let n = key.len().min(row.len());
    octets::compare(&row[..n], key)
}

// The place of a key among the rows of a table, by bisection.
pub fn seek(w: &[u8], x: Extent, key: &[u8]) -> Place
    requires inside { Inside w.now x }
    requires rising { Rising key.now (rows_in w.now x) }
    ensures { Sought w.now x key.now result }
{
    let mut lo = 0;
    let mut hi = x.count;
    let mut o = x.rows;
    // by hand: the rows lie in bytes, and the library bisects slices alone
    // rows before `lo`, which lies at `o`, stand before the key, and rows from `hi` on above it
    while lo < hi {
        let Middle { row, from, end } = image_layout::middle_row(w, x, lo, hi, o);
        match against(&w[from..end], key) {
            Ordering::Less => {
                lo = row + 1;
                o = end;
            }
            Ordering::Equal => {
                return Place {
                    row,
                    from,
                    end,
                    present: true,
                };
            }
            Ordering::Greater => {
                hi = row;
            }
        }
    }
    Place {
        row: lo,
        from: o,
        end: o,
        present: false,
    }
}

// A table's place among the tables of an image.
pub fn position_of(t: Table) -> usize
    ensures { result ≡ position t }
{
    t as usize
}

// The row at the place gives way to `row`: put in where none is held, replaced, or, where `row` has no bytes, taken out. `end` is the image's.
pub fn exchange(w: &mut [u8], t: Table, x: Extent, p: Place, end: usize, row: &[u8])
    requires place { TablePlace t w.old x p end }
    requires room { RoomFor w.old p end row.now }
    ensures { Exchanges t p.row (one_if p.present) (one_row row.now) w.old w.new }
{
    let from = p.from;
    let gone = p.end - from;
    let n = row.len();
    let place = x.lengths + 2 * p.row;
    let had = usize::from(p.present);
    let has = usize::from(0 < n);
    let head = (n as u16).to_be_bytes();
    splice::splice_two(w, place, 2 * had, &head[..2 * has], from, gone, end, row);
    // A count's low octet: document 01's limits are below 256.
    let at = 2 * position_of(t) + 1;
    w[at] = (x.count + has - had) as u8;
}
