// Table images read into a store and written from one.
#![tactic(auto)]

ghost use Rattle.std.specs.Prelude.{◌≡◌, ◌+◌, ◌≤◌, length, take};
ghost use Rattle.image_layout.specs.Layout.{end_of, most_rows};
ghost use Rattle.image.specs.Store.{held};
ghost use Rattle.image_transfer.specs.Transfer.{overlaid, Writable, all_rows, loaded_number, Reads, Writes};

use answers::Fault;
use image::ROOM;
use image_layout::{Extent, HEADER, Layout};

// Document 01's number for each case.
pub fn loaded_number(l: Result<(), Fault>) -> u32
    ensures { result ≡ loaded_number l }
{
    match l {
        Ok(()) => 0,
        Err(f) => answers::fault_number(f),
    }
}

// An image read into a store. It is judged whole before a byte is copied, so that a refusal leaves the store as found.
// The type gives the store its size: there is no 6.
#[tactic(auto, using(crate::proofs::Promises::unread))]
pub fn read_image(image: &[u8], store: &mut [u8; ROOM]) -> Result<(), Fault>
    ensures { Reads image.now store.old store.new result }
{
    image::survey_image(image)?;
    splice::copy_in(store, 0, image);
    Ok(())
}

// A row into its own part of the buffer, which is lent to it by document 01's form: as a row lies in a store it lies in an image.
fn write_row(part: &mut [u8], row: &[u8])
    requires { length part.old ≡ length row.now }
    ensures { part.new ≡ row.now }
{
    splice::copy_in(part, 0, row);
}

// The rows of an extent, each into the part of the buffer where it stands in the image.
fn write_rows(store: &[u8], x: Extent, out: &mut [u8])
    requires { Writable store.now x out.old }
    ensures { out.new ≡ overlaid (take (end_of store.now x) store.now) out.old }
{
    let mut o = x.rows;
    for i in 0..x.count {
        let e = o + image_layout::pair_at(store, x.lengths + 2 * i);
        write_row(&mut out[o..e], &store[o..e]);
        o = e;
    }
}

// All rows of a layout, one table behind the other.
fn all_rows(l: Layout) -> Extent
    requires { l.contexts.count + l.mappings.count + l.accesses.count + l.views.count ≤ most_rows }
    ensures { result ≡ all_rows l }
{
    Extent {
        lengths: HEADER,
        rows: l.contexts.rows,
        count: l.contexts.count + l.mappings.count + l.accesses.count + l.views.count,
    }
}

// The image of a store's tables written into a buffer: the header and the array of lengths first, then row by row.
pub fn write_image(store: &[u8], out: &mut [u8]) -> Result<usize, Fault>
    ensures { Writes (held store.now) out.old out.new result }
{
    let all = all_rows(image::survey_store(store)?);
    let rows = all.rows;
    let end = image_layout::end_of(store, all);
    if out.len() < end {
        return Err(Fault::TooShort);
    }
    splice::copy_in(out, 0, &store[0..rows]);
    write_rows(store, all, out);
    Ok(end)
}
