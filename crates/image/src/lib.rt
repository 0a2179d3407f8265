// A table image judged where it lies, alone or at the front of a store: what is wrong with it, or where its tables are.
#![tactic(auto)]

ghost use Rattle.std.specs.Prelude.{◌≡◌};
ghost use Rattle.image_layout.specs.Layout.{layout_of, within_limits};
ghost use Rattle.image_judge.specs.Faults.{surveyed};
ghost use Rattle.image.specs.Image.{fits, front_fault, image_fault};
ghost use Rattle.image.specs.Store.{store_fault, call_fault};

use answers::Fault;
use image_layout::{HEADER, Layout};
use rows::{MOST_ACCESSES, MOST_CONTEXTS, MOST_MAPPINGS, MOST_VIEWS};

// The bytes of a store: those of the largest image, whose row lengths and rows take all but the header.
pub const ROOM: usize = HEADER + 46448;

fn limited(c: usize, m: usize, a: usize, v: usize) -> bool
    ensures { result ≡ within_limits c m a v }
{
    (c <= MOST_CONTEXTS) & (m <= MOST_MAPPINGS) & (a <= MOST_ACCESSES) & (v <= MOST_VIEWS)
}

// Whether an image that ends at `end` fits `len` bytes: where they are to be the whole image, exactly.
fn is_fit(whole: bool, end: usize, len: usize) -> bool
    ensures { result ≡ fits whole end len }
{
    if whole { end == len } else { end <= len }
}

// The image at the front of `w`, or, where `whole`, all of `w`.
fn survey(w: &[u8], whole: bool) -> Result<Layout, Fault>
    ensures { result ≡ surveyed (front_fault (fits whole) w.now) (layout_of w.now) }
{
    if w.len() < HEADER {
        return Err(Fault::Torn);
    }
    let c = image_layout::pair_at(w, 0);
    let m = image_layout::pair_at(w, 2);
    let a = image_layout::pair_at(w, 4);
    let v = image_layout::pair_at(w, 6);
    if !limited(c, m, a, v) {
        return Err(Fault::TableFull);
    }
    let n = c + m + a + v;
    let rows = HEADER + 2 * n;
    if w.len() < rows || !is_fit(whole, rows + image_layout::sum(w, HEADER, n), w.len()) {
        return Err(Fault::Torn);
    }
    image_judge::judge_rows(w, c, m, a, v)
}

// A whole image: its length is as called for.
#[tactic(auto, unfolding(crate::specs::Image::image_fault))]
pub fn survey_image(w: &[u8]) -> Result<Layout, Fault>
    ensures { result ≡ surveyed (image_fault w.now) (layout_of w.now) }
{
    survey(w, true)
}

// A store: an image at the front of the room, and 6 whatever is wrong with it.
pub fn survey_store(w: &[u8]) -> Result<Layout, Fault>
    ensures { result ≡ surveyed (store_fault w.now) (layout_of w.now) }
{
    if w.len() != ROOM {
        return Err(Fault::NotSound);
    }
    survey(w, false).map_err(|_| Fault::NotSound)
}

// The same for a call whose fields are in range or not: 7 comes behind 6.
pub fn survey_call(w: &[u8], legal: bool) -> Result<Layout, Fault>
    ensures { result ≡ surveyed (call_fault w.now legal) (layout_of w.now) }
{
    let l = survey_store(w)?;
    if legal { Ok(l) } else { Err(Fault::OutOfRange) }
}
