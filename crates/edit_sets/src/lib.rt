// A principal's set of edits, made whole or not at all: judged on the store as found, and only then made, each row where it lies. The removals are made
// first, so that no table is over its limit on the way.
#![tactic(auto)]

ghost use Rattle.std.specs.Prelude.{◌≡◌, true, ◌∷◌, [], ◌≤◌};
ghost use Rattle.std.specs.Prelude.{Err};
ghost use Rattle.answers.specs.declared.Refusal.TheVariants.{Faulty};
ghost use Rattle.image_layout.specs.Layout.{layout_of};
ghost use Rattle.image.specs.Store.{is_sound};
ghost use Rattle.edit_rules.specs.Edits.{caller_of, shape_of};
ghost use Rattle.set_rules.specs.Sets.{most_edits, answer_at};
ghost use Rattle.set_rules.specs.Handed.{edit_in, edits_from, edits_of};
ghost use Rattle.set_rules.specs.Made.{has_shape, of_shape, Makes};
ghost use Rattle.set_rules.specs.Promise.{PrincipalSets};

use answers::{Fault, Refusal};
use edit_rules::Operation;
use image_layout::{Extent, HEADER, Layout};
use rows::Shape;
use set_rules::{EditSet, MOST_EDITS, SetAnswer, SetEdit};

// Where the tables of a sound store lie, by its counts and lengths.
// beside `image::survey`, which tests each count before it reads on: here the store is known to be sound, and nothing is tested again
fn layout_of(w: &[u8]) -> Layout
    requires { is_sound w.now ≡ true }
    ensures { result ≡ layout_of w.now }
{
    let c = image_layout::pair_at(w, 0);
    let m = image_layout::pair_at(w, 2);
    let a = image_layout::pair_at(w, 4);
    let v = image_layout::pair_at(w, 6);
    let contexts = Extent {
        lengths: HEADER,
        rows: HEADER + 2 * (c + m + a + v),
        count: c,
    };
    let mappings = image_layout::following(contexts, image_layout::end_of(w, contexts), m);
    let accesses = image_layout::following(mappings, image_layout::end_of(w, mappings), a);
    let views = image_layout::following(accesses, image_layout::end_of(w, accesses), v);
    Layout {
        contexts,
        mappings,
        accesses,
        views,
    }
}

fn has_shape(o: Operation, s: Shape) -> bool
    ensures { result ≡ has_shape s (shape_of o) }
{
    edit_rules::shape_of(o) == s
}

// Makes an edit, if it is handed what is asked for.
fn make(w: &mut [u8], s: Shape, x: SetEdit, bytes: &[u8])
    requires { is_sound w.old ≡ true }
    ensures { Makes (of_shape s (edit_in x bytes.now ∷ [])) w.old w.new }
{
    if !has_shape(x.operation, s) {
        return;
    }
    let l = layout_of(w);
    let _ = edits::edit_laid(w, l, x.operation, x.table, set_judge::bytes_of(x, bytes));
}

// Makes those of the edits that are handed rows, or keys, in their order.
fn make_all(w: &mut [u8], s: Shape, edits: [SetEdit; MOST_EDITS], count: usize, bytes: &[u8])
    requires few { count ≤ most_edits }
    requires sound { is_sound w.old ≡ true }
    ensures { Makes (of_shape s (edits_from edits bytes.now 0 count)) w.old w.new }
{
    for i in 0..count {
        make(w, s, edits[i], bytes);
    }
}

// A refusal of the whole set, about no edit of it.
fn refused(f: Fault) -> SetAnswer
    ensures { result ≡ answer_at (Err (Faulty f)) 0 }
{
    SetAnswer {
        answer: Err(Refusal::Faulty(f)),
        position: 0,
    }
}

// The edits of a set, each a create, a change or a removal, by a principal: all of them, or none.
pub fn principal_set(
    store: &mut [u8],
    security_model: u32,
    security_name: &[u8],
    security_level: u32,
    set: EditSet,
    bytes: &[u8],
) -> SetAnswer
    ensures { PrincipalSets (caller_of security_model security_name.now security_level) (edits_of «set» bytes.now)
        store.old store.new result }
{
    let Ok(l) = image::survey_store(store) else {
        return refused(Fault::NotSound);
    };
    if !set_judge::is_set(set, bytes) {
        return refused(Fault::NotASet);
    }
    if !edit_rules::is_caller(security_model, security_name, security_level) {
        return refused(Fault::OutOfRange);
    }
    let edits = set.edits;
    let count = set.count;
    let standing = edit_rights::standing_of(
        store,
        l,
        security_model,
        security_name,
        security_level,
    );
    let judged = set_judge::judge_edits(store, l, standing, edits, count, bytes);
    let Ok(()) = judged.answer else {
        return judged;
    };
    let room = set_judge::judge_room(l, edits, count);
    let Ok(()) = room.answer else {
        return room;
    };
    make_all(store, Shape::Key, edits, count, bytes);
    make_all(store, Shape::Row, edits, count, bytes);
    room
}
