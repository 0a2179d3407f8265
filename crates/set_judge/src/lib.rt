// A principal's set of edits judged on the store as found: whether it is one, each edit, and room.
#![tactic(auto)]

ghost use Rattle.std.specs.Prelude.{◌≡◌, [], ◌≤◌, ◌<◌, ◌-◌, suc, length, take};
ghost use Rattle.numbers.specs.Lists.{any};
ghost use Rattle.numbers.specs.Order.{same};
ghost use Rattle.rows.specs.Rows.{limit};
ghost use Rattle.image_layout.specs.Layout.{extent_of};
ghost use Rattle.edit_rules.specs.Edits.{edit_of};
ghost use Rattle.set_rules.specs.Sets.{most_edits, same_table, same_key, keys_differ, is_set, or_next, first_refused};
ghost use Rattle.set_rules.specs.Handed.{bytes_in, edit_in, place_in, edits_from, edits_of};
ghost use Rattle.set_rules.specs.Made.{begins, is_removal, weighed, weight, room_weighed, counted_room};
ghost use Rattle.set_judge.specs.Asked.{Judging, judged_with, Limited};

use answers::{Cause, Fault, Refusal};
use decision_parts::NamedView;
use edit_rules::Operation;
use image_layout::Layout;
use rows::Table;
use set_rules::{EditSet, MOST_EDITS, SetAnswer, SetEdit, Weight};

// ---- what is handed

// The bytes of an edit among those lent, as far as they are there.
pub fn bytes_of(x: SetEdit, bytes: &[u8]) -> &[u8]
    ensures { result.now ≡ bytes_in x.from x.end bytes.now }
{
    let end = x.end.min(bytes.len());
    let from = x.from.min(end);
    &bytes[from..end]
}

// ---- the form of a set

fn is_same_table(t: Table, u: Table) -> bool
    ensures { result ≡ same_table t u }
{
    t == u
}

// Whether the first bytes, as many as the key has, are the key.
fn has_front(bytes: &[u8], key: &[u8]) -> bool
    ensures { result ≡ same (take (length key.now) bytes.now) key.now }
{
    key.len() <= bytes.len() && octets::are_same(&bytes[0..key.len()], key)
}

// Whether an edit is of this table and begins with this key.
fn is_of_key(t: Table, key: &[u8], x: SetEdit, bytes: &[u8]) -> bool
    ensures { result ≡ begins t key.now (edit_in x bytes.now) }
{
    is_same_table(t, x.table) && has_front(bytes_of(x, bytes), key)
}

// Whether one of the edits from place `from` on is of this table and begins with this key.
fn comes_again(
    t: Table,
    key: &[u8],
    edits: [SetEdit; MOST_EDITS],
    from: usize,
    count: usize,
    bytes: &[u8],
) -> bool
    requires few { count ≤ most_edits }
    requires place { from ≤ count }
    ensures { result ≡ any (begins t key.now) (edits_from edits bytes.now from (count - from)) }
{
    for i in from..count {
        if is_of_key(t, key, edits[i], bytes) {
            return true;
        }
    }
    false
}

// Whether the edit at a place has a legal key that comes again behind it.
fn is_repeated(edits: [SetEdit; MOST_EDITS], i: usize, count: usize, bytes: &[u8]) -> bool
    requires few { count ≤ most_edits }
    requires place { i < count }
    ensures { result ≡ any (same_key (edit_in (place_in edits i) bytes.now)) (edits_from edits bytes.now (suc i) (count - suc i)) }
{
    let x = edits[i];
    let own = bytes_of(x, bytes);
    let t = x.table;
    let Ok(k) = rows::judge_front(t, own) else {
        return false;
    };
    comes_again(t, &own[0..k], edits, i + 1, count, bytes)
}

fn keys_differ(edits: [SetEdit; MOST_EDITS], count: usize, bytes: &[u8]) -> bool
    requires { count ≤ most_edits }
    ensures { result ≡ keys_differ (edits_from edits bytes.now 0 count) }
{
    for i in 0..count {
        if is_repeated(edits, i, count, bytes) {
            return false;
        }
    }
    true
}

// Whether there are one to eight edits, and no legal key of one table comes twice.
pub fn is_set(s: EditSet, bytes: &[u8]) -> bool
    ensures { result ≡ is_set (edits_of s bytes.now) }
{
    rows::within(1, MOST_EDITS, s.count) && keys_differ(s.edits, s.count, bytes)
}

// ---- each edit judged

// An edit judged whole, room excepted, by the caller's standing.
fn judge_edit(
    w: &[u8],
    l: Layout,
    standing: Result<NamedView, Cause>,
    o: Operation,
    t: Table,
    bytes: &[u8],
) -> Result<(), Refusal>
    requires { Judging w.now l standing }
    ensures { result ≡ judged_with w.now l standing (edit_of o t bytes.now) }
{
    let k = edits::judge_handed(o, t, bytes).or(Err(Fault::OutOfRange))?;
    edit_rights::admit(w, standing, edit_rules::shape_of(o), t, &bytes[0..k])?;
    edit_rows::judge(w, l, true, o, t, bytes, k)
}

// The first refusal in set order, with its position.
pub fn judge_edits(
    w: &[u8],
    l: Layout,
    standing: Result<NamedView, Cause>,
    edits: [SetEdit; MOST_EDITS],
    count: usize,
    bytes: &[u8],
) -> SetAnswer
    requires few { count ≤ most_edits }
    requires judging { Judging w.now l standing }
    ensures { result ≡ first_refused (judged_with w.now l standing) 1 (edits_from edits bytes.now 0 count) }
{
    for i in 0..count {
        let x = edits[i];
        let answer = judge_edit(w, l, standing, x.operation, x.table, bytes_of(x, bytes));
        let Ok(()) = answer else {
            return SetAnswer {
                answer,
                position: i + 1,
            };
        };
    }
    SetAnswer {
        answer: Ok(()),
        position: 0,
    }
}

// ---- room

fn is_removal(o: Operation) -> bool
    ensures { result ≡ is_removal o }
{
    o == Operation::Remove
}

// With the edit at a position in front.
fn weigh_edit(t: Table, position: usize, o: Operation, u: Table, w: Weight) -> Weight
    requires few { w.creates < most_edits }
    requires less { w.removals < most_edits }
    ensures { result ≡ weighed t position (edit_of o u []) w }
{
    if !is_same_table(t, u) {
        return w;
    }
    if edit_rules::is_create(o) {
        return Weight {
            creates: 1 + w.creates,
            removals: w.removals,
            first: position,
        };
    }
    if is_removal(o) {
        return Weight {
            creates: w.creates,
            removals: 1 + w.removals,
            first: w.first,
        };
    }
    w
}

fn weigh(edits: [SetEdit; MOST_EDITS], count: usize, t: Table) -> Weight
    requires { count ≤ most_edits }
    ensures { result ≡ weight t 1 (edits_from edits [] 0 count) }
{
    let mut w = Weight {
        creates: 0,
        removals: 0,
        first: 0,
    };
    // by hand: from the last to the first, and a position counts from 1, so that `i` is the position of the edit before place i
    let mut i = count;
    while 0 < i {
        let x = edits[i - 1];
        let o = x.operation;
        let u = x.table;
        w = weigh_edit(t, i, o, u, w);
        i -= 1;
    }
    w
}

// 9 where a table of n rows would have more than it may, with the position of the first create there.
fn room_in(edits: [SetEdit; MOST_EDITS], count: usize, t: Table, n: usize) -> SetAnswer
    requires few { count ≤ most_edits }
    requires rows { n ≤ limit t }
    ensures { result ≡ room_weighed t n (weight t 1 (edits_from edits [] 0 count)) }
{
    let w = weigh(edits, count, t);
    let over = rows::limit(t) + w.removals < n + w.creates;
    if (0 < w.first) & over {
        return SetAnswer {
            answer: Err(Refusal::Faulty(Fault::TableFull)),
            position: w.first,
        };
    }
    SetAnswer {
        answer: Ok(()),
        position: 0,
    }
}

// The first refusal of two.
fn or_next(a: SetAnswer, b: SetAnswer) -> SetAnswer
    ensures { result ≡ or_next a b }
{
    match a.answer {
        Ok(()) => b,
        Err(_) => a,
    }
}

// The first table that would have too many rows.
pub fn judge_room(l: Layout, edits: [SetEdit; MOST_EDITS], count: usize) -> SetAnswer
    requires few { count ≤ most_edits }
    requires limited { Limited l }
    ensures { result ≡ counted_room (λ t. (extent_of t l).count) (edits_from edits [] 0 count) }
{
    let contexts = room_in(edits, count, Table::Context, l.contexts.count);
    let mappings = room_in(edits, count, Table::Mapping, l.mappings.count);
    let accesses = room_in(edits, count, Table::Access, l.accesses.count);
    let views = room_in(edits, count, Table::View, l.views.count);
    or_next(contexts, or_next(mappings, or_next(accesses, views)))
}
