// A set of edits by one principal: what a call is handed, and its answer. The rules are in specs/.
#![tactic(auto)]

use answers::Refusal;
use edit_rules::Operation;
use rows::Table;

// The most edits of a set.
pub const MOST_EDITS: usize = 8;

// An edit of a set: what it does, in which table, and which of the lent bytes are its row's or its key's.
#[derive(Clone, Copy, PartialEq, Eq, Debug)]
pub struct SetEdit {
    pub operation: Operation,
    pub table: Table,
    pub from: usize,
    pub end: usize,
}

// A set of edits, in their order: the first `count` places. One that counts more places than there are is no set.
#[derive(Clone, Copy, PartialEq, Eq, Debug)]
pub struct EditSet {
    pub edits: [SetEdit; MOST_EDITS],
    pub count: usize,
}

// The answer of a set, and the position, counted from 1, of the edit that it is about; 0 where it is about none.
// 0 and not an Option: the documents name the position so, and the definitions of `Sets` say it
#[derive(Clone, Copy, PartialEq, Eq, Debug)]
pub struct SetAnswer {
    pub answer: Result<(), Refusal>,
    pub position: usize,
}

// What edits bring into a table and take out of it, and the position of the first create there, 0 where there is none, as `first_create` of `Sets` says it.
#[derive(Clone, Copy, PartialEq, Eq, Debug)]
pub struct Weight {
    pub creates: usize,
    pub removals: usize,
    pub first: usize,
}
