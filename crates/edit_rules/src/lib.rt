// The rules of an edit, in specs/: what it may be, what it is answered, what the storage of a row lets a principal do, and what the tables let it do. What
// an edit does, its answer, and who makes it.
#![tactic(auto)]

ghost use Rattle.std.specs.Prelude.{◌≡◌};
ghost use Rattle.edit_rules.specs.Edits.{shape_of, is_create, legal_caller, caller_of};

use answers::{Cause, Fault};
use decision::{AUTH_PRIV, LONGEST_NAME, NO_AUTH_NO_PRIV};
use rows::{MODEL_MAX, Shape};

// What an edit does with a row: create one that is not held, change or remove one that is.
#[derive(Clone, Copy, PartialEq, Eq, Debug)]
pub enum Operation {
    Create,
    Change,
    Remove,
}

// What an edit is handed: the row as it shall be, or the key of the row to remove.
pub fn shape_of(o: Operation) -> Shape
    ensures { result ≡ shape_of o }
{
    match o {
        Operation::Create | Operation::Change => Shape::Row,
        Operation::Remove => Shape::Key,
    }
}

pub fn is_create(o: Operation) -> bool
    ensures { result ≡ is_create o }
{
    o == Operation::Create
}

// The fields of a caller are in their ranges.
#[tactic(auto, unfolding(crate::specs::Edits::legal_caller))]
pub fn is_caller(security_model: u32, security_name: &[u8], security_level: u32) -> bool
    ensures { result ≡ legal_caller (caller_of security_model security_name.now security_level) }
{
    (1..=MODEL_MAX).contains(&security_model)
        && (1..=LONGEST_NAME).contains(&security_name.len())
        && (NO_AUTH_NO_PRIV..=AUTH_PRIV).contains(&security_level)
}
