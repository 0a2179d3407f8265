// The answer of a walk over the tables: the next instance that a principal may read. What it is by the rows held is in specs/.
#![tactic(auto)]

ghost use Rattle.std.specs.Prelude.{◌≡◌};
ghost use Rattle.walk_rules.specs.Numbers.{walked_number};

use answers::{Cause, Fault};
use rows::Table;

// The next instance: its parts, its table and column, its key's bytes. That none follows (RFC 3416's endOfMibView), a cause, a fault.
#[derive(Clone, Copy)]
pub enum Walked {
    Next(usize, Table, u32, usize),
    EndOfMibView,
    Denied(Cause),
    Faulty(Fault),
}

// The number of document 01 for an answer, of document 02 where none follows.
pub fn walked_number(r: Walked) -> u32
    ensures { result ≡ walked_number r }
{
    match r {
        Walked::Next(_, _, _, _) => 0,
        Walked::EndOfMibView => 17,
        Walked::Denied(c) => answers::cause_number(c),
        Walked::Faulty(f) => answers::fault_number(f),
    }
}
