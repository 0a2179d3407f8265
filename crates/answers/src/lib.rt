// What a call hands back, and document 01's number for each case.
#![tactic(auto)]

ghost use Rattle.std.specs.Prelude.{◌≡◌};
ghost use Rattle.answers.specs.declared.Refusal.TheVariants.{Barred, Faulty};
ghost use Rattle.answers.specs.Numbers.{cause_number, decision_number, fault_number, answer_number, result_number, written_number};
ghost use Rattle.answers.specs.Counts.{counted_number, step_of, Counts};

// Why a decision refuses: RFC 3415's errorIndication.
#[derive(Clone, Copy, PartialEq, Eq, Debug)]
pub enum Cause {
    NoSuchContext,
    NoGroupName,
    NoAccessEntry,
    NoSuchView,
    NotInView,
}

// What RFC 3415 decides of a request. By document 01's form an enum of its own and no Result, turned into a number by a match.
#[derive(Clone, Copy, PartialEq, Eq, Debug)]
pub enum Decision {
    Allowed,
    Refused(Cause),
}

// Why a call does nothing: what it was lent or handed is not in order.
#[derive(Clone, Copy, PartialEq, Eq, Debug)]
pub enum Fault {
    NotSound = 6,
    OutOfRange = 7,
    TableFull = 9,
    RowAbsent = 10,
    StorageForbids = 11,
    ContextTable = 12,
    NotAnInstance = 13,
    Torn = 14,
    NotAscending = 15,
    TooShort = 16,
    RowHeld = 18,
    NotASet = 19,
}

// Why an edit is not made: the tables do not let its principal make it, or something is not in order.
#[derive(Clone, Copy, PartialEq, Eq, Debug)]
pub enum Refusal {
    Barred(Cause),
    Faulty(Fault),
}

impl From<Cause> for Refusal {
    ghost from_gives = { λ c r. r ≡ Barred c };

    fn from(c: Cause) -> Refusal {
        Refusal::Barred(c)
    }
}

impl From<Fault> for Refusal {
    ghost from_gives = { λ f r. r ≡ Faulty f };

    fn from(f: Fault) -> Refusal {
        Refusal::Faulty(f)
    }
}

// The answer of a decision request: what is decided, or why nothing is.
pub type Answer = Result<Decision, Fault>;

// The number of a cause.
pub fn cause_number(c: Cause) -> u32
    ensures { result ≡ cause_number c }
{
    match c {
        Cause::NoSuchContext => 1,
        Cause::NoGroupName => 2,
        Cause::NoAccessEntry => 3,
        Cause::NoSuchView => 4,
        Cause::NotInView => 5,
    }
}

// The number of a decision.
pub fn decision_number(d: Decision) -> u32
    ensures { result ≡ decision_number d }
{
    match d {
        Decision::Allowed => 0,
        Decision::Refused(c) => cause_number(c),
    }
}

// The number of a fault.
pub fn fault_number(f: Fault) -> u32
    ensures { result ≡ fault_number f }
{
    f as u32
}

// The number of the answer of a decision request.
pub fn answer_number(a: Answer) -> u32
    ensures { result ≡ answer_number a }
{
    a.map_or_else(fault_number, decision_number)
}

// The number of an answer that is a fault or a success, whatever that hands back.
pub fn result_number<T: Copy>(r: Result<T, Fault>) -> u32
    ensures { result ≡ result_number r }
{
    r.err().map_or(0, fault_number)
}

// The number of a writer's answer.
pub fn written_number(w: Result<usize, Fault>) -> u32
    ensures { result ≡ written_number w }
{
    result_number(w)
}

// ---- the four counts of refused requests: the tally is lent by reference and counted up in its place

// The counts of the 1997 draft (snmpV3AcStats), each with RFC 3415's causes that add to it.
#[derive(Clone, Copy, PartialEq, Eq, Debug)]
pub struct Tally {
    pub unknown_contexts: u32, // noSuchContext
    pub no_groups: u32, // noGroupName
    pub no_views: u32, // noAccessEntry
    pub unauthorized_accesses: u32, // noSuchView, notInView
}

// Document 01's number of the answer.
pub fn counted_number(c: Result<(), Fault>) -> u32
    ensures { result ≡ counted_number c }
{
    result_number(c)
}

// The tally after an answer, and the answer of the call.
#[derive(Clone, Copy, PartialEq, Eq, Debug)]
pub struct Step {
    pub tally: Tally,
    pub answer: Result<(), Fault>,
}

fn step_of(t: Tally, answer: u32) -> Step
    ensures { result ≡ step_of t answer }
{
    let mut tally = t;
    match answer {
        0 | 6..=31 => {}
        1 => tally.unknown_contexts = t.unknown_contexts.wrapping_add(1),
        2 => tally.no_groups = t.no_groups.wrapping_add(1),
        3 => tally.no_views = t.no_views.wrapping_add(1),
        4..=5 => tally.unauthorized_accesses = t.unauthorized_accesses.wrapping_add(1),
        _ => {
            return Step {
                tally,
                answer: Err(Fault::OutOfRange),
            };
        }
    }
    Step {
        tally,
        answer: Ok(()),
    }
}

// Counts an answer: by document 01's form a thin call, over `step_of`.
pub fn count(tally: &mut Tally, answer: u32) -> Result<(), Fault>
    ensures { Counts tally.old answer tally.new result }
{
    let step = step_of(*tally, answer);
    *tally = step.tally;
    step.answer
}

// The same for a caller that holds its tally by value: it is lent to `count` for the call, and handed back.
pub fn count_owned(mut tally: Tally, answer: u32) -> Step
    ensures { Counts tally answer result.tally result.answer }
{
    let counted = count(&mut tally, answer);
    Step {
        tally,
        answer: counted,
    }
}
