// A principal's set of edits under a C name, for the benchmark. It has an archive of its own for the reason that `bench_match` has one.
#![tactic(auto)]

ghost use Rattle.std.specs.Prelude.{◌≡◌, ◌<◌};
ghost use Rattle.edit_rules.specs.Edits.{caller_of};
ghost use Rattle.set_rules.specs.Sets.{most_edits};
ghost use Rattle.set_rules.specs.Handed.{edits_of};
ghost use Rattle.set_rules.specs.Promise.{PrincipalSets};
ghost use Rattle.bench.specs.Measured.{Numbered};
ghost use Rattle.bench_sets.specs.Heads.{head_in, set_numbered, set_number};

use edit_rules::Operation;
use rows::Table;
use set_rules::{EditSet, MOST_EDITS, SetAnswer, SetEdit};

// The edit at a place: the numbers of its operation and its table, and where its bytes lie.
fn head_at(heads: &[u32], i: usize) -> SetEdit
    requires { i < most_edits }
    ensures { result ≡ head_in heads.now i }
{
    let at = 4 * i;
    if heads.len() < at + 4 {
        return SetEdit {
            operation: Operation::Create,
            table: Table::Context,
            from: 0,
            end: 0,
        };
    }
    let operation = bench::operation_numbered(heads[at]);
    let table = bench::table_numbered(heads[at + 1]);
    let from = heads[at + 2] as usize;
    let end = heads[at + 3] as usize;
    SetEdit {
        operation,
        table,
        from,
        end,
    }
}

// 256 times the position and the number of the answer.
fn set_number(a: SetAnswer) -> u64
    ensures { result ≡ set_number a }
{
    let answer = a.answer;
    let position = a.position.min(MOST_EDITS);
    position as u64 * 256 + edits::edited_number(answer) as u64
}

// The set of edits, by its number.
#[unsafe(no_mangle)]
pub extern "C" fn bench_principal_set(
    store: &mut [u8],
    model: u32,
    name: &[u8],
    level: u32,
    heads: &[u32],
    bytes: &[u8],
) -> u64
    ensures { Numbered set_number (PrincipalSets (caller_of model name.now level)
        (edits_of (set_numbered heads.now) bytes.now) store.old store.new) result }
{
    let edits = [
        head_at(heads, 0),
        head_at(heads, 1),
        head_at(heads, 2),
        head_at(heads, 3),
        head_at(heads, 4),
        head_at(heads, 5),
        head_at(heads, 6),
        head_at(heads, 7),
    ];
    let count = heads.len() / 4;
    let answer = edit_sets::principal_set(
        store,
        model,
        name,
        level,
        EditSet { edits, count },
        bytes,
    );
    set_number(answer)
}
