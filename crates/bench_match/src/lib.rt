// The calls that hand back the row that decides, under C names, for the benchmark. They have an archive of their own, so that what the compiler makes of
// the searches for them does not change what is measured of the decision.
#![tactic(auto)]

ghost use Rattle.decision_match.specs.Numbers.{view_match_number, access_match_number};
ghost use Rattle.decision_match.specs.Matches.{MatchesView, MatchesAccess};
ghost use Rattle.bench.specs.Measured.{Numbered};

use rows::KEY_MAX;

// Which row of a view decides on a variable, by the number of the answer.
#[unsafe(no_mangle)]
pub extern "C" fn bench_match_view(
    store: &[u8],
    name: &[u8],
    variable: &[u32],
    key: &mut [u8; KEY_MAX],
) -> u32
    ensures { Numbered view_match_number (MatchesView store.now name.now variable.now
        key.old key.new) result }
{
    decision_match::view_match_number(decision_match::match_view(store, name, variable, key))
}

// Which access row is chosen for a group, by the number of the answer.
#[unsafe(no_mangle)]
pub extern "C" fn bench_match_access(
    store: &[u8],
    group: &[u8],
    context: &[u8],
    model: u32,
    level: u32,
    key: &mut [u8; KEY_MAX],
) -> u32
    ensures { Numbered access_match_number (MatchesAccess store.now group.now context.now model level
        key.old key.new) result }
{
    decision_match::access_match_number(decision_match::match_access(
        store, group, context, model, level, key,
    ))
}
