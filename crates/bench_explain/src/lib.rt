// The call that explains an answer, under a C name, for the benchmark; with an archive of its own, as the calls of bench_match have.
#![tactic(auto)]

ghost use Rattle.answers.specs.Numbers.{answer_number};
ghost use Rattle.decision_steps.specs.Request.{asked};
ghost use Rattle.explain_rules.specs.Explanation.{rooms_of, Explains};
ghost use Rattle.bench.specs.Measured.{Numbered};

use rows::ROW_MAX;

// The answer to a request and the rows behind it, by the number of the answer.
#[unsafe(no_mangle)]
pub extern "C" fn bench_explain(
    store: &[u8],
    model: u32,
    name: &[u8],
    level: u32,
    view_type: u32,
    context: &[u8],
    variable: &[u32],
    mapping: &mut [u8; ROW_MAX],
    access: &mut [u8; ROW_MAX],
    view: &mut [u8; ROW_MAX],
) -> u32
    ensures { Numbered (λ e. answer_number e.answer)
        (Explains (asked model name.now level view_type context.now variable.now) store.now
        (rooms_of mapping.old access.old view.old)
        (rooms_of mapping.new access.new view.new)) result }
{
    let explained = explain::explain(
        store, model, name, level, view_type, context, variable, mapping, access, view,
    );
    let answer = explained.answer;
    answers::answer_number(answer)
}
