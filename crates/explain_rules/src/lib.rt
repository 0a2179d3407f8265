// The answer to a request and the rows behind it. What they are by the rows held, and what is true of them, is in specs/.
#![tactic(auto)]

use answers::Answer;

// The answer, and the rows that steps 2, 3 and 5 picked, as far as the steps got.
#[derive(Clone, Copy)]
pub struct Explained {
    pub answer: Answer,
    pub mapping: Option<usize>,
    pub access: Option<usize>,
    pub view: Option<usize>,
}
