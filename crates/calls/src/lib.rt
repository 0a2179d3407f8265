// The calls on a store of which lists are made, and what each of them does: see specs/. There is no code here.
#![tactic(auto)]
