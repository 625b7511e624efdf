// Worked states for `rules`, as theorems: one that keeps the rules, and for each rule one that breaks it and is refused. No code: these compute for
// some seconds, and stand apart so that no must-fail edit of `rules` computes them again.
#![tactic(auto)]
