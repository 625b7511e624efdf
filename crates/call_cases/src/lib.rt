// The worked cases of docs/SPEC.md, 7, as theorems: general ones over any state, and one worked state of a pump. No code: the worked state computes, and
// stands apart so that nothing computes it again.
#![tactic(auto)]
