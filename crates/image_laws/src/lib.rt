// Theorems about images: which are accepted, by the definitions and by docs/SPEC.md, 9; both round trips; the least and the greatest length. No
// code: they stand apart so that no must-fail edit of reader or writer proves them again.
#![tactic(auto)]
