// What an unprivileged thread can learn of the latch, and what others can do to it: the view of docs/SPEC.md, 8, as a relation between two states, and that
// calls, one by one and in whole runs, keep to it. Theorems about the definitions that `calls` is proved to meet. No code: definitions in specs/, all else in
// proofs/.
#![tactic(auto)]
