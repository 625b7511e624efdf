// What a change of judging/specs/Change.antt does to the tables of numbers, in specs/, and that the tables then stand for the state after, in proofs/Picture.antt
// (`applied`, `fit_after`). No code: the functions that are proved to meet it are modules of `calls` that no other crate can name.
#![tactic(auto)]
