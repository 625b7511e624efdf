// What a call is answered and what it changes: docs/SPEC.md, 7, in specs/, and laws about it, in proofs/. No code: the functions that are
// proved to meet it are modules of `calls` that no other crate can name.
#![tactic(auto)]
