// Laws of the calls' definitions, for the crates above to cite: each call keeps the rules; each operation is OK exactly when its conditions hold and
// changes exactly what is named; each refusal comes exactly when it is the first of the order that holds. No code: all of it is in proofs/.
#![tactic(auto)]
