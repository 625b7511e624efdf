// That no sentence of a thread's view can be left out: for each, two states that keep the rules and are alike in every other sentence, and a call by the thread
// that is answered differently. And the theorems on a thread's own calls, the others' calls, gain and whole runs carried to the tables of numbers, through the promises of
// `calls::call` and `calls::run`. No code: the cases compute for some seconds, and stand apart so that no check of `isolation` computes them again.
#![tactic(auto)]
