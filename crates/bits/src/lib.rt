// One bit of a number: what reading, setting and clearing it is, with the laws of it, for the crates above to cite. No code: all of it is in specs/.
#![tactic(auto)]
