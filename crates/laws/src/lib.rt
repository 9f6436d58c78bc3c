// General definitions (specs/) and what is true of them (proofs/). There is no code here.
#![tactic(auto)]
