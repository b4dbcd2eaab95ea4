// No code: document 01 as definitions that compute (specs), and their laws (proofs).

#![tactic(auto)]
