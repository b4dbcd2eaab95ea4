// No code: the demands as properties of any desk (specs), and that ours has them and a sham has not (proofs).

#![tactic(auto)]
