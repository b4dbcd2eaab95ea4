// No code: what a session's output must be, as properties of any program from bytes to bytes (specs), and that ours has them and a sham
// has not (proofs).

#![tactic(auto)]
