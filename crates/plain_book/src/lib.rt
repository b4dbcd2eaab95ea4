// No code: what bookings of any kind hold, and a list of them in order, as definitions (specs) with their laws (proofs).

#![tactic(auto)]
