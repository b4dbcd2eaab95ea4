// No code: lists of calls on any kind of desk, and demands 1 and 3 of any kind, proved once.

#![tactic(auto)]
