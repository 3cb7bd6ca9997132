// Two sessions joined by a line. It has no code of its own.
#![tactic(auto)]
