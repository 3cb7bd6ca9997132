// The host joined to uartboot by a line. It has no code of its own.
#![tactic(auto)]
