// What is said of all kinds of session together: ROM P, ROM E and uartboot. It has no code of its own.
#![tactic(auto)]
