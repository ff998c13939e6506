// Definitions and laws on the numbers below n; no code.
#![tactic(auto)]
