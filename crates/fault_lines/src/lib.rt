// What the lines of a report are: definitions and laws only.
#![tactic(auto)]
