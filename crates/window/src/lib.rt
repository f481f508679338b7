// The busy window of a level: why a job is over within its line's response figure.
#![tactic(auto)]
