//! Tests of the definitions of what the executor runs: small sources, lowered, do what the machine does.
#![tactic(auto)]
