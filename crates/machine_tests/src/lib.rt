//! Tests of the definition of runs: what small programs write, and how they end.
#![tactic(auto)]
