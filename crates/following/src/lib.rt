//! Runs of a machine that follow those of a script (`specs/`): from single steps to output, end and time.
#![tactic(auto)]
