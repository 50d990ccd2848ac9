//! Tests of public calls that no command of the program reaches, or of which it shows too little. All else is shown by the rows
//! of `conformance`.
#![tactic(auto)]

#[cfg(test)]
mod bodies;
#[cfg(test)]
mod calls;
#[cfg(test)]
mod checking;
#[cfg(test)]
mod classes;
#[cfg(test)]
mod errors;
#[cfg(test)]
mod lists_and_names;
#[cfg(test)]
mod modules;
#[cfg(test)]
mod outside;
#[cfg(test)]
mod pieces;
