//! Instantiation: the store of a run, its entry, or the first reason why there is none (Core, execution, instantiation).
#![tactic(auto)]

mod allocation;
mod constants;
mod exports;
mod first_store;
mod instantiation;
mod limits;
mod printers;
mod segments;
mod starting;
mod values;

pub use exports::entry;
pub use first_store::{FirstStore, allocate};
pub use instantiation::{InstFault, Instance, instantiate};
pub use limits::exceeded;
pub use printers::{Imports, find_printers, printer_of};
pub use starting::{start_datas, start_elements};
