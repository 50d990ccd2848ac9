//! Instructions that compute on a stack alone: numeric, parametric and reference instructions, and those on locals. Each call takes just the
//! one reduction of the configuration in which a segment's stack stands.
#![tactic(auto)]

mod local_steps;
mod numbers;
mod numeric_steps;
mod parametric_steps;
mod reference_steps;

pub use local_steps::{local_get, local_set, local_tee};
pub use numeric_steps::numeric;
pub use parametric_steps::{drop_operand, select};
pub use reference_steps::{ref_as_non_null, ref_func, ref_is_null, ref_null};
