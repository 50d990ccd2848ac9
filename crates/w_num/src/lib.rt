//! The integer operations of WebAssembly: each instruction gives what its operation in the standard does (`specs/`).
#![tactic(auto)]

mod arithmetic;
mod bits;
mod comparisons;
mod conversions;
mod division;
mod fault;
mod shifts;

pub use arithmetic::{i32_add, i32_mul, i32_sub, i64_add, i64_mul, i64_sub};
pub use bits::{
    i32_and, i32_clz, i32_ctz, i32_or, i32_popcnt, i32_xor, i64_and, i64_clz, i64_ctz, i64_or,
    i64_popcnt, i64_xor,
};
pub use comparisons::{
    i32_eq, i32_eqz, i32_ge_s, i32_ge_u, i32_gt_s, i32_gt_u, i32_le_s, i32_le_u, i32_lt_s,
    i32_lt_u, i32_ne, i64_eq, i64_eqz, i64_ge_s, i64_ge_u, i64_gt_s, i64_gt_u, i64_le_s, i64_le_u,
    i64_lt_s, i64_lt_u, i64_ne,
};
pub use conversions::{
    i32_extend8_s, i32_extend16_s, i32_wrap_i64, i64_extend_i32_s, i64_extend_i32_u, i64_extend8_s,
    i64_extend16_s, i64_extend32_s,
};
pub use division::{
    i32_div_s, i32_div_u, i32_rem_s, i32_rem_u, i64_div_s, i64_div_u, i64_rem_s, i64_rem_u,
};
pub use fault::NumFault;
pub use shifts::{
    i32_rotl, i32_rotr, i32_shl, i32_shr_s, i32_shr_u, i64_rotl, i64_rotr, i64_shl, i64_shr_s,
    i64_shr_u,
};
