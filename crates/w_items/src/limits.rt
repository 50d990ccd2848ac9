//! Validity of limits.
ghost use Rattle.std.specs.Prelude.{◌≡◌, ◌↔◌, IsTrue};
ghost use Rattle.w_rules.specs.Valid.{AreLimitsValid, most_elements, most_pages};

use w_syntax::Limits;

/// The most elements of a table (Core, validation, table types).
pub const MOST_ELEMENTS: u64 = 4_294_967_295;

/// The most pages of a memory (Core, validation, memory types).
pub const MOST_PAGES: u64 = 65_536;

/// Whether limits are valid, where no size is above this bound (Core, validation, limits).
pub(crate) fn are_limits_valid(bound: u64, limits: Limits) -> bool
    ensures { IsTrue result ↔ AreLimitsValid bound limits }
{
    match limits.max {
        Some(max) => limits.min <= max && max <= bound,
        None => limits.min <= bound,
    }
}
