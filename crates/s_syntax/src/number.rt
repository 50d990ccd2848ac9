//! Numbers.
ghost use Rattle.std.specs.Prelude.{◌≤◌};

/// A number as a script writes it, from 0 to 9223372036854775807.
#[derive(Clone, Copy, Debug, PartialEq, Eq)]
pub struct Number {
    pub value: u64,
    ghost small: { value ≤ 9223372036854775807 },
}
