//! Why bytes are no module.
ghost use Rattle.std.specs.Prelude.{◌≡◌};
ghost use Rattle.w_decode.specs.declared.fault.DecodeFault.TheVariants.{OutOfMemory};

use std::alloc::AllocError;
use thiserror::Error;

/// Why bytes give no module: the first that fails, from the front (Core, binary format, modules).
#[derive(Clone, Copy, Debug, PartialEq, Eq, Error)]
pub enum DecodeFault {
    /// The first eight bytes are not the magic number and the version.
    #[error("the bytes do not begin with the header of a module")]
    Header,
    /// Bytes follow so many whole sections, and no section is framed there: its id or its size cannot be read, the size
    /// passes the end, or the id is unknown, repeated or out of order.
    #[error("section {0} is not framed")]
    Frame(usize),
    /// The section after so many whole ones is framed, and its contents are not spelled.
    #[error("the contents of section {0} are not spelled")]
    Content(usize),
    /// The numbers of functions and of codes differ, or the data count is not the number of data segments, or there is none and
    /// a body names a data segment.
    #[error("the counts of the sections do not agree")]
    Counts,
    #[error("out of memory")]
    OutOfMemory,
}

impl From<AllocError> for DecodeFault {
    ghost from_gives = { λ _ e. e ≡ OutOfMemory };

    fn from(_: AllocError) -> Self {
        DecodeFault::OutOfMemory
    }
}
