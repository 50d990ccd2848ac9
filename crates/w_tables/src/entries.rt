//! What a function of the store is.

/// A function of the host, by what it prints.
#[derive(Clone, Copy)]
pub enum Printer {
    /// An i32, as text.
    I32,
    /// An i64, as text.
    I64,
    /// The low byte of an i32, as it is.
    Byte,
}

/// A function of the store (Core, execution, runtime structure, function instances).
#[derive(Clone, Copy)]
pub enum FuncEntry {
    /// One of the module, by its index there.
    Own(u32),
    /// One of the host.
    Printer(Printer),
}
