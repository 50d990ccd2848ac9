//! What a stack enters, and where it stands.

/// What is entered: a label or a frame (Core, execution, runtime structure: labels, frames). Places are counted in the function's
/// instructions.
#[derive(Clone, Copy)]
pub enum Entry {
    /// A label that takes so many operands inside, of which a branch keeps `arity` and leads to the place `target`.
    Label {
        params: u32,
        arity: u32,
        target: u32,
    },
    /// The frame of a function, which takes so many operands as its first locals, has so many locals in all, parameters included, and
    /// gives `arity` results.
    Frame {
        func: u32,
        params: u32,
        locals: u32,
        arity: u32,
    },
}

/// Where a segment stands.
#[derive(Clone, Copy)]
pub enum Stage {
    /// Its function is invoked next.
    Fresh,
    /// Before the instruction at its place.
    Body,
    /// At the branch that a caught suspend leaves, to the label so many levels out (stack-switching explainer, suspend).
    Branch(u32),
    /// Behind its last frame: its operands are its results.
    Values,
}
