//! Memory instructions (Core, instructions, memory instructions).

/// A load: the value's type, and where fewer bytes are read, how many bits and whether they are signed.
#[derive(Clone, Copy)]
pub enum LoadOp {
    I32Load,
    I64Load,
    I32Load8S,
    I32Load8U,
    I32Load16S,
    I32Load16U,
    I64Load8S,
    I64Load8U,
    I64Load16S,
    I64Load16U,
    I64Load32S,
    I64Load32U,
}

/// A store: the value's type, and where fewer bytes are written, how many bits.
#[derive(Clone, Copy)]
pub enum StoreOp {
    I32Store,
    I64Store,
    I32Store8,
    I32Store16,
    I64Store8,
    I64Store16,
    I64Store32,
}

/// How a load or a store names its address: the exponent of the alignment, which is below 64, the memory, and the offset.
#[derive(Clone, Copy)]
pub struct MemArg {
    pub align: u8,
    pub memory: u32,
    pub offset: u64,
}

/// A memory instruction.
#[derive(Clone, Copy)]
pub enum MemoryOp {
    Load(LoadOp, MemArg),
    Store(StoreOp, MemArg),
    /// `memory.size`, with the memory.
    Size(u32),
    /// `memory.grow`, with the memory.
    Grow(u32),
    /// `memory.init`, with the data segment and the memory.
    Init(u32, u32),
    /// `data.drop`, with the data segment.
    DataDrop(u32),
    /// `memory.copy`, with the memory that is written and the one that is read.
    Copy(u32, u32),
    /// `memory.fill`, with the memory.
    Fill(u32),
}
