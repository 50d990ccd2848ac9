//! How many declarations there are of each kind.
ghost use Rattle.std.specs.Prelude.{◌≡◌, ◌<◌, ◌+◌, length, ◌≤◌};
ghost use Rattle.s_index.specs.Numbers.{no_counts, counted, counts_of, number_behind};
ghost use Rattle.s_index.specs.Limits.{number_limit};

use s_syntax::{Declaration, Definition};

/// How many declarations there are of each kind.
#[derive(Clone, Copy)]
pub struct Counts {
    pub effects: u32,
    pub functions: u32,
    pub handlers: u32,
    pub slots: u32,
}

impl Counts {
    /// None.
    pub(crate) fn none() -> Counts
        ensures value { result ≡ no_counts }
    {
        Counts {
            effects: 0,
            functions: 0,
            handlers: 0,
            slots: 0,
        }
    }

    /// One more, of the kind of this definition.
    pub(crate) fn counted(self, definition: &Definition) -> Counts
        requires { self.effects + self.functions + self.handlers + self.slots < number_limit }
        ensures value { result ≡ counted self definition.now }
    {
        match definition {
            Definition::Effect(_) => Counts {
                effects: self.effects + 1,
                functions: self.functions,
                handlers: self.handlers,
                slots: self.slots,
            },
            Definition::Function(_) => Counts {
                effects: self.effects,
                functions: self.functions + 1,
                handlers: self.handlers,
                slots: self.slots,
            },
            Definition::Handler(_) => Counts {
                effects: self.effects,
                functions: self.functions,
                handlers: self.handlers + 1,
                slots: self.slots,
            },
            Definition::Slots(_) => Counts {
                effects: self.effects,
                functions: self.functions,
                handlers: self.handlers,
                slots: self.slots + 1,
            },
        }
    }

    /// How many of the kind of this definition there are.
    pub(crate) fn number_behind(self, definition: &Definition) -> u32
        ensures value { result ≡ number_behind self definition.now }
    {
        match definition {
            Definition::Effect(_) => self.effects,
            Definition::Function(_) => self.functions,
            Definition::Handler(_) => self.handlers,
            Definition::Slots(_) => self.slots,
        }
    }
}
