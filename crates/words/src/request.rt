//! What the words ask for.
ghost use Rattle.std.specs.Prelude.{◌≡◌};
ghost use Rattle.words.specs.Request.{taken_by};

/// What is done with the module of a file.
#[derive(Clone, Copy)]
pub enum Action {
    /// It is judged.
    Check,
    /// It is run, for so many steps, and its statistics are told or not.
    Run { steps: u64, stats: bool },
    /// It is written in its canonical spelling.
    Build,
    /// It is written as text.
    Dump,
    /// It is read from its text, and written in its canonical spelling.
    Assemble,
    /// It is run, for so many steps, and what the run does with continuations is written.
    Trace { steps: u64 },
}

/// Which files an action takes.
#[derive(Clone, Copy)]
pub enum Takes {
    /// Modules, and as scripts all files that don't begin as modules do.
    ModulesAndScripts,
    /// Modules alone: a file that is none is malformed.
    Modules,
    /// Texts, whatever they begin with.
    Texts,
}

impl Action {
    /// Which files it takes.
    pub fn takes(self) -> Takes
        ensures { result ≡ taken_by self }
    {
        match self {
            Action::Check => Takes::ModulesAndScripts,
            Action::Run { steps: _, stats: _ } => Takes::ModulesAndScripts,
            Action::Build => Takes::ModulesAndScripts,
            Action::Dump => Takes::Modules,
            Action::Assemble => Takes::Texts,
            Action::Trace { steps: _ } => Takes::Modules,
        }
    }
}

/// What the words ask for.
#[derive(Drop)]
pub enum Request<'a> {
    /// An action on a file.
    OnFile {
        file: &'a str,
        action: Action,
    },
    /// The run of some files, linked, for so many steps; its statistics are told or not.
    OnFiles {
        files: Vec<&'a str>,
        steps: u64,
        stats: bool,
    },
    /// The audit of what the file `trace` says of the run of the module of the file `file`, for so many steps.
    Audited {
        file: &'a str,
        trace: &'a str,
        steps: u64,
    },
    /// The run of the script that is generated for this number, from 1 to 500.
    Generated(u32),
}
