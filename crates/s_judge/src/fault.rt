//! Why bytes are no script that breaks no rule.

use s_check::{Refused, Rule};
use s_lex::LexFault;
use s_parse::ParseFault;
use thiserror::Error;

/// Why bytes are no script that breaks no rule.
#[derive(Clone, Copy, Debug, PartialEq, Eq, Error)]
pub enum ScriptFault {
    /// There are more than 1,048,576 bytes.
    #[error("the script is too long")]
    TooLong,
    /// The first byte at which no token, separator or comment begins.
    #[error("no token begins at byte {0}")]
    Lex(usize),
    /// The least number of a token, from 0, such that no script begins with the tokens up to this one. The end of the file counts as the last
    /// token.
    #[error("no script begins with tokens 0 to {0}")]
    Parse(usize),
    /// A script could go on with a bracket that is the 65th one open.
    #[error("more than 64 brackets are open")]
    Deep,
    /// The first declaration that breaks a rule, from 0, and the least rule that it breaks.
    #[error("declaration {0} breaks a rule: {1:?}")]
    Rule(usize, Rule),
    #[error("out of memory")]
    OutOfMemory,
}

impl From<LexFault> for ScriptFault {
    ghost use Rattle.std.specs.Prelude.{◌≡◌};
    ghost use Rattle.s_judge.specs.Faults.{of_lexing};

    ghost from_gives = { λ fault e. e ≡ of_lexing fault };

    fn from(fault: LexFault) -> Self {
        match fault {
            LexFault::Lex(at) => ScriptFault::Lex(at),
            LexFault::OutOfMemory => ScriptFault::OutOfMemory,
        }
    }
}

impl From<ParseFault> for ScriptFault {
    ghost use Rattle.std.specs.Prelude.{◌≡◌};
    ghost use Rattle.s_judge.specs.Faults.{of_parsing};

    ghost from_gives = { λ fault e. e ≡ of_parsing fault };

    fn from(fault: ParseFault) -> Self {
        match fault {
            ParseFault::Parse(at) => ScriptFault::Parse(at),
            ParseFault::Deep => ScriptFault::Deep,
            ParseFault::OutOfMemory => ScriptFault::OutOfMemory,
        }
    }
}

impl From<Refused> for ScriptFault {
    ghost use Rattle.std.specs.Prelude.{◌≡◌};
    ghost use Rattle.s_judge.specs.Faults.{of_review};

    ghost from_gives = { λ fault e. e ≡ of_review fault };

    fn from(fault: Refused) -> Self {
        match fault {
            Refused::Rule(declaration, rule) => ScriptFault::Rule(declaration, rule),
            Refused::OutOfMemory => ScriptFault::OutOfMemory,
        }
    }
}
