//! Whole lists of tokens.
ghost use Rattle.std.specs.Prelude.{◌≡◌, ◌≢◌, Result, IfOk, IfErr, length};
ghost use Rattle.s_syntax.specs.declared.script.Script.{Script as TheScript};
ghost use Rattle.s_lex.specs.Lexes.{AreInOrder};
ghost use Rattle.s_parse.specs.declared.fault.ParseFault.{ParseFault as TheFault};
ghost use Rattle.s_parse.specs.declared.fault.ParseFault.TheVariants.{OutOfMemory};
ghost use Rattle.s_parse.specs.Parsed.{parsed};
ghost use Rattle.s_parse.specs.Refusal.{IsScript, HasFault, Means, IsAnswer};

use crate::declaration::script_at;
use crate::fault::ParseFault;
use lists::ListOf;
use s_expr::{Source, Stop};
use s_syntax::{Script, Token};
use std::alloc::Global;

// What reading the tokens gives.
fn parse_exactly(source: &Source) -> Result<Script, ParseFault>
    ensures answer { IsAnswer (parsed source.now.bytes.now source.now.tokens.now) result }
{
    match script_at(source, 0, 64) {
        Ok((script, at)) => {
            let count = source.tokens.len();
            if at < count {
                return Err(ParseFault::Parse(at));
            }
            Ok(script)
        }
        Err(Stop::Wrong(at)) => Err(ParseFault::Parse(at)),
        Err(Stop::TooDeep(_)) => Err(ParseFault::Deep),
        Err(Stop::Memory) => Err(ParseFault::OutOfMemory),
    }
}

/// The script that the tokens of these bytes spell. `Parse` is the number of the first token, the end of the file counted as the last one, with
/// which no script goes on; `Deep` is answered in its place where the first token of nesting 65 stands before it. `OutOfMemory` may come of any
/// tokens. Each token is looked at a few times at most.
pub fn parse(alloc: Global, bytes: &[u8], tokens: &ListOf<Token>) -> Result<Script, ParseFault>
    // The tokens stand in the bytes, one behind another.
    requires order { AreInOrder 0 (length bytes.now) tokens.now }

    // What is answered is spelled by the tokens, and no nesting is above 64; a fault has its cause.
    ensures ok { IfOk result (λ p. IsScript bytes.now tokens.now p) }
    ensures err { IfErr result (λ e. e ≢ OutOfMemory → HasFault bytes.now tokens.now e) }

    // Whatever the tokens mean is answered, unless memory runs out.
    ensures only { (r : Result TheScript TheFault) → Means bytes.now tokens.now r → IsAnswer r result }
{
    let source = Source {
        alloc,
        bytes,
        tokens: tokens.as_slice(),
    };
    parse_exactly(&source)
}
