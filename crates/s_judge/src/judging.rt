//! Bytes, judged as a script.
ghost use Rattle.std.specs.Prelude.{◌≡◌, ◌≢◌, Result, IfOk, IfErr};
ghost use Rattle.s_syntax.specs.declared.script.Script.{Script as TheScript};
ghost use Rattle.s_judge.specs.Judgements.{IsGood, HasFault, Means, IsAnswer};
ghost use Rattle.s_judge.specs.declared.fault.ScriptFault.{ScriptFault as TheFault};
ghost use Rattle.s_judge.specs.declared.fault.ScriptFault.TheVariants.{OutOfMemory};

use crate::fault::ScriptFault;
use s_check::{CheckedScript, review};
use s_lex::lex;
use s_parse::parse;
use std::alloc::Global;

/// The most bytes of a script.
const LENGTH_LIMIT: usize = 1_048_576;

// The script, or the first fault in the order of the parts.
fn judge_in_turn(alloc: Global, bytes: &[u8]) -> Result<CheckedScript, ScriptFault>
    ensures ok { IfOk result (λ p. IsGood bytes.now p) }
    ensures err { IfErr result (λ e. e ≢ OutOfMemory → HasFault bytes.now e) }
{
    if bytes.len() > LENGTH_LIMIT {
        return Err(ScriptFault::TooLong);
    }
    let tokens = lex(alloc, bytes)?;
    let script = parse(alloc, bytes, &tokens)?;
    Ok(review(alloc, script)?)
}

/// The script that bytes spell, where it breaks no rule. Of the faults the first is told, in the order: too long, no token, no script, a rule
/// that is broken. `OutOfMemory` may come of any bytes.
pub fn judge(alloc: Global, bytes: &[u8]) -> Result<CheckedScript, ScriptFault>
    ensures ok { IfOk result (λ p. IsGood bytes.now p) }
    ensures err { IfErr result (λ e. e ≢ OutOfMemory → HasFault bytes.now e) }

    // Whatever the bytes mean is answered, unless memory runs out.
    ensures only { (r : Result TheScript TheFault) → Means bytes.now r → IsAnswer r result }
{
    judge_in_turn(alloc, bytes)
}
