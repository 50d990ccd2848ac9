//! Whole scripts.
ghost use Rattle.std.specs.Prelude.{◌≡◌, ◌≢◌, List, [], Result, IfOk, IfErr, None, codes};
ghost use Rattle.s_syntax.specs.declared.name.Name.{Name as TheName};
ghost use Rattle.s_syntax.specs.declared.script.Script.{Script as TheScript};
ghost use Rattle.s_check.specs.declared.refused.Refused.{Refused as TheRefused};
ghost use Rattle.s_check.specs.declared.refused.Refused.TheVariants.{OutOfMemory};
ghost use Rattle.s_check.specs.Definitions.{function_of};
ghost use Rattle.s_check.specs.Least.{least_of, first_broken};
ghost use Rattle.s_check.specs.Refusal.{Good, IsRefusal, Means, IsAnswer};
ghost use Rattle.s_check.specs.Rules.{in_declaration, is_main, broken_rules};
ghost use Rattle.s_check.specs.Scopes.{is_among};
ghost use Rattle.s_check.specs.Views.{HasNames};

use crate::checked::CheckedScript;
use crate::declarations::Declarations;
use crate::definition::in_definition;
use crate::noted::noted_before;
use crate::refused::Refused;
use crate::rule::{Rule, broken_where};
use s_syntax::{Declaration, Name, Script};
use std::alloc::{AllocError, Global};
use std::collections::BTreeSet;

// The least rule that a declaration breaks, whose name an earlier one has or hasn't.
#[tactic(auto, using(crate::proofs::Least::least_append))]
fn in_declaration<'a>(
    alloc: Global,
    declarations: &Declarations<'a>,
    is_again: bool,
    declaration: &'a Declaration,
) -> Result<Option<Rule>, AllocError>
    ensures value { IfOk result (λ now. (before : List TheName) → is_again ≡ is_among before declaration.now.name → now ≡ least_of None (in_declaration declarations.now before declaration.now)) }
{
    let least = broken_where(is_again, Rule::NameDeclaredTwice, None);
    in_definition(
        alloc,
        declarations,
        &declaration.name,
        &declaration.definition,
        least,
    )
}

// Whether there is a function `main` without parameters.
fn has_main<'a>(declarations: &Declarations<'a>, main: &'a Name) -> bool
    requires { main.now ≡ codes "main" }
    ensures value { result ≡ is_main (function_of declarations.now (codes "main")) }
{
    match declarations.function(main) {
        Some(function) => function.parameters.len() == 0,
        None => false,
    }
}

// The first declaration that breaks a rule, with the least that it breaks; behind the declarations, whether `main` is missing. The names of
// those gone through are noted in the set.
fn first_in<'a>(
    alloc: Global,
    declarations: &Declarations<'a>,
    main: &'a Name,
    before: &mut BTreeSet<&'a [u8]>,
    all: &'a [Declaration],
) -> Result<Option<(usize, Rule)>, AllocError>
    requires main { main.now ≡ codes "main" }
    requires all { declarations.now ≡ all.now }
    requires none { HasNames before.old [] }
    ensures value { IfOk result (λ broken. broken ≡ first_broken 0 (broken_rules all.now)) }
{
    for index in 0..all.len() {
        let declaration = &all[index];
        let is_again = noted_before(before, &declaration.name)?;
        if let Some(rule) = in_declaration(alloc, declarations, is_again, declaration)? {
            return Ok(Some((index, rule)));
        }
    }
    if has_main(declarations, main) {
        Ok(None)
    } else {
        Ok(Some((all.len(), Rule::NoMain)))
    }
}

// The same of a script's declarations. What it owns is let go at one place, so that the loop over them has nothing to let go.
fn first_broken(alloc: Global, all: &[Declaration]) -> Result<Option<(usize, Rule)>, AllocError>
    ensures value { IfOk result (λ broken. broken ≡ first_broken 0 (broken_rules all.now)) }
{
    let main = Name::new(alloc, "main".as_bytes())?;
    let declarations = Declarations::new(alloc, all)?;
    let mut before = BTreeSet::new(alloc);
    first_in(alloc, &declarations, &main, &mut before, all)
}

/// The script, where it breaks no rule. `Rule` is the first declaration that breaks one, with the least rule that it breaks; where only `main`
/// is missing, it is the number of declarations. `OutOfMemory` may come of any script. It takes time that is linear in the script, but for the
/// logarithms of maps of its names.
pub fn review(alloc: Global, script: Script) -> Result<CheckedScript, Refused>
    // What is answered is the script itself, which breaks no rule; a refusal is the least.
    ensures ok { IfOk result (λ checked. (checked ≡ script) × Good script) }
    ensures err { IfErr result (λ e. e ≢ OutOfMemory → IsRefusal script e) }

    // Whatever the script means is answered, unless memory runs out.
    ensures only { (r : Result TheScript TheRefused) → Means script r → IsAnswer r result }
{
    match first_broken(alloc, script.declarations.as_slice())? {
        Some((declaration, rule)) => Err(Refused::Rule(declaration, rule)),
        None => Ok(CheckedScript::make(script)),
    }
}
