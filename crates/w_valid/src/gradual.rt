//! Bodies that are judged one by one.
ghost use Rattle.std.specs.Prelude.{◌≡◌, ◌+◌, false, IfOk, IfErr, OnOk, OnErr, Ok, Err};
ghost use Rattle.w_syntax.specs.Functions.{code_of_function};
ghost use Rattle.w_syntax.specs.declared.module.Module.{Module as TheModule};
ghost use Rattle.w_canon.specs.Supertypes.{KeepsKinds};
ghost use Rattle.w_rules.specs.Limits.{Within, Passes};
ghost use Rattle.w_rules.specs.Valid.{Item, Valid, IsInvalidAt};
ghost use Rattle.w_rules.specs.declared.limits.SizeLimit.{SizeLimit as TheLimit};
ghost use Rattle.w_items.specs.Faults.{fault_of, IsFaultOf, IsAnswer};
ghost use Rattle.w_items.specs.declared.fault.ValidFault.TheVariants.{OutOfMemory};
ghost use Rattle.w_valid.specs.Gradual.{AnswersFor, IsOutOfMemory, judged};
ghost use Rattle.w_valid.specs.JudgedBodies.{IsBodyAnswer};
ghost use Rattle.w_syntax.specs.SameBefore.{SameBefore};
ghost use Rattle.w_valid.specs.Tables.{AreDue, AreTablesIn};

use crate::functions::measure_code;
use crate::judged_bodies::{BodyMeasure, JudgedBodies};
use crate::tables::TablesSoFar;
use crate::validation::judge;
use std::alloc::{AllocError, Global};
use w_items::{ValidFault, item_at};
use w_rules::{Checked, data_needs, keeps_locals};
use w_syntax::Module;
use w_vplain::Room;

/// Judges the bodies of a module one by one as they are read, and then the module. It keeps what is known of each body that was judged
/// (`AnswersFor`), and what bodies are judged by, which is made with the first.
#[derive(Drop)]
pub struct Gradual {
    pub(crate) alloc: Global,
    pub(crate) tables: TablesSoFar,
    pub(crate) bodies: JudgedBodies,
    pub(crate) room: Room,
    pub(crate) out_of_memory: bool,
}

// What is known of the body of this index, by the tables that its module makes: it is judged with just the data segments that it names.
// Of a module that passes a limit, or whose types are not valid, all may be said: that is told before any body is.
fn answer_of(
    alloc: Global,
    tables: &TablesSoFar,
    room: &mut Room,
    candidate: &Module,
    index: usize,
) -> Result<Option<BodyMeasure>, AllocError>
    requires { AreDue tables.now }
    ensures { IfOk result (λ answer. (n : TheModule) → AreTablesIn n tables.now → SameBefore candidate.now n
        → code_of_function candidate.now index ≡ code_of_function n index → Within n → KeepsKinds n.types → IsBodyAnswer n index answer) }
{
    let TablesSoFar::Made(tables) = tables else {
        return Ok(None);
    };
    let Some(kind) = item_at(&candidate.functions, index) else {
        return Ok(None);
    };
    let Some(code) = item_at(&candidate.codes, index) else {
        return Ok(None);
    };
    if !keeps_locals(candidate, index) {
        return Ok(None);
    }
    let needs = data_needs(&code.body);
    let setting = tables.setting(needs);
    match measure_code(alloc, &setting, room, *kind, code)? {
        Some((height, depth)) => Ok(Some(BodyMeasure {
            height,
            depth,
            needs,
        })),
        None => Ok(None),
    }
}

impl Gradual {
    /// No body yet.
    pub fn begin(alloc: Global) -> Result<Gradual, AllocError>
        ensures none { IfOk result (λ gradual. judged gradual ≡ 0) }
        ensures answers { IfOk result (λ gradual. (m : TheModule) → AnswersFor gradual m) }
        ensures sound { IfOk result (λ gradual. IsOutOfMemory gradual → ⊥) }
    {
        let bodies = JudgedBodies::new(alloc);
        Ok(Gradual {
            alloc,
            tables: TablesSoFar::NotYet,
            bodies,
            room: Room::new(alloc),
            out_of_memory: false,
        })
    }

    /// How many bodies were judged.
    pub fn judged(&self) -> usize
        ensures { result ≡ judged self.now }
    {
        self.bodies.len()
    }

    // Judges the next body, where memory has not run out before.
    fn judge_body(&mut self, candidate: &Module, index: usize) -> Result<(), AllocError>
        requires index { index ≡ judged self.old }
        requires sound { self.old.out_of_memory ≡ false }
        ensures answers { OnOk result ((n : TheModule) → AnswersFor self.old n → SameBefore candidate.now n
            → code_of_function candidate.now index ≡ code_of_function n index → AnswersFor self.new n) }
        ensures judged { OnOk result (judged self.new ≡ judged self.old + 1) }
        ensures same { self.new.out_of_memory ≡ false }
    {
        self.tables.make(self.alloc, candidate)?;
        let answer = answer_of(self.alloc, &self.tables, &mut self.room, candidate, index)?;
        self.bodies.push(answer)?;
        Ok(())
    }

    /// Judges the body of this index, which must be the number of those judged before, in a module whose lists in front of the code
    /// section are there, and its code. The answer counts for every module that has these. Where memory runs out each later call fails too.
    pub fn body(&mut self, candidate: &Module, index: u32) -> Result<(), AllocError>
        requires { index ≡ judged self.old }
        ensures answers { (n : TheModule) → AnswersFor self.old n → SameBefore candidate.now n
            → code_of_function candidate.now index ≡ code_of_function n index → AnswersFor self.new n }
        ensures judged { OnOk result (judged self.new ≡ judged self.old + 1) }
        ensures sound { OnOk result (IsOutOfMemory self.new → ⊥) }
        ensures failed { OnErr result (IsOutOfMemory self.new) }
        ensures again { IsOutOfMemory self.old → OnOk result ⊥ }
    {
        if self.out_of_memory {
            return Err(AllocError);
        }
        match self.judge_body(candidate, index as usize) {
            Ok(()) => Ok(()),
            Err(error) => {
                self.out_of_memory = true;
                Err(error)
            }
        }
    }

    /// Judges the module whose first bodies were judged: answers what `validate` answers of it, and `OutOfMemory` where memory ran out
    /// before.
    pub fn finish(self, candidate: Module) -> Result<Checked, ValidFault>
        requires { AnswersFor self candidate }
        ensures ok { IfOk result (λ checked. checked ≡ candidate) }
        ensures within { IfOk result (λ checked. Within checked) }
        ensures valid { IfOk result (λ checked. Valid checked) }
        ensures err { IfErr result (λ fault. IsFaultOf candidate fault) }
        // Each module has its answer, unless memory runs out.
        ensures only_ok { Within candidate → Valid candidate → IsAnswer (Ok candidate) result }
        ensures only_limit { (name : TheLimit) → Passes candidate name
            → IsAnswer (Err (ValidFault.Limit name)) result }
        ensures only_item { (x : Item) → Within candidate → IsInvalidAt candidate x
            → IsAnswer (Err (fault_of x)) result }
        ensures again { IsOutOfMemory self → result ≡ Err OutOfMemory }
    {
        let Gradual {
            alloc,
            tables,
            bodies,
            mut room,
            out_of_memory,
        } = self;
        if out_of_memory {
            drop(candidate);
            return Err(ValidFault::OutOfMemory);
        }
        match judge(alloc, &candidate, tables, bodies, &mut room) {
            Ok(facts) => Ok(Checked::make(candidate, facts)),
            Err(fault) => {
                drop(candidate);
                Err(fault)
            }
        }
    }
}
