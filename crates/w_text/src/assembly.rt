//! The module that lines make, as far as they have come.
ghost use Rattle.std.specs.Prelude.{◌≡◌, Option, IfOk, OnOk, true};
ghost use Rattle.w_syntax.specs.declared.module.Module.{Module as TheModule};
ghost use Rattle.w_text.specs.Machine.{Open as TheOpen, Next, Opens, Gives, State, Fresh, rank, rank_after, head_rank, open_rank, add, placed, opening, next as after_line, step, finished};
ghost use Rattle.w_text.specs.Standing.{head_of, IsClosed, IsOpen, NextIs, closed_next};
ghost use Rattle.w_syntax.specs.Code.{Code};
ghost use Rattle.w_text.specs.Assembled.{so_far, Stands, SteppedTo};

use crate::item::Item;
use crate::pending::{Open, Outcome, Pending, finished, next};
use std::alloc::{AllocError, Global};
use std::mem;
use w_lines::Line;
use w_syntax::{Module, Progress};
use w_types::{RecGroup, RecGroups};

/// What the lines so far made of a module.
#[derive(Drop)]
pub(crate) struct Assembly {
    alloc: Global,
    // Whether the first line has come.
    begun: bool,
    // The place of the list that has been reached, of the eleven lists of a module.
    place: u8,
    // The module so far, but for its groups of types.
    program: Module,
    groups: Vec<RecGroup>,
    opened: Open,
}

// The place of an item's list.
fn rank_of(item: &Item) -> u8
    ensures { result ≡ rank item.now }
{
    match item {
        Item::Group(_) => 0,
        Item::Imported(_) => 1,
        Item::TableItem(_) => 2,
        Item::Memory(_) => 3,
        Item::TagItem(_) => 4,
        Item::Global(_) => 5,
        Item::Exported(_) => 6,
        Item::Start(_) => 7,
        Item::Elements(_) => 8,
        Item::Bytes(_) => 9,
        Item::Function(_, _) => 10,
    }
}

// The first place at which an item may stand behind it.
fn rank_behind(item: &Item) -> u8
    ensures { result ≡ rank_after item.now }
{
    match item {
        Item::Start(_) => 8,
        _ => rank_of(item),
    }
}

// The place of the list of what has an expression.
fn rank_of_pending(pending: &Pending) -> u8
    ensures { result ≡ head_rank (head_of pending.now) }
{
    match pending {
        Pending::Table(_) => 2,
        Pending::Global(_) => 5,
        Pending::Place(_, _, _) | Pending::Items(_, _, _, _, _) => 8,
        Pending::Data(_, _) => 9,
        Pending::Function(_, _) => 10,
    }
}

// The place of the list of what is open, and this place where nothing is.
#[tactic(auto, using(crate::proofs::Assemblies::open_place))]
fn rank_of_open(opened: &Open, place: u8) -> u8
    ensures { (o : TheOpen) → IsOpen o opened.now → open_rank o place ≡ result }
{
    match opened {
        Open::Between => place,
        Open::Group(_, _) => 0,
        Open::Locals(_, _) => 10,
        Open::Expression(pending, _) => rank_of_pending(pending),
    }
}

// Adds an item to a module.
fn add_item(program: &mut Module, groups: &mut Vec<RecGroup>, item: Item) -> Result<(), AllocError>
    ensures { OnOk result (add item (so_far program.old groups.old.items) ≡ so_far program.new groups.new.items) }
{
    match item {
        Item::Group(group) => groups.push(group)?,
        Item::Imported(import) => program.imports.push(import)?,
        Item::TableItem(table) => program.tables.push(table)?,
        Item::Memory(limits) => program.memories.push(limits)?,
        Item::TagItem(tag) => program.tags.push(tag)?,
        Item::Global(global) => program.globals.push(global)?,
        Item::Exported(export) => program.exports.push(export)?,
        Item::Start(function) => program.start = Some(function),
        Item::Elements(elements) => program.elements.push(elements)?,
        Item::Bytes(data) => program.datas.push(data)?,
        Item::Function(kind, function) => {
            program.functions.push(kind)?;
            program.codes.push(function)?;
        }
    }
    Ok(())
}

impl Assembly {
    ghost use Rattle.std.specs.Prelude.{◌≡◌, Option, IfOk, true};
    ghost use Rattle.w_syntax.specs.Code.{Code};
    ghost use Rattle.w_text.specs.Machine.{Open as TheOpen, Next, Opens, Gives, State, Fresh, placed, opening, next as after_line, step, finished};
    ghost use Rattle.w_text.specs.Standing.{IsClosed, IsOpen, NextIs, closed_next};
    ghost use Rattle.w_text.specs.Assembled.{so_far, Stands, SteppedTo};

    /// No line yet.
    pub(crate) fn new(alloc: Global) -> Assembly
        ensures { Stands Fresh result }
    {
        Assembly {
            alloc,
            begun: false,
            place: 0,
            program: Module::empty(alloc),
            groups: Vec::new(alloc),
            opened: Open::Between,
        }
    }

    // Takes an item, where its place has not been passed.
    fn take(&mut self, item: Item) -> Result<bool, AllocError>
        requires { self.old.begun ≡ true }
        ensures { IfOk result (λ r. SteppedTo (placed self.old.place (so_far self.old.program self.old.groups.items) (Gives item)) r self.new) }
    {
        if rank_of(&item) < self.place {
            return Ok(false);
        }
        self.place = rank_behind(&item);
        add_item(&mut self.program, &mut self.groups, item)?;
        self.opened = Open::Between;
        Ok(true)
    }

    // Goes on with what is open, where its place has not been passed.
    fn stay(&mut self) -> bool
        requires { self.old.begun ≡ true }
        ensures { (o : TheOpen) → IsOpen o self.old.opened → SteppedTo (placed self.old.place (so_far self.old.program self.old.groups.items) (Opens o)) result self.new }
    {
        let rank = rank_of_open(&self.opened, self.place);
        if rank < self.place {
            return false;
        }
        self.place = rank;
        true
    }

    // Takes what came of a line.
    fn follow(&mut self, outcome: Outcome) -> Result<bool, AllocError>
        requires { self.old.begun ≡ true }
        ensures { IfOk result (λ r. (n : Next) → NextIs n outcome → SteppedTo (placed self.old.place (so_far self.old.program self.old.groups.items) n) r self.new) }
    {
        match outcome {
            Outcome::Opens(opened) => {
                self.opened = opened;
                Ok(self.stay())
            }
            Outcome::Gives(item) => self.take(item),
            Outcome::Refuses => Ok(false),
        }
    }

    // Takes the body that the open expression has come to.
    fn close(&mut self) -> Result<bool, AllocError>
        requires begun { self.old.begun ≡ true }
        requires whole { (d : Code) × IsClosed d self.old.opened }
        ensures { IfOk result (λ r. (d : Code) → IsClosed d self.old.opened → SteppedTo (placed self.old.place (so_far self.old.program self.old.groups.items) (closed_next self.old.opened d)) r self.new) }
    {
        match mem::replace(&mut self.opened, Open::Between) {
            Open::Expression(pending, builder) => {
                let body = builder.into_body()?;
                let outcome = finished(self.alloc, pending, body)?;
                self.follow(outcome)
            }
            Open::Between | Open::Group(_, _) | Open::Locals(_, _) => unreachable!(),
        }
    }

    // Takes the first line.
    fn begin(&mut self, line: Line) -> bool
        requires { Stands Fresh self.old }
        ensures { SteppedTo (opening line) result self.new }
    {
        match line {
            Line::Module => {
                self.begun = true;
                true
            }
            _ => false,
        }
    }

    // Takes a line behind the first.
    fn read(&mut self, line: Line) -> Result<bool, AllocError>
        requires begun { self.old.begun ≡ true }
        requires is_open { (o : TheOpen) × IsOpen o self.old.opened }
        ensures { IfOk result (λ r. (o : TheOpen) → IsOpen o self.old.opened → SteppedTo (placed self.old.place (so_far self.old.program self.old.groups.items) (after_line o line)) r self.new) }
    {
        // Most lines stand in an expression, which grows where it is.
        if let Open::Expression(_, builder) = &mut self.opened {
            let Line::Token(token) = line else {
                return Ok(false);
            };
            return match builder.push(token)? {
                Progress::More => Ok(self.stay()),
                Progress::Wrong => Ok(false),
                Progress::Finished => self.close(),
            };
        }
        let opened = mem::replace(&mut self.opened, Open::Between);
        let outcome = next(self.alloc, opened, line)?;
        self.follow(outcome)
    }

    /// Takes a line: `false` exactly where no module goes on with it, and nothing is known of the assembly then. It fails only for
    /// want of memory.
    pub(crate) fn step(&mut self, line: Line) -> Result<bool, AllocError>
        requires { (s : State) × Stands s self.old }
        ensures { IfOk result (λ r. (s : State) → Stands s self.old → SteppedTo (step s line) r self.new) }
    {
        if self.begun {
            self.read(line)
        } else {
            Ok(self.begin(line))
        }
    }

    /// The module, where the lines are those of one. It fails only for want of memory.
    pub(crate) fn finish(self) -> Result<Option<Module>, AllocError>
        ensures { IfOk result (λ program. (s : State) → Stands s self → program ≡ finished s) }
    {
        let Assembly {
            alloc,
            begun,
            place: _,
            mut program,
            groups,
            opened,
        } = self;
        if !begun {
            return Ok(None);
        }
        match opened {
            Open::Between => {
                program.types = RecGroups::from_vec(alloc, groups)?;
                Ok(Some(program))
            }
            _ => Ok(None),
        }
    }
}
