//! Decoding in pieces.
ghost use Rattle.std.specs.Prelude.{◌≡◌, ◌≢◌, ◌++◌, ◌+◌, ◌<◌, ◌≤◌, ℕ, List, [], length, take, drop, IfOk, IfErr, IfSome, OnOk, IsNone, Ok, Err, Some, None};
ghost use Rattle.w_syntax.specs.Spells.{Spells};
ghost use Rattle.w_syntax.specs.declared.module.Module.{Module as TheModule};
ghost use Rattle.w_decode.specs.Faults.{HasFault, IsAnswer};
ghost use Rattle.w_decode.specs.Pieces.{InBetween, InSection, Lacks, IsIncomplete, IsFront, Skips, is_ended, Stands, Steps, Moves, StandsFor, HasFailed, IsSound, so_far_of};
ghost use Rattle.w_decode.specs.Ends.{EndsAs};
ghost use Rattle.w_decode.specs.Places.{Gives};
ghost use Rattle.w_decode.specs.Reading.{decoded};
ghost use Rattle.w_decode.specs.declared.fault.DecodeFault.{DecodeFault as TheFault};
ghost use Rattle.w_decode.specs.declared.fault.DecodeFault.TheVariants.{OutOfMemory};

use crate::counts::counts_agree;
use crate::decoding::{has_header, nothing};
use crate::fault::DecodeFault;
use crate::frames::Frame;
use crate::fronts::{CodeFront, CustomFront, Front, front_at};
use crate::sections::{PartialModule, add_section, section_at};
use lists::ListOf;
use std::alloc::{AllocError, Global};
use std::mem;
use w_code::FuncField;
use w_fields::{field_at, sized_at};
use w_leb::read_u32;
use w_syntax::Module;

/// What is to come of the contents of a section.
#[derive(Clone, Copy)]
pub(crate) enum Inside {
    /// All of the code section's, its count first.
    Count,
    /// So many functions of the code section.
    Codes(u32),
    /// Bytes that change nothing, and whether the section is a custom one that has its name: its contents then say so much, and else nothing.
    Skipped(bool),
}

/// Where the bytes so far end.
#[derive(Clone, Copy)]
pub(crate) enum Phase {
    /// Before the end of the header.
    Header,
    /// Behind the header and whole sections.
    Between,
    /// In a section that leaves this rank, of whose contents so many bytes are to come.
    Contents(u8, usize, Inside),
    /// Behind a fault, which each call answers from here on.
    Failed(DecodeFault),
}

/// Decodes a module whose bytes come in pieces. It stands for the bytes so far, by `StandsFor`, and keeps of them the last ones alone,
/// which no reader could take yet: those of a section that is not whole, or of the code of one function.
#[derive(Drop)]
pub struct Decoder {
    pub(crate) alloc: Global,
    pub(crate) so_far: PartialModule,
    // how many sections are whole
    pub(crate) number: usize,
    // the rank that they leave
    pub(crate) rank: u8,
    // how many functions of the code section are read
    pub(crate) closed: u32,
    pub(crate) phase: Phase,
    // the last bytes, of which no reader could take yet
    pub(crate) kept: Vec<u8>,
}

// Whether the contents say something where no more bytes come.
fn has_ended(inside: Inside) -> bool
    ensures { result ≡ is_ended inside }
{
    match inside {
        Inside::Count => false,
        Inside::Codes(more) => more == 0,
        Inside::Skipped(named) => named,
    }
}

// The bytes at the front, at most so many.
fn window(bytes: &[u8], left: usize) -> &[u8]
    ensures { result.now ≡ take left bytes.now }
{
    if bytes.len() <= left {
        return bytes;
    }
    &bytes[..left]
}

impl Decoder {
    /// No bytes yet.
    pub fn new(alloc: Global) -> Result<Decoder, AllocError>
        ensures stands { IfOk result (λ d. StandsFor d []) }
        ensures sound { IfOk result IsSound }
    {
        Ok(Decoder {
            alloc,
            so_far: nothing(alloc),
            number: 0,
            rank: 0,
            closed: 0,
            phase: Phase::Header,
            kept: Vec::new(alloc),
        })
    }

    // It has this fault from here on.
    fn fail(&mut self, fault: DecodeFault) -> Option<usize>
        ensures failed { self.new.phase ≡ Phase.Failed fault }
        ensures none { result ≡ None }
    {
        self.phase = Phase::Failed(fault);
        None
    }

    // A section is whole, was kept, and leaves this rank.
    fn end_section(&mut self, rank: u8)
        ensures { (u b : List ℕ) → InBetween self.old.so_far (self.old.number + 1) rank self.old.closed u b → Stands self.new u b }
    {
        if self.number == usize::MAX {
            self.phase = Phase::Failed(DecodeFault::OutOfMemory);
            return;
        }
        self.number += 1;
        self.rank = rank;
        self.phase = Phase::Between;
    }

    // Goes on in a section that leaves this rank, or behind it where no byte of it is to come.
    fn settle(&mut self, rank: u8, left: usize, inside: Inside)
        ensures { (u b : List ℕ) → InSection rank left inside self.old.so_far self.old.number self.old.closed u b → Stands self.new u b }
    {
        if left > 0 {
            self.phase = Phase::Contents(rank, left, inside);
            return;
        }
        if has_ended(inside) {
            self.end_section(rank);
        } else {
            self.phase = Phase::Failed(DecodeFault::Content(self.number));
        }
    }

    // Takes the header.
    fn header_step(&mut self, bytes: &[u8]) -> Option<usize>
        requires { self.old.phase ≡ Phase.Header }
        ensures moves { IfSome result (Moves bytes.now) }
        ensures steps { (b : List ℕ) → Stands self.old bytes.now b → Steps self.new bytes.now b result }
    {
        if bytes.len() < 8 {
            return None;
        }
        if !has_header(bytes) {
            return self.fail(DecodeFault::Header);
        }
        self.phase = Phase::Between;
        Some(8)
    }

    // Takes a whole section.
    fn whole_step(&mut self, bytes: &[u8], frame: Frame) -> Option<usize>
        requires phase { self.old.phase ≡ Phase.Between }
        requires front { IsFront bytes.now self.old.rank (Front.Whole frame) }
        ensures moves { IfSome result (Moves bytes.now) }
        ensures steps { (b : List ℕ) → Stands self.old bytes.now b → Steps self.new bytes.now b result }
    {
        let Frame {
            rank,
            id,
            start,
            end,
        } = frame;
        match section_at(self.alloc, id, &bytes[start..end]) {
            Ok(Some(part)) => {
                add_section(&mut self.so_far, part);
                self.end_section(rank);
                Some(end)
            }
            Ok(None) => {
                let number = self.number;
                self.fail(DecodeFault::Content(number))
            }
            Err(_) => self.fail(DecodeFault::OutOfMemory),
        }
    }

    // Takes a whole section, or the front of one that is read in part.
    fn section_step(&mut self, bytes: &[u8]) -> Option<usize>
        requires { self.old.phase ≡ Phase.Between }
        ensures moves { IfSome result (Moves bytes.now) }
        ensures steps { (b : List ℕ) → Stands self.old bytes.now b → Steps self.new bytes.now b result }
    {
        match front_at(bytes, self.rank) {
            Front::Short => None,
            Front::Bad => {
                let number = self.number;
                self.fail(DecodeFault::Frame(number))
            }
            Front::Whole(frame) => self.whole_step(bytes, frame),
            Front::Code(CodeFront { rank, size, start }) => {
                self.settle(rank, size, Inside::Count);
                Some(start)
            }
            Front::Custom(CustomFront { named, left, end }) => {
                let rank = self.rank;
                self.settle(rank, left, Inside::Skipped(named));
                Some(end)
            }
        }
    }

    // Takes what is there of a section's contents, which changes nothing more.
    fn skip(
        &mut self,
        bytes: &[u8],
        rank: u8,
        left: usize,
        inside: Inside,
        named: bool,
    ) -> Option<usize>
        requires phase { self.old.phase ≡ Phase.Contents rank left inside }
        requires skips { 0 < length (take left bytes.now) → Skips inside named self.old.so_far (take left bytes.now) }
        requires lacks { length (take left bytes.now) ≡ 0 → Lacks inside bytes.now }
        ensures moves { IfSome result (Moves bytes.now) }
        ensures steps { (b : List ℕ) → Stands self.old bytes.now b → Steps self.new bytes.now b result }
    {
        let came = window(bytes, left).len();
        if came == 0 {
            return None;
        }
        self.settle(rank, left - came, Inside::Skipped(named));
        Some(came)
    }

    // What comes next of a section's contents is not there: more bytes are to come, or the contents are not spelled.
    fn lack(&mut self, bytes: &[u8], rank: u8, left: usize, inside: Inside) -> Option<usize>
        requires phase { self.old.phase ≡ Phase.Contents rank left inside }
        requires lacks { Lacks inside (take left bytes.now) }
        requires more { IsIncomplete inside }
        ensures none { result ≡ None }
        ensures steps { (b : List ℕ) → Stands self.old bytes.now b → Steps self.new bytes.now b None }
    {
        if bytes.len() < left {
            return None;
        }
        let number = self.number;
        self.fail(DecodeFault::Content(number))
    }

    // Takes the count of functions.
    fn count_step(&mut self, bytes: &[u8], rank: u8, left: usize) -> Option<usize>
        requires { self.old.phase ≡ Phase.Contents rank left Inside.Count }
        ensures moves { IfSome result (Moves bytes.now) }
        ensures steps { (b : List ℕ) → Stands self.old bytes.now b → Steps self.new bytes.now b result }
    {
        let contents = window(bytes, left);
        let Some((count, next)) = read_u32(contents, 0) else {
            return self.lack(bytes, rank, left, Inside::Count);
        };
        self.so_far.tree.codes = ListOf::new(self.alloc);
        self.closed = 0;
        self.settle(rank, left - next, Inside::Codes(count));
        Some(next)
    }

    // Takes the code of a function.
    fn code_step(&mut self, bytes: &[u8], rank: u8, left: usize, more: u32) -> Option<usize>
        requires { self.old.phase ≡ Phase.Contents rank left (Inside.Codes more) }
        ensures moves { IfSome result (Moves bytes.now) }
        ensures steps { (b : List ℕ) → Stands self.old bytes.now b → Steps self.new bytes.now b result }
    {
        let inside = Inside::Codes(more);
        if more == 0 {
            return self.skip(bytes, rank, left, inside, false);
        }
        let contents = window(bytes, left);
        let Some(_place) = sized_at(contents, 0) else {
            return self.lack(bytes, rank, left, inside);
        };
        let Ok(found) = field_at::<FuncField>(self.alloc, contents, 0) else {
            return self.fail(DecodeFault::OutOfMemory);
        };
        let Some((function, next)) = found else {
            return self.skip(bytes, rank, left, inside, false);
        };
        if self.closed == u32::MAX {
            return self.fail(DecodeFault::OutOfMemory);
        }
        let Ok(()) = self.so_far.tree.codes.push(function) else {
            return self.fail(DecodeFault::OutOfMemory);
        };
        self.closed += 1;
        self.settle(rank, left - next, Inside::Codes(more - 1));
        Some(next)
    }

    // Takes what a reader can take of the bytes: how many that are, or none where nothing can be taken.
    fn step(&mut self, bytes: &[u8]) -> Option<usize>
        ensures moves { IfSome result (Moves bytes.now) }
        ensures steps { (b : List ℕ) → Stands self.old bytes.now b → Steps self.new bytes.now b result }
    {
        match self.phase {
            Phase::Header => self.header_step(bytes),
            Phase::Between => self.section_step(bytes),
            Phase::Contents(rank, left, Inside::Count) => self.count_step(bytes, rank, left),
            Phase::Contents(rank, left, Inside::Codes(more)) => {
                self.code_step(bytes, rank, left, more)
            }
            Phase::Contents(rank, left, Inside::Skipped(named)) => {
                self.skip(bytes, rank, left, Inside::Skipped(named), named)
            }
            Phase::Failed(_) => None,
        }
    }

    // Takes all that readers can take of the bytes: how many that are.
    fn advance(&mut self, bytes: &[u8]) -> usize
        ensures within { result ≤ length bytes.now }
        ensures steps { (b : List ℕ) → Stands self.old bytes.now b → Steps self.new (drop result bytes.now) b None }
    {
        let mut place = 0;
        while let Some(taken) = self.step(&bytes[place..]) {
            place += taken;
        }
        place
    }

    // Keeps these bytes, of which no reader can take.
    fn keep(&mut self, bytes: &[u8])
        ensures { (b : List ℕ) → Steps self.old bytes.now b None → StandsFor self.new b }
    {
        match Vec::from_slice(self.alloc, bytes) {
            Ok(kept) => self.kept = kept,
            Err(_) => self.phase = Phase::Failed(DecodeFault::OutOfMemory),
        }
    }

    // Takes a piece. What is left behind an item is shorter than the piece, so that to copy it costs no more than the piece did.
    fn take_piece(&mut self, piece: &[u8])
        ensures { (b : List ℕ) → StandsFor self.old b → StandsFor self.new (b ++ piece.now) }
    {
        if self.kept.is_empty() {
            let place = self.advance(piece);
            self.keep(&piece[place..]);
            return;
        }
        let mut kept = mem::replace(&mut self.kept, Vec::new(self.alloc));
        let Ok(()) = kept.extend_from_slice(piece) else {
            self.phase = Phase::Failed(DecodeFault::OutOfMemory);
            return;
        };
        let place = self.advance(kept.as_slice());
        if place == 0 {
            self.kept = kept;
        } else {
            self.keep(&kept[place..]);
        }
    }

    /// Takes the next piece of the bytes. A fault is one that all bytes have which begin with those so far; it may also come later, and
    /// `finish` then answers it. After a fault each call answers it again. `OutOfMemory` may come of any bytes.
    pub fn feed(&mut self, piece: &[u8]) -> Result<(), DecodeFault>
        // Of all bytes that it stood for, it stands for these and the piece.
        ensures stands { (b : List ℕ) → StandsFor self.old b → StandsFor self.new (b ++ piece.now) }
        ensures fault { IfErr result (λ e. e ≢ OutOfMemory
            → (b c : List ℕ) → StandsFor self.old b → HasFault ((b ++ piece.now) ++ c) e) }
        ensures kept { IfErr result (λ e. HasFailed self.new e) }
        ensures sound { OnOk result (IsSound self.new) }
        ensures again { (e : TheFault) → HasFailed self.old e → result ≡ Err e }
    {
        if let Phase::Failed(fault) = self.phase {
            return Err(fault);
        }
        self.take_piece(piece);
        match self.phase {
            Phase::Failed(fault) => Err(fault),
            _ => Ok(()),
        }
    }

    /// How many functions of the code section are wholly read.
    pub fn closed(&self) -> u32
        ensures { (b : List ℕ) → StandsFor self.now b → IsSound self.now → result ≡ length (so_far_of self.now).codes }
    {
        self.closed
    }

    /// The lists of the sections that are wholly read, with the functions of the code section that are.
    pub fn so_far(&self) -> &Module
        ensures same { result.now ≡ so_far_of self.now }
        // Where some module's spelling begins with the bytes, these are just the lists that end within them.
        ensures ends { (b c : List ℕ) (n : TheModule) → StandsFor self.now b → IsSound self.now → Spells (b ++ c) n
            → EndsAs b (so_far_of self.now) }
    {
        &self.so_far.tree
    }

    // The fault that the bytes have if no more come.
    fn last_fault(&self) -> Option<DecodeFault>
        ensures some { IfSome result (λ e. (b : List ℕ) → StandsFor self.now b → Gives (Err e) (decoded b)) }
        ensures none { IsNone result → (b : List ℕ) → StandsFor self.now b → decoded b ≡ Ok (so_far_of self.now) }
        ensures again { (e : TheFault) → HasFailed self.now e → result ≡ Some e }
    {
        match self.phase {
            Phase::Header => Some(DecodeFault::Header),
            Phase::Between => {
                if !self.kept.is_empty() {
                    return Some(DecodeFault::Frame(self.number));
                }
                if !counts_agree(&self.so_far) {
                    return Some(DecodeFault::Counts);
                }
                None
            }
            Phase::Contents(_, _, _) => Some(DecodeFault::Frame(self.number)),
            Phase::Failed(fault) => Some(fault),
        }
    }

    // What is decoded of the bytes. What was read is let go here alone.
    fn finish_exactly(self) -> Result<Module, DecodeFault>
        ensures gives { (b : List ℕ) → StandsFor self b → Gives result (decoded b) }
        ensures again { (e : TheFault) → HasFailed self e → result ≡ Err e }
    {
        match self.last_fault() {
            Some(fault) => Err(fault),
            None => Ok(self.so_far.tree),
        }
    }

    /// The module that the bytes spell, or the first fault that they have: what `decode` answers of them, however they were cut.
    /// `OutOfMemory` may come of any bytes.
    pub fn finish(self) -> Result<Module, DecodeFault>
        // What is decoded is spelled so, and a fault is one that the bytes have.
        ensures ok { (b : List ℕ) → StandsFor self b → IfOk result (λ m. Spells b m) }
        ensures err { (b : List ℕ) → StandsFor self b → IfErr result (λ e. e ≢ OutOfMemory → HasFault b e) }

        // What is spelled is decoded, and a fault that the bytes have is answered, unless memory runs out.
        ensures only_ok { (b : List ℕ) (m : TheModule) → StandsFor self b → Spells b m → IsAnswer (Ok m) result }
        ensures only_err { (b : List ℕ) (e : TheFault) → StandsFor self b → HasFault b e → IsAnswer (Err e) result }
        ensures again { (e : TheFault) → HasFailed self e → result ≡ Err e }
    {
        self.finish_exactly()
    }
}
