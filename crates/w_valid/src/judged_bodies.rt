//! What is known of bodies that were judged before the module's last lists were there.
ghost use Rattle.std.specs.Prelude.{◌≡◌, ◌+◌, ◌<◌, ◌≤◌, ℕ, IfSome, IfNone, IsTrue, IsFalse, OnOk, length};
ghost use Rattle.w_syntax.specs.declared.module.Module.{Module as TheModule};
ghost use Rattle.w_rules.specs.Valid.{FunctionValid};
ghost use Rattle.w_valid.specs.JudgedBodies.{AreJudged, IsBodyAnswer, IsDoubt, IsFirstOf, IsFirstRefuted};
ghost use Rattle.w_valid.specs.Measured.{IsMeasureOf};

use std::alloc::{AllocError, Global};

/// What is known of a body that is valid where there are data segments enough.
#[derive(Clone, Copy)]
pub(crate) struct BodyMeasure {
    pub height: u64,
    pub depth: u32,
    /// How many data segments there must be.
    pub needs: usize,
}

/// A body of which it is not certain that it is valid: the index of its function, and how many data segments there must be, where it is
/// valid with some number of them.
#[derive(Clone, Copy)]
pub(crate) struct Doubt {
    pub index: usize,
    pub needs: Option<usize>,
}

/// What is known of the first bodies of a module: the height and the depth of each that is valid, in its place, and which are doubted.
/// `Facts` keeps the first two lists as they are.
#[derive(Drop)]
pub(crate) struct JudgedBodies {
    pub heights: Vec<u64>,
    pub depths: Vec<u32>,
    pub doubts: Vec<Doubt>,
}

// Whether a body that is doubted so is not valid where there are so many data segments.
fn refutes(doubt: &Doubt, datas: usize) -> bool
    ensures yes { IsTrue result → (m : TheModule) → length m.datas ≡ datas → IsDoubt m doubt.now.index doubt.now.needs
        → FunctionValid m doubt.now.index → ⊥ }
    ensures no { IsFalse result → (m : TheModule) → length m.datas ≡ datas → IsDoubt m doubt.now.index doubt.now.needs
        → FunctionValid m doubt.now.index }
{
    match doubt.needs {
        Some(needs) => datas < needs,
        None => true,
    }
}

// The index of the body that is doubted where it comes before this one and is not valid with so many data segments, and else this one.
fn first_of(first: usize, doubt: &Doubt, datas: usize) -> usize
    ensures least { result ≤ first }
    ensures one { (m : TheModule) → length m.datas ≡ datas → IsDoubt m doubt.now.index doubt.now.needs → IsFirstOf m doubt.now first result }
{
    if doubt.index < first && refutes(doubt, datas) {
        return doubt.index;
    }
    first
}

// The doubt about a body of which this is known, if there is one.
fn doubt_of(index: usize, answer: Option<BodyMeasure>) -> Option<Doubt>
    ensures index { IfSome result (λ doubt. doubt.index ≡ index) }
    ensures some { IfSome result (λ doubt. (m : TheModule) → IsBodyAnswer m index answer → IsDoubt m doubt.index doubt.needs) }
    ensures none { IfNone result ((m : TheModule) → IsBodyAnswer m index answer → FunctionValid m index) }
{
    let needs = match answer {
        Some(measure) if measure.needs == 0 => return None,
        Some(measure) => Some(measure.needs),
        None => None,
    };
    Some(Doubt { index, needs })
}

// The height and the depth of a body of which this is known, where it is valid.
fn measure_of(answer: Option<BodyMeasure>) -> BodyMeasure
    ensures { (m : TheModule) (i : ℕ) → IsBodyAnswer m i answer → FunctionValid m i → IsMeasureOf m i (result.height, result.depth) }
{
    match answer {
        Some(measure) => measure,
        None => BodyMeasure {
            height: 0,
            depth: 0,
            needs: 0,
        },
    }
}

impl JudgedBodies {
    /// No bodies.
    pub fn new(alloc: Global) -> JudgedBodies
        ensures judged { (m : TheModule) → AreJudged m result }
        ensures none { length result.heights.items ≡ 0 }
    {
        JudgedBodies {
            heights: Vec::new(alloc),
            depths: Vec::new(alloc),
            doubts: Vec::new(alloc),
        }
    }

    /// How many there are.
    pub fn len(&self) -> usize
        ensures { result ≡ length self.now.heights.items }
    {
        self.heights.len()
    }

    /// One more, of which this is known. It fails only when out of memory.
    pub fn push(&mut self, answer: Option<BodyMeasure>) -> Result<(), AllocError>
        ensures judged { OnOk result ((m : TheModule) → AreJudged m self.old → IsBodyAnswer m (length self.old.heights.items) answer
            → AreJudged m self.new) }
        ensures more { OnOk result (length self.new.heights.items ≡ length self.old.heights.items + 1) }
    {
        let doubt = doubt_of(self.len(), answer);
        let measure = measure_of(answer);
        self.heights.push(measure.height)?;
        self.depths.push(measure.depth)?;
        let Some(doubt) = doubt else {
            return Ok(());
        };
        self.doubts.push(doubt)?;
        Ok(())
    }

    /// At most so many of them.
    pub fn truncate(&mut self, count: usize)
        ensures judged { (m : TheModule) → AreJudged m self.old → AreJudged m self.new }
        ensures few { length self.new.heights.items ≤ count }
    {
        self.heights.truncate(count);
        self.depths.truncate(count);
    }

    /// The first of them that is not valid where there are so many data segments.
    pub fn first_refuted(&self, datas: usize) -> Option<usize>
        ensures { (m : TheModule) → length m.datas ≡ datas → AreJudged m self.now
            → IsFirstRefuted m (length self.now.heights.items) result }
    {
        let count = self.len();
        let mut first = count;
        for doubt in &self.doubts {
            first = first_of(first, doubt, datas);
        }
        if first < count {
            return Some(first);
        }
        None
    }
}
