//! Whether each continuation is used once, by a list of events, whoever wrote it.
ghost use Rattle.std.specs.Prelude.{◌≡◌, ◌⊎◌, ◌≤◌, ◌-◌, ◌∷◌, ℕ, [], length, Some, Err, IfOk, IfErr};
ghost use Rattle.w_trace.specs.Once.{Consumes, Makes, uses, uses_of, consumed_by, made_by, IsOneShot, IsUnsoundAt, consume, make, after_uses, Becomes, number_live};
ghost use Rattle.w_trace.specs.declared.fault.OnceFault.TheVariants as fault;

use crate::event::{Event, EventKind};
use crate::fault::OnceFault;
use std::alloc::{AllocError, Global};

// Consumes a continuation. `false`: it isn't live.
fn consume_at(live: &mut Vec<bool>, address: u64) -> bool
    ensures { Becomes result (consume address live.old.items) live.new.items }
{
    let Ok(place) = usize::try_from(address) else {
        return false;
    };
    match live.get_mut(place) {
        Some(flag) => {
            if *flag {
                *flag = false;
                true
            } else {
                false
            }
        }
        None => false,
    }
}

// Makes a continuation. `false`: its address isn't the next.
fn make_at(live: &mut Vec<bool>, address: u64) -> Result<bool, AllocError>
    ensures { IfOk result (λ r. Becomes r (make address live.old.items) live.new.items) }
{
    if address != live.len() as u64 {
        return Ok(false);
    }
    live.push(true)?;
    Ok(true)
}

// Consumes a continuation, and makes one. `false`: the one isn't live, or the other's address isn't the next.
fn exchange(live: &mut Vec<bool>, old: u64, new: u64) -> Result<bool, AllocError>
    ensures { IfOk result (λ r. Becomes r (after_uses (Consumes old ∷ Makes new ∷ []) live.old.items) live.new.items) }
{
    if consume_at(live, old) {
        make_at(live, new)
    } else {
        Ok(false)
    }
}

// Does what an event does. `false`: it consumes what isn't live, or makes what isn't the next.
fn follow(live: &mut Vec<bool>, kind: EventKind) -> Result<bool, AllocError>
    ensures { IfOk result (λ r. Becomes r (after_uses (uses kind) live.old.items) live.new.items) }
{
    match kind {
        EventKind::New(new) => make_at(live, new),
        EventKind::Bind(old, new) => exchange(live, old, new),
        EventKind::Resume(old) => Ok(consume_at(live, old)),
        EventKind::Suspend(_, new) => make_at(live, new),
        EventKind::Switch(old, _, new) => exchange(live, old, new),
        EventKind::Exit => Ok(true),
    }
}

// By address, which continuations are live behind these events, or the first event that is unsound.
fn live_after(alloc: Global, events: &[Event]) -> Result<Vec<bool>, OnceFault>
    ensures ok { IfOk result (λ live. after_uses (uses_of events.now) [] ≡ Some live.items) }
    ensures err { IfErr result (λ e. (l : ℕ) → e ≡ fault.Unsound l → IsUnsoundAt events.now l) }
{
    let mut live = Vec::new(alloc);
    for place in 0..events.len() {
        let followed = follow(&mut live, events[place].kind)?;
        if !followed {
            return Err(OnceFault::Unsound(place));
        }
    }
    Ok(live)
}

// How many are live.
fn count_live(live: &[bool]) -> u64
    ensures value { result ≡ number_live live.now }
    ensures few { result ≤ length live.now }
{
    let mut count = 0;
    for flag in live {
        if *flag {
            count += 1;
        }
    }
    count
}

// How many continuations these events make, how many of them they consume, and how many are live behind them; or the first event that
// is unsound.
fn count_uses(alloc: Global, events: &[Event]) -> Result<(u64, u64, u64), OnceFault>
    ensures ok { IfOk result (λ r. IsOneShot (uses_of events.now)) }
    ensures made { IfOk result (λ r. r.0 ≡ length (made_by (uses_of events.now))) }
    ensures consumed { IfOk result (λ r. r.1 ≡ length (consumed_by (uses_of events.now))) }
    ensures live { IfOk result (λ r. r.2 ≡ r.0 - r.1) }
    ensures err { IfErr result (λ e. (l : ℕ) → e ≡ fault.Unsound l → IsUnsoundAt events.now l) }
{
    let live = live_after(alloc, events)?;
    let made = live.len() as u64;
    let left = count_live(live.as_slice());
    Ok((made, made - left, left))
}

/// How many continuations these events make, how many of them they consume, and how many are live behind them, where each is consumed
/// once at most, behind its making, and addresses come in order. `Unsound(l)`: event l, counted from 0, is the first that consumes what
/// isn't live, or makes what isn't the next. `OutOfMemory` may come of any events.
pub fn once(alloc: Global, events: &[Event]) -> Result<(u64, u64, u64), OnceFault>
    // The events are one-shot, and these are the numbers; or this event is unsound.
    ensures ok { IfOk result (λ r. IsOneShot (uses_of events.now)) }
    ensures made { IfOk result (λ r. r.0 ≡ length (made_by (uses_of events.now))) }
    ensures consumed { IfOk result (λ r. r.1 ≡ length (consumed_by (uses_of events.now))) }
    ensures live { IfOk result (λ r. r.2 ≡ r.0 - r.1) }
    ensures err { IfErr result (λ e. (l : ℕ) → e ≡ fault.Unsound l → IsUnsoundAt events.now l) }

    // Events that are one-shot are taken, and one that is unsound is answered, unless memory runs out.
    ensures only_ok { IsOneShot (uses_of events.now) → IfErr result (λ e. e ≡ fault.OutOfMemory) }
    ensures only_err { (l : ℕ) → IsUnsoundAt events.now l → (result ≡ Err (fault.Unsound l)) ⊎ (result ≡ Err fault.OutOfMemory) }
{
    count_uses(alloc, events)
}
