//! Decoding a module.
ghost use Rattle.std.specs.Prelude.{◌≡◌, ◌≢◌, IfOk, IfErr, Ok, Err, Some, None, IsTrue, IsFalse, drop};
ghost use Rattle.w_syntax.specs.Module.{header};
ghost use Rattle.w_syntax.specs.Spells.{Spells};
ghost use Rattle.w_syntax.specs.declared.module.Module.{Module as TheModule};
ghost use Rattle.w_decode.specs.Faults.{HasFault, IsAnswer};
ghost use Rattle.w_decode.specs.Reading.{decoded, behind, no_sections};
ghost use Rattle.w_decode.specs.Places.{Gives};
ghost use Rattle.w_decode.specs.declared.fault.DecodeFault.{DecodeFault as TheFault};
ghost use Rattle.w_decode.specs.declared.fault.DecodeFault.TheVariants.{OutOfMemory};

use crate::fault::DecodeFault;
use crate::pieces::Decoder;
use crate::sections::PartialModule;
use std::alloc::Global;
use w_syntax::Module;

// Whether the header stands at the front.
#[tactic(auto, unfolding(crate::specs::Reading::behind))]
pub(crate) fn has_header(bytes: &[u8]) -> bool
    ensures yes { IsTrue result → behind header bytes.now ≡ Some (drop 8 bytes.now) }
    ensures no { IsFalse result → behind header bytes.now ≡ None }
{
    matches!(bytes, [0x00, 0x61, 0x73, 0x6D, 0x01, 0x00, 0x00, 0x00, ..])
}

// No sections yet.
pub(crate) fn nothing(alloc: Global) -> PartialModule
    ensures { result ≡ no_sections }
{
    PartialModule {
        tree: Module::empty(alloc),
        data_count: None,
    }
}

// Decodes the bytes in one piece.
fn decode_whole(alloc: Global, bytes: &[u8]) -> Result<Module, DecodeFault>
    ensures { Gives result (decoded bytes.now) }
{
    let mut decoder = Decoder::new(alloc)?;
    match decoder.feed(bytes) {
        Ok(()) => decoder.finish(),
        Err(fault) => Err(fault),
    }
}

/// The module that the bytes spell, or the first fault that they have (Core, binary format, modules). `Header`: they do not
/// begin with the header. `Frame(i)`: behind i whole sections no section is framed in order. `Content(i)`: the contents of
/// the section there are not spelled. `Counts`: functions and codes differ in number, or the data count
/// is not the number of data segments, or none is there and a body names a data segment. `OutOfMemory` may come of any bytes.
pub fn decode(alloc: Global, bytes: &[u8]) -> Result<Module, DecodeFault>
    // What is decoded is spelled so, and a fault is one that the bytes have.
    ensures ok { IfOk result (λ m. Spells bytes.now m) }
    ensures err { IfErr result (λ e. e ≢ OutOfMemory → HasFault bytes.now e) }

    // What is spelled is decoded, and a fault that the bytes have is answered, unless memory runs out.
    ensures only_ok { (m : TheModule) → Spells bytes.now m → IsAnswer (Ok m) result }
    ensures only_err { (e : TheFault) → HasFault bytes.now e → IsAnswer (Err e) result }
{
    decode_whole(alloc, bytes)
}
