//! A run in general, whatever it makes from whatever texts.

ghost use Rattle.std.specs.Prelude.{Err, Ok};
ghost use Rattle.std.specs.Fn.{FnOnceReturnsAt};
ghost use Rattle.command_runs.specs.Runs.{IsOfTexts, Runs};
ghost use Rattle.command_runs.specs.declared.faults.RunFault.{RunFault};

use crate::faults::RunFault;
use byte_streams::{Inputs, Outputs};
use std::alloc::Global;

/// Reads texts, each to its end, and writes what `make` makes of them; nothing where a fault came before.
pub(crate) fn run_by<
    I: Inputs,
    O: Outputs,
    E: Drop,
    F: FnOnce(&I::Texts) -> Result<(O::Made, E), RunFault>,
>(alloc: Global, inputs: &mut I, make: F, outputs: &mut O) -> Result<E, RunFault>
    requires callable { F.IsAlwaysCallable make }
    requires kind { (texts : I.Texts) (fault : RunFault) → FnOnceReturnsAt F.FnOnce make texts (Err fault)
        → IsOfTexts fault }
    ensures same { I.same inputs.old inputs.new × O.same outputs.old outputs.new }
    ensures run { Runs (I.reads inputs.old inputs.new)
        (λ texts made ends. FnOnceReturnsAt F.FnOnce make texts (Ok (made, ends)))
        (λ texts fault. FnOnceReturnsAt F.FnOnce make texts (Err fault)) (O.writes outputs.old outputs.new) result }
{
    let texts = inputs.read_all(alloc)?;
    let (made, ends) = make(&texts)?;
    outputs.write_all(&made)?;
    Ok(ends)
}
