//! The sizes of programs.

ghost use Rattle.std.specs.Prelude.{◌≡◌, IfOk};
ghost use Rattle.qt_gate_calls.specs.Stopped.{stopped};
ghost use Rattle.qt_typed.specs.Size.{list_size, sizes_from};

use crate::statements::list_size;
use crate::subroutines::subroutine_sizes;
use qt_outside::faults::OutOfMemory;
use qt_typed::program::TypedSubroutine;
use qt_typed::statement::TypedStatement;
use std::alloc::Global;

/// The size of a program with these subroutines and this body, up to 4,294,967,295. OpenQASM 3.0, "Gates" and "Subroutines".
#[tactic(auto, using(crate::proofs::Sizes::size_by_known))]
pub fn size_of(
    alloc: Global,
    subroutines: &[TypedSubroutine],
    body: &[TypedStatement],
) -> Result<u32, OutOfMemory>
    ensures { IfOk result (λ size. size ≡ stopped (list_size (sizes_from 0 subroutines.now (λ i. 0)) body.now)) }
{
    let known = subroutine_sizes(alloc, subroutines)?;
    Ok(list_size(known.as_slice(), body))
}
