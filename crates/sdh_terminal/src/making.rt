//! The memory of a new node.
ghost use Rattle.std.specs.Prelude.{◌≡◌, IfOk, replicate};
ghost use Rattle.std.specs.Prelude.{None};
ghost use Rattle.sdh_pointer.specs.Reading.{start};
ghost use Rattle.sdh_terminal.specs.Receiving.{readings_of};
ghost use Rattle.sdh_terminal.specs.Passing.{states_of};

use sdh_pointer::{Action, Gen, Interp};
use std::alloc::{AllocError, Global};

/// Returns `count` interpreters that have read nothing.
pub fn new_interpreters(alloc: Global, count: usize) -> Result<Vec<Interp>, AllocError>
    ensures { IfOk result (λ v. readings_of v.items ≡ replicate count start) }
{
    let mut interps = Vec::with_capacity(alloc, count)?;
    for i in 0..count {
        interps.push(Interp::new())?;
    }
    Ok(interps)
}

/// Returns the actions of `count` interpreters that have read nothing.
pub fn no_actions(alloc: Global, count: usize) -> Result<Vec<Action>, AllocError>
    ensures { IfOk result (λ v. v.items ≡ replicate count Action.Ais) }
{
    Ok(vec![in alloc; Action::Ais; count]?)
}

/// Returns `count` generators that have sent nothing.
pub fn new_generators(alloc: Global, count: usize) -> Result<Vec<Gen>, AllocError>
    ensures { IfOk result (λ v. states_of v.items ≡ replicate count None) }
{
    let mut generators = Vec::with_capacity(alloc, count)?;
    for i in 0..count {
        generators.push(Gen::new())?;
    }
    Ok(generators)
}
