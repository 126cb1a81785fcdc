//! Makes a managed table, and callers of it in empty handles.
ghost use Rattle.std.specs.Prelude.{◌≡◌, ◌<◌, true, false, IfOk, IfErr};
ghost use Rattle.dep_index.specs.Catalogue.{modules_of};
ghost use Rattle.dep_index.specs.Words.{closed};
ghost use Rattle.managed_table.specs.Callers.{GaveFurther};
ghost use Rattle.gourzhiel.specs.Called.{CallerMade, FurtherMade, IsNewCaller};

use crate::handles::{GzCaller, GzCatalogue};
use crate::numbers::{DONE, OUT_OF_MEMORY, TOO_MANY_LEAVES};
use crate::parts::{Parts, hand_out};
use dep_index::Catalogue;
use dep_index::words::CLOSED;
use managed_table::OwnCaller;
use std::alloc::{AllocError, Global};

fn first_box(
    alloc: Global,
    catalogue: &Catalogue,
    workers: usize,
) -> Result<Box<OwnCaller>, AllocError>
    requires few { workers < closed }
    ensures { IfOk result (λ b. IsNewCaller (modules_of catalogue.now) workers b.value) }
{
    Ok(Box::new(alloc, OwnCaller::new(alloc, catalogue, workers)?)?)
}

// If there is no room for the further caller it goes back.
fn further_box(alloc: Global, caller: &mut OwnCaller) -> Result<Box<OwnCaller>, AllocError>
    ensures further { IfOk result (λ b. GaveFurther caller.old caller.new b.value) }
    ensures err { IfErr result (λ e. caller.new ≡ caller.old) }
{
    let further = caller.further()?;
    match Box::new(alloc, further) {
        Ok(boxed) => Ok(boxed),
        Err(failed) => {
            caller.take_back(failed.value);
            Err(AllocError)
        }
    }
}

/// A new table over a catalogue, with so many workers: the library keeps its book and its leaves, each behind a lock. All
/// modules are absent. It fills an empty handle with the first caller, and there is no other.
///
/// OUT_OF_MEMORY: nothing is kept. TOO_MANY_LEAVES: 2^32 workers or more. The handle is then not touched.
#[unsafe(no_mangle)]
pub extern "C" fn gz_managed_new(
    alloc: Global,
    catalogue: &mut GzCatalogue,
    workers: usize,
    caller: &mut GzCaller,
) -> u32
    requires full { catalogue.old.full ≡ true }
    requires empty { caller.old.full ≡ false }
    ensures kept { (catalogue.new.full ≡ true) × (catalogue.new.held ≡ catalogue.old.held) }
    ensures made { CallerMade (modules_of catalogue.old.held) workers result caller.old caller.new }
{
    if workers >= CLOSED as usize {
        return TOO_MANY_LEAVES;
    }
    match first_box(alloc, catalogue.lend(), workers) {
        Err(_) => OUT_OF_MEMORY,
        Ok(boxed) => {
            *caller = hand_out(GzCaller::of_parts(Parts::of(boxed)));
            DONE
        }
    }
}

/// A further caller of the same table, which comes from this one, in an empty handle.
///
/// OUT_OF_MEMORY: the handle is not touched, and this caller is as it was.
#[unsafe(no_mangle)]
pub extern "C" fn gz_caller_new(alloc: Global, caller: &mut GzCaller, further: &mut GzCaller) -> u32
    requires full { caller.old.full ≡ true }
    requires empty { further.old.full ≡ false }
    ensures kept { caller.new.full ≡ true }
    ensures made { FurtherMade caller.old.held caller.new.held result further.old further.new }
{
    match further_box(alloc, caller.lend()) {
        Err(_) => OUT_OF_MEMORY,
        Ok(boxed) => {
            *further = hand_out(GzCaller::of_parts(Parts::of(boxed)));
            DONE
        }
    }
}
