//! Makes a managed table with tellers.
ghost use Rattle.std.specs.Prelude.{◌≡◌, ◌<◌, true, false, map, length, All, IfOk};
ghost use Rattle.std_alloc.specs.Box.{box_value};
ghost use Rattle.dep_index.specs.Catalogue.{modules_of};
ghost use Rattle.dep_index.specs.Words.{closed};
ghost use Rattle.gourzhiel.specs.Called.{IsNewCaller};
ghost use Rattle.gourzhiel.specs.Meeting.{AreItsTellers, TellersMade};

use crate::handles::{GzCaller, GzCatalogue, GzTeller};
use crate::numbers::{DONE, OUT_OF_MEMORY, TOO_MANY_LEAVES};
use crate::parts::{Parts, hand_out};
use dep_index::Catalogue;
use dep_index::words::CLOSED;
use managed_table::{OwnCaller, Teller};
use std::alloc::{AllocError, Global};

/// The boxes of a caller and of tellers. Dropped, they free them.
#[derive(Drop)]
struct Made {
    caller: Box<OwnCaller>,
    tellers: Vec<Box<Teller>>,
}

fn make(alloc: Global, catalogue: &Catalogue, workers: usize) -> Result<Made, AllocError>
    requires few { workers < closed }
    ensures caller { IfOk result (λ made. IsNewCaller (modules_of catalogue.now) workers made.caller.value) }
    ensures tellers { IfOk result (λ made. AreItsTellers workers made.caller.value (map box_value made.tellers.items)) }
{
    let (caller, tellers) = OwnCaller::with_tellers(alloc, catalogue, workers)?;
    let tellers = teller_boxes(alloc, tellers)?;
    let caller = Box::new(alloc, caller)?;
    Ok(Made { caller, tellers })
}

fn teller_boxes(alloc: Global, tellers: Vec<Teller>) -> Result<Vec<Box<Teller>>, AllocError>
    ensures { IfOk result (λ boxes. map box_value boxes.items ≡ tellers.items) }
{
    let mut boxes = Vec::new(alloc);
    for teller in tellers {
        boxes.push(Box::new(alloc, teller)?)?;
    }
    Ok(boxes)
}

fn fill_tellers(handles: &mut [GzTeller], tellers: Vec<Box<Teller>>)
    requires { length handles.old ≡ length tellers.items }
    ensures full { All (λ h. h.full ≡ true) handles.new }
    ensures held { map (λ h. h.held) handles.new ≡ map (λ b. b.value) tellers.items }
{
    let mut place = 0;
    for teller in tellers {
        handles[place] = hand_out(GzTeller::of_parts(Parts::of(teller)));
        place += 1;
    }
}

/// As `gz_managed_new`, with a worker for each of these empty handles of tellers, which it fills too.
///
/// OUT_OF_MEMORY: nothing is kept. TOO_MANY_LEAVES: 2^32 or more. No handle is then touched.
#[unsafe(no_mangle)]
pub extern "C" fn gz_managed_tellers_new(
    alloc: Global,
    catalogue: &mut GzCatalogue,
    tellers: &mut [GzTeller],
    caller: &mut GzCaller,
) -> u32
    requires full { catalogue.old.full ≡ true }
    requires empty { caller.old.full ≡ false }
    requires no_tellers { All (λ h. h.full ≡ false) tellers.old }
    ensures kept { (catalogue.new.full ≡ true) × (catalogue.new.held ≡ catalogue.old.held) }
    ensures made { TellersMade (modules_of catalogue.old.held) (length tellers.old) result caller.old caller.new tellers.old tellers.new }
{
    if tellers.len() >= CLOSED as usize {
        return TOO_MANY_LEAVES;
    }
    match make(alloc, catalogue.lend(), tellers.len()) {
        Err(_) => OUT_OF_MEMORY,
        Ok(made) => {
            let Made {
                caller: owner,
                tellers: boxes,
            } = made;
            *caller = hand_out(GzCaller::of_parts(Parts::of(owner)));
            fill_tellers(tellers, boxes);
            DONE
        }
    }
}

/// `gz_managed_tellers_new` by its older name, with the caller before the tellers.
#[unsafe(no_mangle)]
pub extern "C" fn gz_managed_new_with_tellers(
    alloc: Global,
    catalogue: &mut GzCatalogue,
    caller: &mut GzCaller,
    tellers: &mut [GzTeller],
) -> u32
    requires full { catalogue.old.full ≡ true }
    requires empty { caller.old.full ≡ false }
    requires no_tellers { All (λ h. h.full ≡ false) tellers.old }
    ensures kept { (catalogue.new.full ≡ true) × (catalogue.new.held ≡ catalogue.old.held) }
    ensures made { TellersMade (modules_of catalogue.old.held) (length tellers.old) result caller.old caller.new tellers.old tellers.new }
{
    gz_managed_tellers_new(alloc, catalogue, tellers, caller)
}
