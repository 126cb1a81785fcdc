//! Makes a table, and fills empty handles with it.
ghost use Rattle.std.specs.Prelude.{◌≡◌, true, false, map, length, All};
ghost use Rattle.dep_index.specs.Catalogue.{modules_of};
ghost use Rattle.gourzhiel.specs.Making.{HandlesMade};

use crate::handles::{GzBook, GzCatalogue, GzLeaf, GzReader};
use crate::making::{Made, make};
use crate::numbers::{DONE, OUT_OF_MEMORY, TOO_MANY_LEAVES};
use crate::parts::{Parts, hand_out};
use dep_index::words::CLOSED;
use module_table::{OwnLeaf, OwnReader};
use std::alloc::Global;

fn fill_leaves(handles: &mut [GzLeaf], leaves: Vec<Box<OwnLeaf>>)
    requires { length handles.old ≡ length leaves.items }
    ensures full { All (λ h. h.full ≡ true) handles.new }
    ensures held { map (λ h. h.held) handles.new ≡ map (λ b. b.value) leaves.items }
{
    let mut place = 0;
    for leaf in leaves {
        handles[place] = hand_out(GzLeaf::of_parts(Parts::of(leaf)));
        place += 1;
    }
}

fn fill_readers(handles: &mut [GzReader], readers: Vec<Box<OwnReader>>)
    requires { length handles.old ≡ length readers.items }
    ensures full { All (λ h. h.full ≡ true) handles.new }
    ensures held { map (λ h. h.held) handles.new ≡ map (λ b. b.value) readers.items }
{
    let mut place = 0;
    for reader in readers {
        handles[place] = hand_out(GzReader::of_parts(Parts::of(reader)));
        place += 1;
    }
}

/// A new table over a catalogue: its book, so many leaves and so many readers. All modules are absent.
/// It fills empty handles; the leaf at place k is the worker of the number k.
///
/// OUT_OF_MEMORY: nothing is kept. TOO_MANY_LEAVES: 2^32 or more. No handle is then touched.
#[unsafe(no_mangle)]
pub extern "C" fn gz_table_new(
    alloc: Global,
    catalogue: &mut GzCatalogue,
    book: &mut GzBook,
    leaves: &mut [GzLeaf],
    readers: &mut [GzReader],
) -> u32
    requires full { catalogue.old.full ≡ true }
    requires no_book { book.old.full ≡ false }
    requires no_leaves { All (λ h. h.full ≡ false) leaves.old }
    requires no_readers { All (λ h. h.full ≡ false) readers.old }
    ensures kept { (catalogue.new.full ≡ true) × (catalogue.new.held ≡ catalogue.old.held) }
    ensures made { HandlesMade (modules_of catalogue.old.held) result book.old book.new leaves.old leaves.new readers.old readers.new }
{
    if leaves.len() >= CLOSED as usize {
        return TOO_MANY_LEAVES;
    }
    match make(alloc, catalogue.lend(), leaves.len(), readers.len()) {
        Err(_) => OUT_OF_MEMORY,
        Ok(made) => {
            let Made {
                book: owner,
                leaves: leaf_boxes,
                readers: reader_boxes,
            } = made;
            *book = hand_out(GzBook::of_parts(Parts::of(owner)));
            fill_leaves(leaves, leaf_boxes);
            fill_readers(readers, reader_boxes);
            DONE
        }
    }
}
