//! The calls on the handle of a reader.
ghost use Rattle.std.specs.Prelude.{◌≡◌, true};
ghost use Rattle.gourzhiel.specs.Ended.{QueryEnded};

use crate::handles::GzReader;
use crate::numbers::{NO, OUT_OF_RANGE, YES};

/// Whether any leaf of the table holds the module: YES or NO.
///
/// OUT_OF_RANGE: the slot is none of the table.
#[unsafe(no_mangle)]
pub extern "C" fn gz_reader_in_use(reader: &mut GzReader, slot: usize) -> u32
    requires full { reader.old.full ≡ true }
    ensures full { reader.new.full ≡ true }
    ensures call { QueryEnded reader.old.held slot result reader.new.held }
{
    match reader.lend().in_use(slot) {
        None => OUT_OF_RANGE,
        Some(true) => YES,
        Some(false) => NO,
    }
}

/// Frees a reader.
#[unsafe(no_mangle)]
pub extern "C" fn gz_reader_free(reader: GzReader)
    requires full { reader.full ≡ true }
{
    drop(reader.into_parts().into_box());
}
