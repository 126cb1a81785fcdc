use root_row::Row;
use std::alloc::Global;
use std::marker::Model;
use std::sync::Arc;
use use_indicator::Reader;

/// A reader with its row. What a caller outside of Rattle holds is known by its type alone, so the type says that
/// the reader is of this row. Contracts see the reader.
#[derive(Drop)]
pub struct OwnReader {
    reader: Reader,
    row: Arc<Row, Global>,
}

impl Model for OwnReader {
    ghost use Rattle.std.specs.Arc.{arc_value};
    ghost use Rattle.root_row.specs.Seats.{Seated, IsOf};

    ghost Value = { Seated };

    ghost view = { λ r. r.reader };

    ghost invariant = { λ r. IsOf (arc_value r.row) r.reader };
}

impl OwnReader {
    ghost use Rattle.std.specs.Prelude.{◌≡◌, ◌<◌, ◌≤◌, IfSome, MatchOption, if◌then◌else◌};
    ghost use Rattle.std.specs.Arc.{arc_value};
    ghost use Rattle.dep_index.specs.declared.table.calls.Reply.TheVariants.{Yes, No};
    ghost use Rattle.root_row.specs.World.{slots};
    ghost use Rattle.root_row.specs.Seats.{IsOf};
    ghost use Rattle.root_row.specs.Steps.{ReaderAnswered};
    ghost use Rattle.root_row.specs.StepsMade.{OneLoad};

    pub fn new(reader: Reader, row: Arc<Row, Global>) -> OwnReader
        requires { IsOf (arc_value row) reader }
        ensures { result ≡ reader }
    {
        OwnReader { reader, row }
    }

    /// Whether any worker holds the module, by one load. It is None if the slot is out of range.
    pub fn in_use(&mut self, slot: usize) -> Option<bool>
        ensures range { MatchOption result ((slots self.old.view.world ≤ slot) × (self.new ≡ self.old)) (λ _. slot < slots self.old.view.world) }
        ensures call { MatchOption result (self.new ≡ self.old) (λ used. ReaderAnswered self.old.view slot (if used then Yes else No) self.new.view) }
        ensures steps { IfSome result (λ _. OneLoad slot self.old self.new) }
        ensures row { self.new.row ≡ self.old.row }
    {
        if slot >= self.row.slots() {
            return None;
        }
        Some(self.reader.in_use(&self.row, slot))
    }
}
