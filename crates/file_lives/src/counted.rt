//! A file of the system whose process is cut off after so many calls of it.
ghost use Rattle.std.specs.Prelude.{◌≡◌, ◌+◌, [], length};
ghost use Rattle.std.proofs.Common.{inl, refl};
ghost use Rattle.line_journal.specs.Device.{TellsFaults};
ghost use Rattle.file_journal.specs.Belief.{history_of};
ghost use Rattle.file_journal.specs.Counts.{looks_of, writes_of};
ghost use Rattle.power_cuts.specs.Log.{noted};

use file_journal::FileDevice;
use line_journal::{Device, DeviceError};
use power_cuts::Log;
use std::alloc::Global;
use std::rt::Files;

/// A file of the system. So many of its calls are answered as are left. Each later one is made too, but is told as failed: the
/// process is killed before it has the answer.
#[derive(Drop)]
pub struct CountedFile<R: Files + Drop> {
    pub(crate) file: FileDevice<R>,
    pub(crate) calls_left: usize,
    /// A note for each call that was made and not answered.
    unanswered: Log<()>,
}

impl<R: Files + Drop> CountedFile<R> {
    /// Each call is answered.
    pub(crate) fn new(file: FileDevice<R>) -> Self
        ensures file { result.file ≡ file }
        ensures unanswered { noted result.unanswered ≡ [] }
    {
        CountedFile {
            file,
            calls_left: usize::MAX,
            unanswered: Log::new(),
        }
    }

    /// The file itself.
    pub fn into_file(self) -> FileDevice<R>
        ensures { result ≡ self.file }
    {
        self.file
    }

    /// Counts a call that was made.
    fn count(&mut self) -> Result<(), DeviceError>
        ensures file { self.new.file ≡ self.old.file }
        ensures faults { TellsFaults (length (noted self.old.unanswered)) (length (noted self.new.unanswered)) result }
    {
        match self.calls_left.checked_sub(1) {
            Some(left) => {
                self.calls_left = left;
                Ok(())
            }
            None => {
                self.unanswered.note(&());
                Err(DeviceError::Failed)
            }
        }
    }
}

impl<R: Files + Drop> Device for CountedFile<R> {
    ghost content = { λ counted. counted.file.belief.bytes.items };

    ghost history = { λ counted. history_of counted.file.belief };

    ghost faults = { λ counted. counted.file.faults + length (noted counted.unanswered) };

    ghost writes = { λ counted. writes_of counted.file.belief };

    ghost looks = { λ counted. looks_of counted.file.belief };

    ghost kill_leaves = { λ counted. inl refl };

    fn read_from(&mut self, alloc: Global, place: usize) -> Result<Vec<u8>, DeviceError> {
        let bytes = self.file.read_from(alloc, place)?;
        self.count()?;
        Ok(bytes)
    }

    fn write_at(&mut self, place: usize, bytes: &[u8]) -> Result<(), DeviceError> {
        self.file.write_at(place, bytes)?;
        self.count()
    }

    fn cut(&mut self, size: usize) -> Result<(), DeviceError> {
        self.file.cut(size)?;
        self.count()
    }

    fn sync(&mut self) -> Result<(), DeviceError> {
        self.file.sync()?;
        self.count()
    }

    fn replace(&mut self, bytes: &[u8]) -> Result<(), DeviceError> {
        self.file.replace(bytes)?;
        self.count()
    }
}
