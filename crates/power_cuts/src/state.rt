//! What a disk and its cache hold.
ghost use Rattle.std.specs.Prelude.{◌≡◌, []};

use crate::log::Log;

/// A call that changed what a read returns.
#[derive(Clone, Copy)]
pub enum Call {
    /// So many bytes were written from a place on.
    Write(usize, usize),
    /// The file was cut to a size.
    Cut(usize),
}

/// A file on a disk, and what a read returns meanwhile.
#[derive(Drop)]
pub struct State {
    /// What is on the disk.
    pub disk: Vec<u8>,
    /// What a read returns, if it was written or cut since it came to the disk.
    pub cache: Option<Vec<u8>>,
    /// The calls since the last sync.
    pub unsynced: Log<Call>,
}

impl State {
    ghost use Rattle.power_cuts.specs.Log.{noted};
    ghost use Rattle.power_cuts.specs.Disk.{read_of};

    /// What a read returns.
    pub(crate) fn read(&self) -> &[u8]
        ensures { result.now ≡ read_of self.now }
    {
        match &self.cache {
            Some(cache) => cache,
            None => &self.disk,
        }
    }

    /// What a read returns comes to the disk.
    pub(crate) fn settle(&mut self)
        ensures disk { self.new.disk.items ≡ read_of self.old }
        ensures read { read_of self.new ≡ read_of self.old }
        ensures unsynced { noted self.new.unsynced ≡ [] }
    {
        if let Some(cache) = self.cache.take() {
            self.disk = cache;
        }
        self.unsynced = Log::new();
    }

    /// What is not on the disk is lost.
    pub(crate) fn lose(&mut self)
        ensures disk { self.new.disk ≡ self.old.disk }
        ensures read { read_of self.new ≡ self.old.disk.items }
        ensures unsynced { noted self.new.unsynced ≡ [] }
    {
        self.cache = None;
        self.unsynced = Log::new();
    }
}
