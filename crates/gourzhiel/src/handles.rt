//! The handles, as their callers hold them: each is a pointer that only this library reads, and is full or empty.
//! What an empty handle shows as `held` says nothing.
ghost use Rattle.std.specs.Prelude.{◌≡◌, Bool, true, List};
ghost use Rattle.dep_index.specs.Catalogue.{Description};
ghost use Rattle.root_row.specs.Seats.{Seated};
ghost use Rattle.managed_table.specs.Callers.{CallerIs};
ghost use Rattle.gourzhiel.specs.Held.{book_coded, book_owns, caller_coded, caller_owns, catalogue_coded, catalogue_owns, leaf_coded, leaf_owns, reader_coded, reader_owns, teller_coded, teller_owns};

use crate::parts::Parts;
use dep_index::Catalogue;
use managed_table::{OwnCaller, Teller};
use module_table::{OwnBook, OwnLeaf, OwnReader};
use std::alloc::Global;
use std::marker::Model;

/// The handle of a catalogue.
#[repr(C)]
#[derive(Drop)]
pub struct GzCatalogue {
    at: *mut u8,
    alloc: Global,
    pub ghost full: { Bool },
    pub ghost held: { List Description } by { catalogue_coded },
}

impl Model for GzCatalogue {
    ghost also_owns = { λ h. catalogue_owns h.full h.alloc h.at h.held };
}

impl GzCatalogue {
    ghost use Rattle.std.specs.Borrow.{sem};
    ghost use Rattle.gourzhiel.specs.Lent.{CatalogueLent};

    pub fn of_parts(parts: Parts<Catalogue, Global>) -> GzCatalogue
        ensures { (result.full ≡ true) × (result.held ≡ parts.value) }
    {
        let Parts { at, alloc } = parts;
        let at = at as *mut u8;
        GzCatalogue { at, alloc }
    }

    pub fn into_parts(self) -> Parts<Catalogue, Global>
        requires { self.full ≡ true }
        ensures { result.value ≡ self.held }
    {
        let GzCatalogue { at, alloc } = self;
        let at = at as *mut Catalogue;
        Parts { at, alloc }
    }

    pub fn lend(&mut self) -> &mut Catalogue
        requires full { self.old.full ≡ true }
        ensures* writes_back { sem 𝓛 (CatalogueLent self.entry result) }
        ensures value { result.now ≡ self.old.held }
    {
        unsafe { &mut *(self.at as *mut Catalogue) }
    }
}

unsafe impl Send for GzCatalogue {}

/// The handle of a book.
#[repr(C)]
#[derive(Drop)]
pub struct GzBook {
    at: *mut u8,
    alloc: Global,
    pub ghost full: { Bool },
    pub ghost held: { Seated } by { book_coded },
}

impl Model for GzBook {
    ghost also_owns = { λ h. book_owns h.full h.alloc h.at h.held };
}

impl GzBook {
    ghost use Rattle.std.specs.Borrow.{sem};
    ghost use Rattle.gourzhiel.specs.Lent.{BookLent};

    pub fn of_parts(parts: Parts<OwnBook, Global>) -> GzBook
        ensures { (result.full ≡ true) × (result.held ≡ parts.value) }
    {
        let Parts { at, alloc } = parts;
        let at = at as *mut u8;
        GzBook { at, alloc }
    }

    pub fn into_parts(self) -> Parts<OwnBook, Global>
        requires { self.full ≡ true }
        ensures { result.value ≡ self.held }
    {
        let GzBook { at, alloc } = self;
        let at = at as *mut OwnBook;
        Parts { at, alloc }
    }

    pub fn lend(&mut self) -> &mut OwnBook
        requires full { self.old.full ≡ true }
        ensures* writes_back { sem 𝓛 (BookLent self.entry result) }
        ensures value { result.now ≡ self.old.held }
    {
        unsafe { &mut *(self.at as *mut OwnBook) }
    }
}

unsafe impl Send for GzBook {}

/// The handle of a leaf.
#[repr(C)]
#[derive(Drop)]
pub struct GzLeaf {
    at: *mut u8,
    alloc: Global,
    pub ghost full: { Bool },
    pub ghost held: { Seated } by { leaf_coded },
}

impl Model for GzLeaf {
    ghost also_owns = { λ h. leaf_owns h.full h.alloc h.at h.held };
}

impl GzLeaf {
    ghost use Rattle.std.specs.Borrow.{sem};
    ghost use Rattle.gourzhiel.specs.Lent.{LeafLent};

    pub fn of_parts(parts: Parts<OwnLeaf, Global>) -> GzLeaf
        ensures { (result.full ≡ true) × (result.held ≡ parts.value) }
    {
        let Parts { at, alloc } = parts;
        let at = at as *mut u8;
        GzLeaf { at, alloc }
    }

    pub fn into_parts(self) -> Parts<OwnLeaf, Global>
        requires { self.full ≡ true }
        ensures { result.value ≡ self.held }
    {
        let GzLeaf { at, alloc } = self;
        let at = at as *mut OwnLeaf;
        Parts { at, alloc }
    }

    pub fn lend(&mut self) -> &mut OwnLeaf
        requires full { self.old.full ≡ true }
        ensures* writes_back { sem 𝓛 (LeafLent self.entry result) }
        ensures value { result.now ≡ self.old.held }
    {
        unsafe { &mut *(self.at as *mut OwnLeaf) }
    }
}

unsafe impl Send for GzLeaf {}

/// The handle of a reader.
#[repr(C)]
#[derive(Drop)]
pub struct GzReader {
    at: *mut u8,
    alloc: Global,
    pub ghost full: { Bool },
    pub ghost held: { Seated } by { reader_coded },
}

impl Model for GzReader {
    ghost also_owns = { λ h. reader_owns h.full h.alloc h.at h.held };
}

impl GzReader {
    ghost use Rattle.std.specs.Borrow.{sem};
    ghost use Rattle.gourzhiel.specs.Lent.{ReaderLent};

    pub fn of_parts(parts: Parts<OwnReader, Global>) -> GzReader
        ensures { (result.full ≡ true) × (result.held ≡ parts.value) }
    {
        let Parts { at, alloc } = parts;
        let at = at as *mut u8;
        GzReader { at, alloc }
    }

    pub fn into_parts(self) -> Parts<OwnReader, Global>
        requires { self.full ≡ true }
        ensures { result.value ≡ self.held }
    {
        let GzReader { at, alloc } = self;
        let at = at as *mut OwnReader;
        Parts { at, alloc }
    }

    pub fn lend(&mut self) -> &mut OwnReader
        requires full { self.old.full ≡ true }
        ensures* writes_back { sem 𝓛 (ReaderLent self.entry result) }
        ensures value { result.now ≡ self.old.held }
    {
        unsafe { &mut *(self.at as *mut OwnReader) }
    }
}

unsafe impl Send for GzReader {}

/// The handle of a caller of a managed table.
#[repr(C)]
#[derive(Drop)]
pub struct GzCaller {
    at: *mut u8,
    alloc: Global,
    pub ghost full: { Bool },
    pub ghost held: { CallerIs } by { caller_coded },
}

impl Model for GzCaller {
    ghost also_owns = { λ h. caller_owns h.full h.alloc h.at h.held };
}

impl GzCaller {
    ghost use Rattle.std.specs.Borrow.{sem};
    ghost use Rattle.gourzhiel.specs.Lent.{CallerLent};

    pub fn of_parts(parts: Parts<OwnCaller, Global>) -> GzCaller
        ensures { (result.full ≡ true) × (result.held ≡ parts.value) }
    {
        let Parts { at, alloc } = parts;
        let at = at as *mut u8;
        GzCaller { at, alloc }
    }

    pub fn into_parts(self) -> Parts<OwnCaller, Global>
        requires { self.full ≡ true }
        ensures { result.value ≡ self.held }
    {
        let GzCaller { at, alloc } = self;
        let at = at as *mut OwnCaller;
        Parts { at, alloc }
    }

    pub fn lend(&mut self) -> &mut OwnCaller
        requires full { self.old.full ≡ true }
        ensures* writes_back { sem 𝓛 (CallerLent self.entry result) }
        ensures value { result.now ≡ self.old.held }
    {
        unsafe { &mut *(self.at as *mut OwnCaller) }
    }
}

unsafe impl Send for GzCaller {}

/// The handle of a teller of a managed table.
#[repr(C)]
#[derive(Drop)]
pub struct GzTeller {
    at: *mut u8,
    alloc: Global,
    pub ghost full: { Bool },
    pub ghost held: { Seated } by { teller_coded },
}

impl Model for GzTeller {
    ghost also_owns = { λ h. teller_owns h.full h.alloc h.at h.held };
}

impl GzTeller {
    ghost use Rattle.std.specs.Borrow.{sem};
    ghost use Rattle.gourzhiel.specs.Lent.{TellerLent};

    pub fn of_parts(parts: Parts<Teller, Global>) -> GzTeller
        ensures { (result.full ≡ true) × (result.held ≡ parts.value) }
    {
        let Parts { at, alloc } = parts;
        let at = at as *mut u8;
        GzTeller { at, alloc }
    }

    pub fn into_parts(self) -> Parts<Teller, Global>
        requires { self.full ≡ true }
        ensures { result.value ≡ self.held }
    {
        let GzTeller { at, alloc } = self;
        let at = at as *mut Teller;
        Parts { at, alloc }
    }

    pub fn lend(&mut self) -> &mut Teller
        requires full { self.old.full ≡ true }
        ensures* writes_back { sem 𝓛 (TellerLent self.entry result) }
        ensures value { result.now ≡ self.old.held }
    {
        unsafe { &mut *(self.at as *mut Teller) }
    }
}

unsafe impl Send for GzTeller {}
