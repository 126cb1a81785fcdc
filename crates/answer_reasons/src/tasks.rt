//! What is to be told, in the order of what is done.

use crate::exemptions::Exemption;
use crate::kept::kept;
use answer_facts::Side;
use bumpalo::Bump;
use indexmap::IndexSet;
use kmod_conf::SoftdepLine;
use kmod_names::{Place, Text};
use kmod_query::Object;
use std::alloc::{AllocError, Global};

/// A module, with the alias by which it came. `builtin` says that this was an alias of modules.builtin.modinfo, `bare` that
/// a name of the query stands for it under -i, which passes its commands and soft items over.
#[derive(Clone, Copy, PartialEq, Eq, Hash)]
pub(crate) struct Subject<'a> {
    pub(crate) name: &'a [u8],
    pub(crate) alias: Option<&'a [u8]>,
    pub(crate) builtin: bool,
    pub(crate) bare: bool,
}

impl<'a> Subject<'a> {
    /// Whether another one is the same module, which came by the same alias.
    fn is_as(self, other: Subject<'_>) -> bool {
        self.name == other.name && self.alias == other.alias
    }

    /// A module that came by its own name.
    pub(crate) fn by_name(name: &'a [u8]) -> Subject<'a> {
        Subject {
            name,
            alias: None,
            builtin: false,
            bare: false,
        }
    }

    /// A module that a name stands for.
    pub(crate) fn of(texts: &'a Bump, object: &Object) -> Result<Subject<'a>, AllocError> {
        let name = kept(texts, &object.name)?;
        let alias = match &object.alias {
            Some(alias) => Some(kept(texts, alias)?),
            None => None,
        };
        Ok(Subject {
            name,
            alias,
            builtin: object.builtin,
            bare: false,
        })
    }

    /// The module as queries have it.
    pub(crate) fn object(self, alloc: Global) -> Result<Object, AllocError> {
        let mut object = Object::by_name(alloc, self.name)?;
        if let Some(alias) = self.alias {
            object.alias = Some(Vec::from_slice(alloc, alias)?);
        }
        object.builtin = self.builtin;
        Ok(object)
    }
}

/// A module that another one needs: who needs it, by itself or through these, and by which line of modules.dep.
#[derive(Clone, Copy)]
pub(crate) struct Need<'a> {
    pub(crate) name: &'a [u8],
    pub(crate) by: &'a [u8],
    pub(crate) through: &'a [&'a [u8]],
    pub(crate) number: usize,
}

/// Words on one side of a module in its softdep line, and where the line stands.
#[derive(Clone, Copy)]
pub(crate) struct SoftWords<'a> {
    pub(crate) words: &'a [Text],
    pub(crate) of: &'a [u8],
    pub(crate) side: Side,
    pub(crate) place: Place,
}

impl<'a> SoftWords<'a> {
    /// The words on one side of a module in its softdep line.
    pub(crate) fn of(name: &'a [u8], side: Side, line: &'a SoftdepLine) -> SoftWords<'a> {
        let words = match side {
            Side::Before => line.items.pre(),
            Side::After => line.items.post(),
        };
        SoftWords {
            words,
            of: name,
            side,
            place: line.place,
        }
    }
}

/// What is to be told.
#[derive(Clone, Copy)]
pub(crate) enum Task<'a> {
    /// A load: what the module needs, and then the module.
    Load(Subject<'a>),
    /// A module that another one needs.
    Need(Need<'a>),
    /// A module with its soft items before and after it.
    Fill(Subject<'a>),
    /// Words of a softdep line, one after another.
    Soft(SoftWords<'a>),
    /// The lines of a module that is loaded.
    Own(Subject<'a>),
    /// A removal, of a soft item or not: the soft items after the module, and then the module.
    Remove { soft: bool, subject: Subject<'a> },
    /// A module that is removed, if it is not in use by then.
    Release { soft: bool, subject: Subject<'a> },
    /// The innermost module whose soft items are being removed is done.
    Leave,
}

/// Tasks, the next last, and what was told by now.
pub(crate) struct Tasks<'a> {
    stack: Vec<Task<'a>>,
    /// Whether a removal that was asked for is refused.
    refused: bool,
    /// Whether it is refused since the module is gone by then, which ends nothing.
    gone: bool,
    /// The name whose refusal ended the query, so that nothing more is to be told.
    ended: Option<&'a [u8]>,
    /// Whether what was told under one name is told again under the next: -i holds for the module of a name, and no further.
    forgets: bool,
    /// The modules whose needs were told.
    loaded: IndexSet<Subject<'a>>,
    /// The modules that were told with their soft items.
    filled: IndexSet<Subject<'a>>,
    /// The modules of which their own lines were told.
    owned: IndexSet<Subject<'a>>,
    /// The module that is being loaded, if a name of the query stands for it under -i.
    bare: Option<Subject<'a>>,
    /// The modules whose soft items are being removed, the outermost first.
    way: IndexSet<&'a [u8]>,
    /// The modules of whose removal it was told what it frees.
    removed: IndexSet<&'a [u8]>,
    /// The words of softdep lines that were told.
    words: IndexSet<&'a [u8]>,
    /// The modules whose files were named by paths.
    files: IndexSet<&'a [u8]>,
    /// The modules of which it was told why blacklist lines do not hold.
    exempt: IndexSet<Exempt<'a>>,
}

// By hand, since a derived drop is written out, and proved, at each place where a value is let go.
impl Drop for Tasks<'_> {
    fn drop(self) {
        let Tasks {
            stack: _,
            refused: _,
            gone: _,
            ended: _,
            forgets: _,
            loaded: _,
            filled: _,
            owned: _,
            bare: _,
            way: _,
            removed: _,
            words: _,
            files: _,
            exempt: _,
        } = self;
    }
}

/// A module whose blacklist lines do not hold, for one reason.
#[derive(Clone, Copy, PartialEq, Eq, Hash)]
struct Exempt<'a> {
    name: &'a [u8],
    exemption: Exemption,
}

impl<'a> Tasks<'a> {
    /// No tasks yet. `forgets` says that what was told under one name is told again under the next.
    pub(crate) fn new(alloc: Global, forgets: bool) -> Tasks<'a> {
        Tasks {
            stack: Vec::new(alloc),
            refused: false,
            gone: false,
            ended: None,
            forgets,
            loaded: IndexSet::new(alloc),
            filled: IndexSet::new(alloc),
            owned: IndexSet::new(alloc),
            bare: None,
            way: IndexSet::new(alloc),
            removed: IndexSet::new(alloc),
            words: IndexSet::new(alloc),
            files: IndexSet::new(alloc),
            exempt: IndexSet::new(alloc),
        }
    }

    /// Adds a task before all others.
    pub(crate) fn push(&mut self, task: Task<'a>) -> Result<(), AllocError> {
        self.stack.push(task)?;
        Ok(())
    }

    /// The next task.
    pub(crate) fn next(&mut self) -> Option<Task<'a>> {
        if self.ended.is_some() {
            return None;
        }
        self.stack.pop()
    }

    /// Whether a module was told already, as that of a name or as what another one asks for: these are the same.
    fn is_known(all: &IndexSet<Subject<'a>>, subject: Subject<'a>) -> bool {
        if subject.bare || all.contains(&subject) {
            return all.contains(&subject);
        }
        let bare = Subject {
            bare: true,
            ..subject
        };
        all.contains(&bare)
    }

    /// Whether the needs of a module are to be told; from now on they were.
    pub(crate) fn begin_load(&mut self, subject: Subject<'a>) -> Result<bool, AllocError> {
        if Tasks::is_known(&self.loaded, subject) {
            return Ok(false);
        }
        self.loaded.insert(subject)?;
        Ok(true)
    }

    /// Whether a module is to be told with its soft items; from now on it was.
    pub(crate) fn begin_fill(&mut self, subject: Subject<'a>) -> Result<bool, AllocError> {
        if Tasks::is_known(&self.filled, subject) {
            return Ok(false);
        }
        self.filled.insert(subject)?;
        Ok(true)
    }

    /// Notes that a module is loaded, and what it leads to.
    pub(crate) fn begin_list(&mut self, subject: Subject<'a>) {
        self.bare = if subject.bare { Some(subject) } else { None };
    }

    /// Whether -i passes the commands of a module over: it does so for the module of a name, wherever that stands in the list
    /// of what is loaded.
    pub(crate) fn is_bare(&self, subject: Subject<'a>) -> bool {
        match self.bare {
            Some(bare) => bare.is_as(subject),
            None => false,
        }
    }

    /// Whether the own lines of a module are to be told; from now on they were.
    pub(crate) fn begin_own(&mut self, subject: Subject<'a>) -> Result<bool, AllocError> {
        let is_new = self.owned.insert(subject)?;
        Ok(is_new)
    }

    /// Whether the soft items of a module are being removed.
    pub(crate) fn is_on_way(&self, name: &[u8]) -> bool {
        self.way.contains(name)
    }

    /// Notes that the soft items of a module are being removed, until the task `Leave` is done.
    pub(crate) fn enter(&mut self, name: &'a [u8]) -> Result<(), AllocError> {
        self.way.insert(name)?;
        self.push(Task::Leave)
    }

    /// Whether it is to be told what the removal of a module frees; from now on it was.
    pub(crate) fn begin_removed(&mut self, name: &'a [u8]) -> Result<bool, AllocError> {
        let is_new = self.removed.insert(name)?;
        Ok(is_new)
    }

    /// Notes that the innermost of these modules is done.
    pub(crate) fn leave(&mut self) {
        self.way.pop();
    }

    /// Whether a word of a softdep line is to be told; from now on it was.
    pub(crate) fn begin_word(&mut self, word: &'a [u8]) -> Result<bool, AllocError> {
        let is_new = self.words.insert(word)?;
        Ok(is_new)
    }

    /// Notes that blacklist lines of a module do not hold for a reason. Returns whether that is new.
    pub(crate) fn add_exempt(
        &mut self,
        name: &'a [u8],
        exemption: Exemption,
    ) -> Result<bool, AllocError> {
        let is_new = self.exempt.insert(Exempt { name, exemption })?;
        Ok(is_new)
    }

    /// Notes that the file of a module was named by its path.
    pub(crate) fn add_file(&mut self, name: &'a [u8]) -> Result<(), AllocError> {
        self.files.insert(name)?;
        Ok(())
    }

    /// Whether the file of a module was named by its path.
    pub(crate) fn has_file(&self, name: &[u8]) -> bool {
        self.files.contains(name)
    }

    /// Notes that another module is asked for, which is not refused yet.
    pub(crate) fn begin_module(&mut self) {
        self.refused = false;
        self.gone = false;
    }

    /// Notes that another word of the query is asked for.
    pub(crate) fn begin_name(&mut self) {
        self.begin_module();
        if self.forgets {
            self.loaded.clear();
            self.filled.clear();
            self.owned.clear();
            self.words.clear();
        }
    }

    /// Notes that a removal that was asked for is refused.
    pub(crate) fn refuse(&mut self) {
        self.refused = true;
    }

    /// Notes that a module that is to be removed is gone by then.
    pub(crate) fn refuse_gone(&mut self) {
        self.refused = true;
        self.gone = true;
    }

    /// Whether the removal that was told last is refused.
    pub(crate) fn is_refused(&self) -> bool {
        self.refused
    }

    /// Whether it is refused since the module is gone by then.
    pub(crate) fn is_gone(&self) -> bool {
        self.gone
    }

    /// Notes that the refusal of a name ended the query, so that nothing more is to be told.
    pub(crate) fn end(&mut self, name: &'a [u8]) {
        self.ended = Some(name);
    }

    /// The name whose refusal ended the query.
    pub(crate) fn ended_by(&self) -> Option<&'a [u8]> {
        self.ended
    }
}
