//! What is answered.
ghost use Rattle.std.specs.Prelude.{◌≡◌, IfOk};

use kmod_names::Text;
use std::alloc::{AllocError, Global};
use std::marker::Model;

/// Why a name was not answered, with the name that a message tells. Messages are a FATAL, or a WARNING under `--all`,
/// but for `AlreadyLoaded` and `Gone`, which are an ERROR. A word that is no name fails without a message under `Ask::Remove` and
/// `Ask::ShowRemoval`.
pub enum Failure {
    /// `Module NAME not found in directory DIRECTORY`: the word as it was given.
    NotFound(Text),
    /// `Failed to get module from path WORD: REASON`: the word as it was given, and why nothing stands there.
    NoFile(Text, Text),
    /// `could not insert 'NAME': Module already in kernel`: the module.
    AlreadyLoaded(Text),
    /// `Module NAME not found.`: the word as it was given, under `Ask::Remove` and `Ask::ShowRemoval`.
    NothingToRemove(Text),
    /// `Module NAME is not in kernel.`: the module, under `Ask::Remove`.
    NotInKernel(Text),
    /// `Module NAME is builtin.`: the module, under `Ask::Remove`.
    Builtin(Text),
    /// `Module NAME is in use.`: the module, under `Ask::Remove`.
    InUse(Text),
    /// `could not remove 'NAME': No such file or directory`: the module, under `Ask::Remove` as it is made. A soft dependency
    /// after it took it along.
    Gone(Text),
}

// By hand, since a derived drop is written out, and proved, at each place where a value is let go.
impl Drop for Failure {
    fn drop(self) {
        match self {
            Failure::NotFound(_) => {}
            Failure::NoFile(_, _) => {}
            Failure::AlreadyLoaded(_) => {}
            Failure::NothingToRemove(_) => {}
            Failure::NotInKernel(_) => {}
            Failure::Builtin(_) => {}
            Failure::InUse(_) => {}
            Failure::Gone(_) => {}
        }
    }
}

/// The answer to a query: what is written to standard output, what failed, in order, and whether the status is 1 and
/// not 0. A failure without effect on the status is possible.
pub struct Answer {
    pub(crate) output: Vec<u8>,
    pub(crate) failures: Vec<Failure>,
    pub(crate) failed: bool,
}

// By hand, since a derived drop is written out, and proved, at each place where a value is let go.
impl Drop for Answer {
    fn drop(self) {
        let Answer {
            output: _,
            failures: _,
            failed: _,
        } = self;
    }
}

impl Model for Answer {
    ghost use Rattle.kmod_query.specs.Answers.{Answer};

    ghost Value = { Answer };

    ghost view = { λ a. record { output = a.output.items; failures = a.failures.items; failed = a.failed } };
}

impl Answer {
    ghost use Rattle.kmod_query.specs.Answers.{and_also, and_then, failing, noted, nothing, said, silent_failure};

    /// What is written to standard output.
    pub fn output(&self) -> &[u8]
        ensures { result.now ≡ self.now.output }
    {
        &self.output
    }

    /// What failed, in the order in which it is reported on standard error.
    pub fn failures(&self) -> &[Failure]
        ensures { result.now ≡ self.now.failures }
    {
        &self.failures
    }

    /// Whether the status is 1, and not 0.
    pub fn has_failed(&self) -> bool
        ensures { result ≡ self.now.failed }
    {
        self.failed
    }

    pub(crate) fn nothing(alloc: Global) -> Answer
        ensures { result ≡ nothing }
    {
        Answer {
            output: Vec::new(alloc),
            failures: Vec::new(alloc),
            failed: false,
        }
    }

    pub(crate) fn said(alloc: Global, output: Vec<u8>) -> Answer
        ensures { result ≡ said output.items }
    {
        Answer {
            output,
            failures: Vec::new(alloc),
            failed: false,
        }
    }

    pub(crate) fn failing(alloc: Global, failure: Failure) -> Result<Answer, AllocError>
        ensures { IfOk result (λ answer. answer ≡ failing failure) }
    {
        Answer::noted(alloc, false, failure)
    }

    /// A failure that counts for the status if it is not that of a soft item.
    pub(crate) fn noted(alloc: Global, soft: bool, failure: Failure) -> Result<Answer, AllocError>
        ensures { IfOk result (λ answer. answer ≡ noted soft failure) }
    {
        let mut failures = Vec::new(alloc);
        failures.push(failure)?;
        Ok(Answer {
            output: Vec::new(alloc),
            failures,
            failed: !soft,
        })
    }

    /// A failure without a message.
    pub(crate) fn silent_failure(alloc: Global) -> Answer
        ensures { result ≡ silent_failure }
    {
        Answer {
            output: Vec::new(alloc),
            failures: Vec::new(alloc),
            failed: true,
        }
    }

    /// This answer, and another after it, whose status counts.
    pub(crate) fn and_then(self, next: Answer) -> Result<Answer, AllocError>
        ensures { IfOk result (λ answer. answer ≡ and_then self next) }
    {
        let Answer {
            mut output,
            mut failures,
            failed: _,
        } = self;
        let Answer {
            output: more,
            failures: mut others,
            failed,
        } = next;
        output.extend_from_slice(&more)?;
        failures.append(&mut others)?;
        Ok(Answer {
            output,
            failures,
            failed,
        })
    }

    /// This answer, and another after it; both statuses count.
    pub(crate) fn and_also(self, next: Answer) -> Result<Answer, AllocError>
        ensures { IfOk result (λ answer. answer ≡ and_also self next) }
    {
        let had_failed = self.failed;
        let mut both = self.and_then(next)?;
        both.failed = had_failed || both.failed;
        Ok(both)
    }
}
