//! What is read of a machine only to explain an answer, or to answer a removal as it is made.
ghost use Rattle.std.specs.Prelude.{◌≡◌, [], false, None, IfOk};

use crate::formed::form_by;
use crate::holders::read_holders;
use crate::queries::is_removal;
use crate::run::Run;
use crate::unread::unread_files;
use answer_reasons::UnreadFile;
use kmod_query::{Holders, Query, States};
use modprobe_files::System;
use modprobe_words::Form;
use std::alloc::AllocError;

/// What an explanation needs beside what the answer needs. A removal that is answered as it is made needs the holders too.
pub(crate) struct Evidence {
    /// Who holds the modules that are used, if modules are to be removed.
    pub(crate) holders: Vec<Holders>,
    /// The files beside the configuration that are not read.
    pub(crate) unread: Vec<UnreadFile>,
    /// In which form it is explained.
    pub(crate) form: Form,
}

// By hand, since a derived drop is written out, and proved, at each place where a value is let go.
impl Drop for Evidence {
    fn drop(self) {
        let Evidence {
            holders: _,
            unread: _,
            form: _,
        } = self;
    }
}

impl Evidence {
    /// What explains the answer to a query. Without --explain and --whole nothing is read. It fails only if memory runs out.
    pub(crate) fn read<S: System>(
        run: &Run<'_, S>,
        query: &Query<'_>,
        states: &States,
    ) -> Result<Evidence, AllocError>
        ensures holders { IfOk result (λ own. run.now.asked.now.switches.explain ≡ None → run.now.asked.now.switches.whole ≡ false → own.holders.items ≡ []) }
        ensures unread { IfOk result (λ own. run.now.asked.now.switches.explain ≡ None → own.unread.items ≡ []) }
    {
        let switches = run.asked.switches;
        let mut evidence = Evidence {
            holders: Vec::new(run.host.alloc()),
            unread: Vec::new(run.host.alloc()),
            form: form_by(switches.explain),
        };
        let explains = switches.explain.is_some();
        if is_removal(query.ask) && (explains || switches.whole) {
            evidence.holders = read_holders(run.host, states)?;
        }
        if explains {
            evidence.unread = unread_files(run)?;
        }
        Ok(evidence)
    }
}
