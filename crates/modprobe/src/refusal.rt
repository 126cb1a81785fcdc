//! Why a line is refused.
ghost use Rattle.std.specs.Prelude.{◌≡◌, ◌≤◌, length};
ghost use Rattle.modprobe.specs.Refusals.{code_text};

/// The code of a refusal. An error of init_module(2) or delete_module(2) is named; the other codes are our own.
#[derive(Clone, Copy, Debug, PartialEq, Eq, Drop)]
pub enum Code {
    /// No module is found for the name, or the module to be removed or drained is absent. Kernel: ENOENT.
    Enoent,
    /// The module to be loaded is not absent. Kernel: EEXIST.
    Eexist,
    /// A word is no good value of a parameter of the module. Kernel: EINVAL.
    Einval,
    /// The module needs a symbol that no module exports. Linux refuses the load with ENOENT.
    UnknownSymbol,
    /// This module, which is needed, is not live. Linux refuses the load with ENOENT.
    NeedNotLive,
    /// Another module needs the module, or a worker holds it. Kernel: EWOULDBLOCK.
    Ewouldblock,
    /// The module is permanent, or its state does not allow the call. Kernel: EBUSY.
    Ebusy,
    /// A worker asks for a module that is not live. Linux's try_module_get() answers false.
    NotLive,
    /// The worker holds the module 65,535 times. Linux counts further.
    TooMany,
    /// The worker does not hold the module. Linux's module_put() warns in the log.
    NotHeld,
    /// The hard dependencies of a plan lead back to the module.
    Cycle,
    /// The module has an install line, whose command modprobe(8) would run.
    Install,
    /// The module has a remove line, whose command modprobe(8) would run.
    Remove,
    /// The table has no worker of this number.
    Worker,
    /// The line is no command.
    Syntax,
}

#[tactic(auto, unfolding(crate::specs::Refusals::code_text))]
impl Code {
    /// The code as an error line has it: at most 13 capital letters.
    pub fn text(self) -> &'static [u8]
        ensures text { result.now ≡ code_text self }
        ensures short { length result.now ≤ 13 }
    {
        match self {
            Code::Enoent => b"ENOENT",
            Code::Eexist => b"EEXIST",
            Code::Einval => b"EINVAL",
            Code::UnknownSymbol => b"UNKNOWNSYMBOL",
            Code::NeedNotLive => b"NEEDNOTLIVE",
            Code::Ewouldblock => b"EWOULDBLOCK",
            Code::Ebusy => b"EBUSY",
            Code::NotLive => b"NOTLIVE",
            Code::TooMany => b"TOOMANY",
            Code::NotHeld => b"NOTHELD",
            Code::Cycle => b"CYCLE",
            Code::Install => b"INSTALL",
            Code::Remove => b"REMOVE",
            Code::Worker => b"WORKER",
            Code::Syntax => b"SYNTAX",
        }
    }
}

/// Why a line is refused: the code and the name that its reply tells. The name is the module's, in normal form; with
/// `Syntax` it is the first word of the line.
#[derive(Clone, Copy, Debug, PartialEq, Eq, Drop)]
pub struct Refusal<'a> {
    pub code: Code,
    pub name: &'a [u8],
}

/// Why a change of the table is refused: a code, and the slot of the module that its line names.
#[derive(Clone, Copy, Drop)]
pub(crate) struct SlotRefusal {
    pub(crate) code: Code,
    pub(crate) slot: usize,
}

impl SlotRefusal {
    pub(crate) fn new(code: Code, slot: usize) -> SlotRefusal
        ensures { result ≡ record { code = code; slot = slot } }
    {
        SlotRefusal { code, slot }
    }
}
