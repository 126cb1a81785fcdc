//! How the program ends.
ghost use Rattle.std.specs.Prelude.{◌≡◌, Some};
ghost use Rattle.table_words.specs.Endings.{behind, ending_of, is_refusal, number_of};

/// How the program ends, by its exit status.
#[derive(Clone, Copy, Debug, PartialEq, Eq)]
pub enum Ending {
    /// The command was done, or the answer is yes.
    Done = 0,
    /// The answer is no.
    No = 1,
    /// The words or the line ask for nothing that there is, or there is no table.
    Unasked = 2,
    /// The disk or a stream failed, or memory ran out.
    Fault = 3,
    /// Another process held the table for longer than was waited.
    Locked = 4,
    /// There is no such module (ENOENT).
    Absent = 10,
    /// The module is held, or another one needs it (EWOULDBLOCK).
    InUse = 11,
    /// The module or what it needs is not live, a load or a removal goes on, or the module is permanent (NOTLIVE,
    /// NEEDNOTLIVE, EBUSY).
    NotLive = 12,
    /// The module is there already (EEXIST).
    Exists = 13,
    /// The holder does not hold the module (NOTHELD).
    NotHeld = 15,
    /// A parameter is bad (EINVAL).
    BadParameter = 16,
    /// There is no plan (CYCLE, INSTALL, REMOVE, UNKNOWNSYMBOL).
    NoPlan = 17,
    /// There are as many references or holders as there may be (TOOMANY, WORKER).
    TooMany = 18,
}

impl Ending {
    /// The exit status.
    pub fn number(self) -> u8
        ensures value { result ≡ number_of self }
        ensures apart { ending_of result ≡ Some self }
    {
        self as u8
    }

    /// Whether something was refused or failed.
    pub fn is_refusal(self) -> bool
        ensures { result ≡ is_refusal self }
    {
        !matches!(self, Ending::Done | Ending::No)
    }

    /// How several lines end, with one more. The first that was refused counts, and an answer no is none.
    pub fn behind(self, next: Ending) -> Ending
        ensures { result ≡ behind self next }
    {
        if self.is_refusal() {
            self
        } else if next.is_refusal() {
            next
        } else {
            Ending::Done
        }
    }
}
