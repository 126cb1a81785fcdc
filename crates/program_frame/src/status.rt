//! How a program ends.
ghost use Rattle.std.specs.Prelude.{◌≡◌};
ghost use Rattle.program_frame.specs.Ends.{number_of};

/// How a program ends, by its exit status.
#[derive(Clone, Copy, Drop)]
pub enum Status {
    Done = 0,
    /// The status was to say this, and it is so: a reply was an error, there was no session, or a lint listed a line.
    ErrorReply = 1,
    /// An argument or the input is refused.
    Refused = 2,
    /// A stream failed, memory ran out, or a limit was reached.
    Fault = 3,
}

impl Status {
    /// The exit status.
    pub fn number(self) -> u8
        ensures { result ≡ number_of self }
    {
        self as u8
    }
}
