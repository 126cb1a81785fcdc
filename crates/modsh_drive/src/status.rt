//! The status after a session.
ghost use Rattle.std.specs.Prelude.{◌≡◌};
ghost use Rattle.modsh_drive.specs.Statuses.{status_of, status_after, status_of_lint};

use modprobe::{ServeFault, SetupCode, SetupFault};
use program_frame::Status;

/// The status after a fault: that of a setup is refused if it is a fault of its text.
fn status_of(fault: &ServeFault) -> Status
    ensures { result ≡ status_of fault.now }
{
    match fault {
        ServeFault::Setup(
            SetupFault {
                code: SetupCode::Read | SetupCode::Memory | SetupCode::Turns | SetupCode::LongLine,
                ..
            },
        ) => Status::Fault,
        ServeFault::Setup(_) => Status::Refused,
        ServeFault::Run(_) | ServeFault::Memory => Status::Fault,
    }
}

/// The status after a session with so many error replies, which count as an error if that is asked for. So does an
/// input without a session.
pub(crate) fn status_after(
    answer: &Result<u64, ServeFault>,
    fail: bool,
    has_session: bool,
) -> Status
    ensures { result ≡ status_after answer.now fail has_session }
{
    match answer {
        Ok(errors) if fail && (*errors > 0 || !has_session) => Status::ErrorReply,
        Ok(_) => Status::Done,
        Err(fault) => status_of(fault),
    }
}

/// The status after a lint that told so many notes.
pub(crate) fn status_of_lint(notes: usize) -> Status
    ensures { result ≡ status_of_lint notes }
{
    if notes == 0 {
        Status::Done
    } else {
        Status::ErrorReply
    }
}
