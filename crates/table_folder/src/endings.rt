//! How a line ends.
ghost use Rattle.std.specs.Prelude.{◌≡◌};
ghost use Rattle.table_folder.specs.Endings.{ending_of_code, ending_of_outcome};

use modprobe::{Code, Reply};
use table_words::Ending;

/// How a line ends that is refused by this code.
fn ending_of_code(code: Code) -> Ending
    ensures { result ≡ ending_of_code code }
{
    match code {
        Code::Syntax => Ending::Unasked,
        Code::Enoent => Ending::Absent,
        Code::Ewouldblock => Ending::InUse,
        Code::NotLive | Code::NeedNotLive | Code::Ebusy => Ending::NotLive,
        Code::Eexist => Ending::Exists,
        Code::NotHeld => Ending::NotHeld,
        Code::Einval => Ending::BadParameter,
        Code::Cycle | Code::Install | Code::Remove | Code::UnknownSymbol => Ending::NoPlan,
        Code::TooMany | Code::Worker => Ending::TooMany,
    }
}

/// How a line ends with this reply: as its refusal says, as `No` if the reply is `no`, and else as `Done`.
pub fn ending_of(reply: &Reply) -> Ending
    ensures { result ≡ ending_of_outcome reply.now }
{
    match reply.refusal() {
        Some(refusal) => ending_of_code(refusal.code),
        None if reply.text() == b"no\n".as_slice() => Ending::No,
        None => Ending::Done,
    }
}
