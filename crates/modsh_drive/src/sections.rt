//! The sections of an input, without its session.
ghost use Rattle.std.specs.Prelude.{◌≡◌, false};

use modprobe::{Buffer, Lines, ServeFault, Source, TURNS, Watch, read_setup_watched};
use std::alloc::Global;

/// Reads the sections of an input and what they say, and tells the watch of them. `Setup`: the input has no setup, or could
/// not be read up to its session. `Memory`: there is none.
pub(crate) fn read_sections<R: Source, T: Watch>(
    alloc: Global,
    source: &mut R,
    watch: &mut T,
) -> Result<(), ServeFault>
    requires { R.has_failed source.old ≡ false }
{
    let buffer = Buffer::new(alloc)?;
    let mut lines = Lines::new(alloc, buffer, source, TURNS);
    match read_setup_watched(alloc, &mut lines, watch) {
        Ok(_) => Ok(()),
        Err(fault) => {
            watch.stop(lines.line());
            Err(ServeFault::Setup(fault))
        }
    }
}
