ghost use Rattle.std.specs.Prelude.{◌≡◌, ◌+◌, ◌<◌, ◌≤◌, ◌^◌, length, OnOk, OnErr};
ghost use Rattle.line_journal.specs.Device.{overwritten};

use std::alloc::AllocError;

/// Writes over what is there and past its end.
pub(crate) fn overwrite(file: &mut Vec<u8>, place: usize, bytes: &[u8]) -> Result<(), AllocError>
    requires { place ≤ length file.old.items }
    ensures ok { OnOk result (file.new.items ≡ overwritten file.old.items place bytes.now) }
    ensures fits { OnOk result (place + length bytes.now < 2 ^ 64) }
    ensures err { OnErr result (file.new.items ≡ file.old.items) }
{
    let inside = bytes.len().min(file.len() - place);
    file.extend_from_slice(&bytes[inside..])?;
    file[place..place + inside].copy_from_slice(&bytes[..inside]);
    Ok(())
}
