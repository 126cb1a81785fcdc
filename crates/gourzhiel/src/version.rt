//! Which calls the library has.
ghost use Rattle.std.specs.Prelude.{◌≡◌};

/// The version of the library: 1 has no managed calls, 2 has no tellers, 3 has all that the header declares.
#[unsafe(no_mangle)]
pub extern "C" fn gz_version() -> u32
    ensures { result ≡ 3 }
{
    3
}
