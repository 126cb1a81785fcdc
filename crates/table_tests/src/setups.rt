//! What the table of a folder stands on.

use std::test::Fail;
use table_setup::{Sealed, adler32, host_catalogue, seal};

// As depmod(8) writes it.
const DEPENDENCIES: &[u8] = b"kernel/snd.ko:
kernel/snd-pcm.ko: kernel/snd.ko
";

// The last line has the length of what stands before it, and the sum of Python's zlib.adler32.
const SETUP: &[u8] = b"version 3
module snd
exports snd
module snd_pcm
exports snd_pcm
needs snd
%end 74 4271905554
";

/// Whether it is sealed, and its text has 74 bytes.
fn is_sound(setup: &[u8]) -> bool {
    match Sealed::read(setup) {
        Some(sealed) => sealed.text.len() == 74 && sealed.is_sound(),
        None => false,
    }
}

/// Whether it is sealed with another sum.
fn is_unsound(setup: &[u8]) -> bool {
    match Sealed::read(setup) {
        Some(sealed) => !sealed.is_sound(),
        None => false,
    }
}

/// Whether it is no setup without its first byte, and an unsound one if its version is changed.
fn is_told_apart(setup: &mut [u8]) -> bool {
    if setup.len() <= 8 || Sealed::read(&setup[1..]).is_some() {
        return false;
    }
    setup[8] = b'2';
    is_unsound(setup)
}

#[test]
fn a_setup_is_sealed(rt: HostRuntime) -> Result<(), Fail> {
    let catalogue = host_catalogue(rt.alloc(), DEPENDENCIES)?;
    let mut setup = seal(catalogue)?;
    assert!(rt; setup.as_slice() == SETUP && is_sound(&setup) && is_told_apart(&mut setup));
    Ok(())
}

// The worked example of the article Adler-32 in Wikipedia.
#[test]
fn a_sum_is_known(rt: HostRuntime) {
    assert!(rt; adler32(b"Wikipedia") == 0x11e6_0398);
}
