//! Catalogues: a sound card and its PCM layer, and four modules of each kind.

use dep_index::{Catalogue, read_catalogue};
use std::alloc::Global;
use std::test::Fail;

pub(crate) const SND: usize = 0;

pub(crate) const SND_PCM: usize = 1;

/// The module that is permanent, of the four.
pub(crate) const FIXED: usize = 2;

/// The module that needs a symbol which no module exports, of the four.
pub(crate) const LOST: usize = 3;

pub(crate) const SOUND: &[u8] = b"module snd
size 114688
exports snd_card_new
module snd-pcm
size 143360
exports snd_pcm_new
needs snd_card_new
param debug bool
";

/// snd, snd-pcm that needs it, fixed that is permanent, and lost, which needs a symbol that no module exports.
pub(crate) const FOUR: &[u8] = b"module snd
exports snd_card_new
module snd-pcm
needs snd_card_new
module fixed
permanent
module lost
needs nothing_exports_it
";

/// The catalogue of snd, and of snd_pcm, which needs it.
pub(crate) fn sound(alloc: Global) -> Result<Catalogue, Fail> {
    Ok(read_catalogue(alloc, SOUND)?)
}
