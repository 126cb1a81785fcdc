//! What the texts of a configuration say.
ghost use Rattle.std.specs.Prelude.{◌≡◌, IfOk, OnOk};
ghost use Rattle.gz_modprobe_drive.specs.Texts.{conf_from, conf_of, texts_in};

use kmod_conf::Conf;
use kmod_version::Kmod;
use modprobe_files::{ConfTexts, TextFile};
use std::alloc::{AllocError, Global};

/// Adds what files say, one after another. A place has the number of its file.
fn add_files(
    alloc: Global,
    kmod: Kmod,
    conf: &mut Conf,
    files: &[TextFile],
) -> Result<(), AllocError>
    ensures { OnOk result (conf.new ≡ conf_from kmod 0 conf.old (texts_in files.now)) }
{
    let mut source = 0usize;
    let mut rest = files;
    while let Some((file, later)) = rest.split_first() {
        conf.add_text(alloc, kmod, source, &file.text)?;
        source += 1;
        rest = later;
    }
    Ok(())
}

/// What the texts of a configuration say: the files, one after another, and then the kernel's command line. A place has the
/// number of its file, and the command line has the number after them. It fails only if memory runs out.
#[tactic(auto, unfolding(crate::specs::Texts::conf_of, crate::specs::Texts::with_texts, crate::specs::Texts::with_command_line))]
pub fn conf_of(alloc: Global, texts: &ConfTexts) -> Result<Conf, AllocError>
    ensures { IfOk result (λ conf. conf ≡ conf_of texts.now) }
{
    let mut conf = Conf::new(alloc);
    add_files(alloc, texts.kmod, &mut conf, &texts.files)?;
    match &texts.command_line {
        Some(line) => conf.add_command_line(alloc, texts.files.len(), line)?,
        None => {}
    }
    Ok(conf)
}
