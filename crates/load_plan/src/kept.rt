//! Which modules a removal skips.
ghost use Rattle.std.specs.Prelude.{◌≡◌};
ghost use Rattle.load_plan.specs.Sources.{is_kept};

use modprobe_conf::Conf;

/// Whether a removal skips the module of a name in normal form: it has a remove line and no softdep line
/// (modprobe.d(5)).
pub fn is_kept(configuration: &Conf, name: &[u8]) -> bool
    ensures { result ≡ is_kept configuration.now name.now }
{
    match configuration.settings(name) {
        Some(settings) => settings.has_remove() && settings.softdep().is_none(),
        None => false,
    }
}
