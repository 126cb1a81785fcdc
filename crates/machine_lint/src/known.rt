//! What is known of a machine.
ghost use Rattle.std.specs.Prelude.{◌≡◌};
ghost use Rattle.machine_lint.specs.Lines.{is_depmod, is_kernel, is_package, origin_at};
ghost use Rattle.machine_lint.specs.Notes.{has_parameter};

use kmod_conf::Conf;
use kmod_index::Index;
use kmod_names::Text;
use text_parts::is_same;

/// Who wrote a text of the configuration.
#[derive(Clone, Copy)]
pub enum Origin {
    /// People, or a package into a folder that people edit.
    Own,
    /// A package, for whichever kernel is there.
    Package,
    /// depmod(8), as modules.softdep: nobody edits it.
    Depmod,
    /// Whoever starts the kernel: it is the kernel's command line.
    Kernel,
}

impl Origin {
    pub(crate) fn is_depmod(self) -> bool
        ensures { result ≡ is_depmod self }
    {
        matches!(self, Origin::Depmod)
    }

    pub(crate) fn is_package(self) -> bool
        ensures { result ≡ is_package self }
    {
        matches!(self, Origin::Package)
    }

    pub(crate) fn is_kernel(self) -> bool
        ensures { result ≡ is_kernel self }
    {
        matches!(self, Origin::Kernel)
    }
}

/// The parameters of a module: its name as modules.dep has it, and the names of its parameters as modinfo(8) lists them,
/// all with `_` for `-`.
#[derive(Drop)]
pub struct ModuleParameters {
    pub module: Text,
    pub names: Vec<Text>,
}

impl ModuleParameters {
    /// Whether the module has a parameter of this name.
    pub(crate) fn has(&self, parameter: &[u8]) -> bool
        ensures { result ≡ has_parameter self.now parameter.now }
    {
        self.names
            .iter()
            .any(|name| is_same(name.as_bytes(), parameter))
    }
}

/// What is known of a machine: its configuration, the texts of its folder of modules, the parameters of modules, and who
/// wrote the files of the configuration, by the numbers that places have. The kernel's command line has the number after
/// them. Not every module need have its parameters here: of one that has none here, no parameter is told as unknown. Of
/// two entries of a module the first counts.
#[derive(Clone, Copy)]
pub struct Known<'a> {
    pub conf: &'a Conf,
    pub index: &'a Index<'a>,
    pub parameters: &'a [ModuleParameters],
    pub files: &'a [Origin],
}

impl Known<'_> {
    /// Who wrote the text of a number.
    pub(crate) fn origin_at(&self, source: usize) -> Origin
        ensures { result ≡ origin_at self.now.files.now source }
    {
        self.files.get(source).copied().unwrap_or(Origin::Kernel)
    }
}
