//! What names stand for.
ghost use Rattle.std.specs.Prelude.{◌≡◌, IfOk};
ghost use Rattle.kmod_index.specs.Builtins.{is_among};
ghost use Rattle.machine_lint.specs.Names.{has_file, is_alias, is_alias_pattern, is_builtin_alias, is_commanded, is_found, is_in_kernel, is_kernel_alias, is_loadable, is_matched, is_module, is_named, is_only_alias, is_own, is_target, is_used};

use crate::judge::Judge;
use std::alloc::{AllocError, Global};
use text_parts::is_same;

impl Judge<'_> {
    /// Whether modules.dep has a module of the name.
    pub(crate) fn has_file(&self, name: &[u8]) -> bool
        ensures { result ≡ has_file self.now.index.now name.now }
    {
        self.index.find(name).is_some()
    }

    /// Whether a module of the name is in the kernel.
    pub(crate) fn is_builtin(&self, name: &[u8]) -> bool
        ensures { result ≡ is_among self.now.index.now.builtin_names name.now }
    {
        self.index.is_builtin(name)
    }

    /// Whether an alias of a module in the kernel matches the name.
    fn is_builtin_alias(&self, alloc: Global, name: &[u8]) -> Result<bool, AllocError>
        ensures { IfOk result (λ is. is ≡ is_builtin_alias self.now.index.now name.now) }
    {
        let aliases = self.index.builtin_aliases(alloc, name)?;
        Ok(aliases.len() > 0)
    }

    /// Whether a module in the kernel has the name, or an alias that matches it.
    pub(crate) fn is_in_kernel(&self, alloc: Global, name: &[u8]) -> Result<bool, AllocError>
        ensures { IfOk result (λ is. is ≡ is_in_kernel self.now.index.now name.now) }
    {
        let is_alias = self.is_builtin_alias(alloc, name)?;
        Ok(self.is_builtin(name) || is_alias)
    }

    /// Whether the name is that of an alias of a module in the kernel alone, of which a command of this name takes the place.
    pub(crate) fn is_kernel_alias(&self, alloc: Global, name: &[u8]) -> Result<bool, AllocError>
        ensures { IfOk result (λ is. is ≡ is_kernel_alias self.now.index.now name.now) }
    {
        let is_alias = self.is_builtin_alias(alloc, name)?;
        Ok(!self.is_builtin(name) && is_alias)
    }

    /// Whether an alias outside the kernel matches the name, or a symbol is this name.
    fn is_alias(&self, alloc: Global, name: &[u8]) -> Result<bool, AllocError>
        ensures { IfOk result (λ is. is ≡ is_alias self.now.conf.now self.now.index.now name.now) }
    {
        let own = self.conf.matching_aliases(alloc, name)?;
        let found = self.index.matching_aliases(alloc, name)?;
        let symbols = self.index.symbols_of_key(alloc, name)?;
        Ok(own.len() > 0 || found.len() > 0 || symbols.len() > 0)
    }

    /// Whether an alias line of the configuration has this very name for its pattern.
    pub(crate) fn is_alias_pattern(&self, name: &[u8]) -> bool
        ensures { result ≡ is_alias_pattern self.now.conf.now name.now }
    {
        let lines = self.conf.aliases();
        lines
            .iter()
            .any(|line| is_same(line.pattern.as_bytes(), name))
    }

    /// Whether an alias line of the configuration leads to the name.
    fn is_target(&self, name: &[u8]) -> bool
        ensures { result ≡ is_target self.now.conf.now name.now }
    {
        let lines = self.conf.aliases();
        lines
            .iter()
            .any(|line| is_same(line.target.as_bytes(), name))
    }

    /// Whether an install or a remove line matches the name.
    fn is_matched(&self, alloc: Global, name: &[u8]) -> Result<bool, AllocError>
        ensures { IfOk result (λ is. is ≡ is_matched self.now.conf.now name.now) }
    {
        let install = self.conf.install_of(alloc, name)?;
        let remove = self.conf.remove_of(alloc, name)?;
        Ok(install.is_some() || remove.is_some())
    }

    /// Whether an install or a remove line has this very name, or one matches it and an alias line leads to it.
    pub(crate) fn is_commanded(&self, alloc: Global, name: &[u8]) -> Result<bool, AllocError>
        ensures { IfOk result (λ is. is ≡ is_commanded self.now.conf.now name.now) }
    {
        let is_matched = self.is_matched(alloc, name)?;
        let has_line = self.conf.has_install_named(name) || self.conf.has_remove_named(name);
        Ok(has_line || (self.is_target(name) && is_matched))
    }

    /// Whether the name leads to a file of a module, or is an alias outside the kernel.
    pub(crate) fn is_named(&self, alloc: Global, name: &[u8]) -> Result<bool, AllocError>
        ensures { IfOk result (λ is. is ≡ is_named self.now.conf.now self.now.index.now name.now) }
    {
        let is_alias = self.is_alias(alloc, name)?;
        Ok(self.has_file(name) || is_alias || self.is_alias_pattern(name))
    }

    /// Whether it does, or a command is run for the name.
    pub(crate) fn is_used(&self, alloc: Global, name: &[u8]) -> Result<bool, AllocError>
        ensures { IfOk result (λ is. is ≡ is_used self.now.conf.now self.now.index.now name.now) }
    {
        let is_commanded = self.is_commanded(alloc, name)?;
        let is_named = self.is_named(alloc, name)?;
        Ok(is_named || is_commanded)
    }

    /// Whether a look-up of the name finds something.
    pub(crate) fn is_found(&self, alloc: Global, name: &[u8]) -> Result<bool, AllocError>
        ensures { IfOk result (λ is. is ≡ is_found self.now.conf.now self.now.index.now name.now) }
    {
        let is_alias = self.is_alias(alloc, name)?;
        let is_in_kernel = self.is_in_kernel(alloc, name)?;
        let has_line = self.conf.has_install_named(name) || self.conf.has_remove_named(name);
        Ok(self.has_file(name) || is_alias || is_in_kernel || has_line)
    }

    /// Whether a module has the name, a command is run for it, or an alias line leads to it.
    pub(crate) fn is_module(&self, alloc: Global, name: &[u8]) -> Result<bool, AllocError>
        ensures { IfOk result (λ is. is ≡ is_module self.now.conf.now self.now.index.now name.now) }
    {
        let is_commanded = self.is_commanded(alloc, name)?;
        Ok(self.has_file(name) || is_commanded || self.is_target(name))
    }

    /// Whether the name stands for the module of this very name.
    pub(crate) fn is_own(&self, alloc: Global, name: &[u8]) -> Result<bool, AllocError>
        ensures { IfOk result (λ is. is ≡ is_own self.now.conf.now self.now.index.now name.now) }
    {
        let aliases = self.conf.matching_aliases(alloc, name)?;
        let has_alias = aliases.len() > 0;
        Ok(self.has_file(name) && !has_alias)
    }

    /// Whether the name is an alias, and not that of a module in the kernel.
    pub(crate) fn is_only_alias(&self, alloc: Global, name: &[u8]) -> Result<bool, AllocError>
        ensures { IfOk result (λ is. is ≡ is_only_alias self.now.conf.now self.now.index.now name.now) }
    {
        let is_alias = self.is_alias(alloc, name)?;
        let is_builtin_alias = self.is_builtin_alias(alloc, name)?;
        let has_alias = is_alias || self.is_alias_pattern(name) || is_builtin_alias;
        Ok(!self.is_builtin(name) && has_alias)
    }

    /// Whether a module is loaded, or a command run, by the name.
    pub(crate) fn is_loadable(&self, alloc: Global, name: &[u8]) -> Result<bool, AllocError>
        ensures { IfOk result (λ is. is ≡ is_loadable self.now.conf.now self.now.index.now name.now) }
    {
        let is_commanded = self.is_commanded(alloc, name)?;
        Ok(self.has_file(name) || self.is_builtin(name) || is_commanded)
    }
}
