//! The states of modules, as /sys/module tells them.
ghost use Rattle.std.specs.Prelude.{◌≡◌, [], OnOk};
ghost use Rattle.kmod_query.specs.States.{status_in, with_status};

use indexmap::IndexMap;
use std::alloc::{AllocError, Global};
use std::marker::Model;

/// What /sys/module says of a module (sysfs(5)): the text of its `initstate`, or that it has a folder without one.
#[derive(Clone, Copy)]
pub enum ModuleState {
    /// `live`
    Live,
    /// `coming`
    Coming,
    /// `going`
    Going,
    /// any other text
    Other,
    /// a folder without `initstate`
    Folder,
}

/// The state of a module, and how many use it: the number in `refcnt`. None if there is no such file or no number in it.
#[derive(Clone, Copy)]
pub struct ModuleStatus {
    pub state: ModuleState,
    pub users: Option<u64>,
}

/// The modules that /sys/module has, by their names as they stand there, each with its status.
#[derive(Drop)]
pub struct States {
    modules: IndexMap<Vec<u8>, ModuleStatus>,
}

impl Model for States {
    ghost use Rattle.std.specs.Prelude.{ℕ, List, map};
    ghost use Rattle.kmod_query.specs.declared.states.ModuleStatus.{ModuleStatus};

    ghost Value = { List (List ℕ × ModuleStatus) };

    ghost view = { λ s. map (λ entry. (entry.0.items, entry.1)) s.modules.entries };
}

impl States {
    /// No module has a state.
    pub fn new(alloc: Global) -> States
        ensures { result ≡ [] }
    {
        States {
            modules: IndexMap::new(alloc),
        }
    }

    /// Notes the status of a module; what was noted of it before is forgotten. It fails only if memory runs out.
    pub fn set(
        &mut self,
        alloc: Global,
        name: &[u8],
        status: ModuleStatus,
    ) -> Result<(), AllocError>
        ensures { OnOk result (self.new ≡ with_status self.old name.now status) }
    {
        let key = Vec::from_slice(alloc, name)?;
        self.modules.insert(key, status)?;
        Ok(())
    }

    /// What is known of a module.
    pub fn of(&self, name: &[u8]) -> Option<ModuleStatus>
        ensures { result ≡ status_in self.now name.now }
    {
        self.modules.get(name).copied()
    }
}
