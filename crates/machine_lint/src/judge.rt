//! What lines are judged by.

use crate::known::ModuleParameters;
use crate::line::Line;
use kmod_conf::Conf;
use kmod_index::Index;

/// What lines are judged by: a configuration, the texts of a folder of modules, the parameters of modules, and all lines
/// of the configuration.
#[derive(Clone, Copy)]
pub(crate) struct Judge<'a> {
    pub(crate) conf: &'a Conf,
    pub(crate) index: &'a Index<'a>,
    pub(crate) parameters: &'a [ModuleParameters],
    pub(crate) lines: &'a [Line],
}
