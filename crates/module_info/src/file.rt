//! A module's file.
ghost use Rattle.std.specs.Prelude.{◌≡◌, IfOk};
ghost use Rattle.std.specs.Option.{option_map};
ghost use Rattle.module_info.specs.Parameters.{is_elf, parameters_in, parameters_of};

use crate::names::add_names_behind;
use kmod_names::Text;
use std::alloc::{AllocError, Global};

fn is_elf(file: &[u8]) -> bool
    ensures { result ≡ is_elf file.now }
{
    file.starts_with(b"\x7fELF")
}

/// The parameters that a module's file names.
fn parameters_in(alloc: Global, file: &[u8]) -> Result<Vec<Text>, AllocError>
    ensures { IfOk result (λ names. names.items ≡ parameters_in file.now) }
{
    let mut names = Vec::new(alloc);
    add_names_behind(alloc, b"parmtype=", file, &mut names)?;
    add_names_behind(alloc, b"parm=", file, &mut names)?;
    add_names_behind(alloc, b"__param_str_", file, &mut names)?;
    Ok(names)
}

/// The names of the parameters of a module, with `_` for each `-`, from the whole content of the module's own file,
/// of any length. They are those that modinfo(8) shows, and those of symbols `__param_str_NAME`. A name stands there
/// once for each string that has it, so two or three times as a rule. None if it is no ELF file (it is compressed,
/// say). It fails only if memory runs out.
pub fn parameters(alloc: Global, file: &[u8]) -> Result<Option<Vec<Text>>, AllocError>
    ensures { IfOk result (λ found. option_map (λ names. names.items) found ≡ parameters_of file.now) }
{
    if !is_elf(file) {
        return Ok(None);
    }
    Ok(Some(parameters_in(alloc, file)?))
}

#[cfg(test)]
mod tests {
    use super::*;
    use std::test::Fail;

    /// Parts of g_serial.ko of Linux 6.1, which sets `enable` by `module_param_cb`.
    const MODULE: &[u8] = b"\x7fELF\x02\x01\x01\0\0\
        parm=n_ports:number of ports to create, default=1\0parmtype=n_ports:uint\0\
        __param_enable\0__param_str_enable\0enable_ops\0\
        __param_n_ports\0__param_str_n_ports\0";

    #[test]
    fn a_module_has_its_parameters(rt: HostRuntime) -> Result<(), Fail> {
        let names = parameters(rt.alloc(), MODULE)?.ok_or("no ELF file")?;
        let wanted: [&[u8]; 4] = [b"n_ports", b"n_ports", b"enable", b"n_ports"];
        assert_eq!(rt; names.len(), wanted.len());
        for (name, want) in names.iter().zip(wanted) {
            assert!(rt; name.as_bytes() == want);
        }
        assert!(rt; parameters(rt.alloc(), b"\xfd7zXZ\0")?.is_none());
        Ok(())
    }
}
