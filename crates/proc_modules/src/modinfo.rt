//! What modinfo(8) tells of a module.
ghost use Rattle.std.specs.Prelude.{◌≡◌, ◌<◌, ◌++◌, length, decimal, flat_map, IfOk, OnOk, codes};
ghost use Rattle.std.specs.List.{join_with_byte};
ghost use Rattle.dep_index.specs.Catalogue.{needs_of};
ghost use Rattle.proc_modules.specs.Listings.{names_of};
ghost use Rattle.proc_modules.specs.Details.{field, scalar_text, kind_text, depends_line, param_line, modinfo_text};

use crate::columns::{push_left, push_names};
use crate::write::push_number;
use dep_index::{Catalogue, Param, ParamKind, Scalar};
use std::alloc::{AllocError, Global};

fn scalar_text(scalar: Scalar) -> &'static [u8]
    ensures { result.now ≡ scalar_text scalar }
{
    match scalar {
        Scalar::Byte => b"byte",
        Scalar::Short => b"short",
        Scalar::Ushort => b"ushort",
        Scalar::Int => b"int",
        Scalar::Uint => b"uint",
        Scalar::Long => b"long",
        Scalar::Ulong => b"ulong",
        Scalar::Ullong => b"ullong",
        Scalar::Hexint => b"hexint",
        Scalar::Bool => b"bool",
        Scalar::Bint => b"bint",
        Scalar::Invbool => b"invbool",
    }
}

/// Adds the type of a parameter. It fails only if memory runs out; what stands in the text then is not said.
pub fn push_kind(text: &mut Vec<u8>, kind: ParamKind) -> Result<(), AllocError>
    ensures { OnOk result (text.new.items ≡ text.old.items ++ kind_text kind) }
{
    match kind {
        ParamKind::Charp => text.extend_from_slice(b"charp")?,
        ParamKind::One(scalar) => text.extend_from_slice(scalar_text(scalar))?,
        ParamKind::Array(scalar) => {
            text.extend_from_slice(scalar_text(scalar))?;
            text.extend_from_slice(b"[]")?;
        }
    }
    Ok(())
}

/// Adds the line of a field whose value is a text.
fn push_field(text: &mut Vec<u8>, label: &[u8], value: &[u8]) -> Result<(), AllocError>
    ensures { OnOk result (text.new.items ≡ text.old.items ++ field label.now value.now) }
{
    push_left(text, 16, label)?;
    text.extend_from_slice(value)?;
    text.push(b'\n')?;
    Ok(())
}

fn push_size(text: &mut Vec<u8>, size: u32) -> Result<(), AllocError>
    ensures { OnOk result (text.new.items ≡ text.old.items ++ field (codes "size:") (decimal size)) }
{
    push_left(text, 16, b"size:")?;
    push_number(text, size as usize)?;
    text.push(b'\n')?;
    Ok(())
}

fn push_depends(text: &mut Vec<u8>, catalogue: &Catalogue, slot: usize) -> Result<(), AllocError>
    requires { slot < length catalogue.now }
    ensures { OnOk result (text.new.items ≡ text.old.items ++ depends_line catalogue.now slot) }
{
    push_left(text, 16, b"depends:")?;
    push_names(text, catalogue, catalogue.needs(slot))?;
    text.push(b'\n')?;
    Ok(())
}

fn push_param(text: &mut Vec<u8>, param: &Param) -> Result<(), AllocError>
    ensures { OnOk result (text.new.items ≡ text.old.items ++ param_line param.now) }
{
    push_left(text, 16, b"parm:")?;
    text.extend_from_slice(param.name.as_bytes())?;
    text.push(b':')?;
    push_kind(text, param.kind)?;
    text.push(b'\n')?;
    Ok(())
}

/// What modinfo(8) tells of the module: its name, its size, the modules that it needs, and its parameters in the
/// order of the catalogue, each with its type.
pub fn modinfo_text(
    alloc: Global,
    catalogue: &Catalogue,
    slot: usize,
) -> Result<Vec<u8>, AllocError>
    requires { slot < length catalogue.now }
    ensures { IfOk result (λ text. text.items ≡ modinfo_text catalogue.now slot) }
{
    let mut text = Vec::new(alloc);
    push_field(&mut text, b"name:", catalogue.name(slot))?;
    push_size(&mut text, catalogue.size(slot))?;
    push_depends(&mut text, catalogue, slot)?;
    let params = catalogue.params(slot);
    for param in params {
        push_param(&mut text, param)?;
    }
    Ok(text)
}
