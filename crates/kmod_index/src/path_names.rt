//! Names of modules, compared with the paths of files where these stand.
ghost use Rattle.std.specs.Prelude.{◌≡◌, map};
ghost use Rattle.std.specs.Str.{bytes_eq};
ghost use Rattle.text_parts.specs.Text.{normal_byte};
ghost use Rattle.kmod_names.specs.Names.{base_of, name_of_path, stem};
ghost use Rattle.kmod_index.specs.Sums.{sum_of};

use memchr::memrchr;

/// What stands after the last slash.
fn base_of(path: &[u8]) -> &[u8]
    ensures { result.now ≡ base_of path.entry.now }
{
    match memrchr(b'/', path) {
        Some(slash) => &path[slash + 1..],
        None => path,
    }
}

fn normal_byte(byte: u8) -> u8
    ensures { result ≡ normal_byte byte }
{
    if byte == b'-' { b'_' } else { byte }
}

/// Whether a name is what stands before the first dot, with `_` for each `-`.
fn is_stem(name: &[u8], base: &[u8]) -> bool
    ensures { result ≡ bytes_eq name.now (map normal_byte (stem base.now)) }
{
    let mut rest = name;
    let mut others = base;
    while let Some((byte, later)) = rest.split_first() {
        let Some((other, other_later)) = others.split_first() else {
            return false;
        };
        if *other == b'.' || *byte != normal_byte(*other) {
            return false;
        }
        rest = later;
        others = other_later;
    }
    matches!(others.first(), None | Some(b'.'))
}

/// The sum of a name's bytes.
pub(crate) fn sum_of(name: &[u8]) -> u32
    ensures { result ≡ sum_of name.now }
{
    let mut sum = 0u32;
    let mut rest = name;
    while let Some((byte, later)) = rest.split_first() {
        sum = sum.wrapping_add(*byte as u32);
        rest = later;
    }
    sum
}

/// The sum of a name that is told by the path of a file.
pub(crate) fn sum_of_path(path: &[u8]) -> u32
    ensures { result ≡ sum_of (name_of_path path.now) }
{
    let mut sum = 0u32;
    let mut rest = base_of(path);
    while let Some((byte, later)) = rest.split_first() {
        if *byte == b'.' {
            return sum;
        }
        sum = sum.wrapping_add(normal_byte(*byte) as u32);
        rest = later;
    }
    sum
}

/// Whether a module has the name that its file gives it, as `name_of_path` tells it.
pub(crate) fn is_name_of_path(name: &[u8], path: &[u8]) -> bool
    ensures { result ≡ bytes_eq name.now (name_of_path path.now) }
{
    is_stem(name, base_of(path))
}
