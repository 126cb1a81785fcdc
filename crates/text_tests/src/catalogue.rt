//! Catalogues and modules.dep texts: what is read of them, their first faults, their limits.

use crate::texts::{
    CIRCLE, Rest, SOUND, behind, behind_name_lines, behind_names, holds, holds_at, holds_or_short,
};
use dep_index::{
    CatError, Catalogue, DepError, DepIndex, Param, ParamKind, Scalar, Slots, read_catalogue,
    read_dep,
};
use std::alloc::{AllocError, Global};

fn scalar_text(scalar: Scalar) -> &'static [u8] {
    match scalar {
        Scalar::Byte => b" byte",
        Scalar::Short => b" short",
        Scalar::Ushort => b" ushort",
        Scalar::Int => b" int",
        Scalar::Uint => b" uint",
        Scalar::Long => b" long",
        Scalar::Ulong => b" ulong",
        Scalar::Ullong => b" ullong",
        Scalar::Hexint => b" hexint",
        Scalar::Bool => b" bool",
        Scalar::Bint => b" bint",
        Scalar::Invbool => b" invbool",
    }
}

/// The words of a kind, and what stands behind them.
fn kind_texts(kind: ParamKind) -> (&'static [u8], &'static [u8]) {
    match kind {
        ParamKind::Charp => (b" charp", b""),
        ParamKind::One(scalar) => (scalar_text(scalar), b""),
        ParamKind::Array(scalar) => (scalar_text(scalar), b" array"),
    }
}

fn behind_params<'a>(rest: Rest<'a>, params: &[Param]) -> Rest<'a> {
    let mut rest = rest;
    for param in params {
        let (kind, ending) = kind_texts(param.kind);
        rest = behind(rest, &[b", param ", param.name.as_bytes()]);
        rest = behind(rest, &[kind, ending]);
    }
    behind(rest, &[b"\n"])
}

/// What is left behind what is said of the module in a slot: its size, the slots of its needs, its softneeds, its
/// parameters.
fn behind_module<'a>(
    alloc: Global,
    rest: Rest<'a>,
    catalogue: &Catalogue,
    slot: usize,
) -> Result<Rest<'a>, AllocError> {
    if slot >= catalogue.len() {
        return Ok(None);
    }
    let (size, needs) = (catalogue.size(slot), catalogue.needs(slot));
    let numbers = format!(in alloc; ": size {size}, needs {needs:?}, softneeds")?;
    let rest = behind(rest, &[catalogue.name(slot), numbers.as_bytes()]);
    let rest = behind_names(rest, catalogue.softneeds(slot));
    let unknown = if catalogue.unknown_symbol(slot) {
        b", unknown symbol".as_slice()
    } else {
        b""
    };
    let permanent = if catalogue.permanent(slot) {
        b", permanent".as_slice()
    } else {
        b""
    };
    let rest = behind(rest, &[unknown, permanent]);
    Ok(behind_params(rest, catalogue.params(slot)))
}

/// Whether these are all modules of the catalogue, one a line, and it has as many slots.
fn are_modules(alloc: Global, catalogue: &Catalogue, wanted: &[u8]) -> Result<bool, AllocError> {
    let mut rest = Some(wanted);
    for slot in 0..catalogue.len() {
        rest = behind_module(alloc, rest, catalogue, slot)?;
    }
    let is_all = catalogue.slots(alloc)?.len() == catalogue.len();
    Ok(is_all && matches!(rest, Some([])))
}

/// Whether the text is read as these modules.
fn is_read(alloc: Global, text: &[u8], wanted: &[u8]) -> Result<bool, AllocError> {
    match read_catalogue(alloc, text) {
        Ok(catalogue) => are_modules(alloc, &catalogue, wanted),
        Err(CatError::Memory) => Err(AllocError),
        Err(_) => Ok(false),
    }
}

const SOFT: &[u8] =
    b"version 2\nmodule a\nsoftneeds d b\nmodule c\nneeds x y z\nmodule d\nexports x y\nmodule e\nexports z\n";

/// What a row shows, a text, and what is read of it.
static MODULES: [(&str, &[u8], &[u8]); 9] = [
    (
        "a module with a parameter needs another, whose names have `_` for each `-`",
        SOUND,
        b"snd: size 114688, needs [], softneeds\nsnd_pcm: size 143360, needs [0], softneeds, param debug bool\n",
    ),
    (
        "two modules need each other",
        CIRCLE,
        b"a: size 0, needs [1], softneeds\nb: size 0, needs [0], softneeds\n",
    ),
    (
        "each needed module stands once, in the order of the symbols, without the module itself; a module is permanent",
        b"module a\nexports x y\nneeds z w x z2 z\n\tneeds y \t z2\nmodule b\nexports z z2\nmodule c\nexports w\npermanent\npermanent",
        b"a: size 0, needs [1, 2], softneeds\nb: size 0, needs [], softneeds\nc: size 0, needs [], softneeds, permanent\n",
    ),
    (
        "nobody exports a symbol",
        b"module a\nneeds zz\n",
        b"a: size 0, needs [], softneeds, unknown symbol\n",
    ),
    (
        "softneeds keep their order, also of names that no module has; comments and empty lines stand before the version",
        b"# soft\n\nversion 2\nmodule a\nsoftneeds d b\nmodule c\nsoftneeds a\nmodule d\n",
        b"a: size 0, needs [], softneeds d b\nc: size 0, needs [], softneeds a\nd: size 0, needs [], softneeds\n",
    ),
    (
        "a module with softneeds is permanent",
        b"version 2\nmodule a\nsoftneeds d b\nmodule c\nsoftneeds a\npermanent\nmodule d\n",
        b"a: size 0, needs [], softneeds d b\nc: size 0, needs [], softneeds a, permanent\nd: size 0, needs [], softneeds\n",
    ),
    (
        "two needs of one module stand once",
        SOFT,
        b"a: size 0, needs [], softneeds d b\nc: size 0, needs [2, 3], softneeds\nd: size 0, needs [], softneeds\ne: size 0, needs [], softneeds\n",
    ),
    (
        "version 3 has softneeds, and all kinds of parameters",
        b"version 3\nmodule a\nsoftneeds b\nparam c charp\nparam b byte\nparam s short\nparam t ushort\nparam i int\nparam u uint\nparam l long\nparam m ulong\nparam n ullong\nparam h hexint\nparam f bool\nparam j bint\nparam g invbool\n",
        b"a: size 0, needs [], softneeds b, param c charp, param b byte, param s short, param t ushort, param i int, param u uint, param l long, param m ulong, param n ullong, param h hexint, param f bool, param j bint, param g invbool\n",
    ),
    (
        "version 3 has arrays of all kinds but texts",
        b"version 3\nmodule a\nparam b byte[]\nparam s short[]\nparam t ushort[]\nparam i int[]\nparam u uint[]\nparam l long[]\nparam m ulong[]\nparam n ullong[]\nparam h hexint[]\nparam f bool[]\nparam j bint[]\nparam g invbool[]\n",
        b"a: size 0, needs [], softneeds, param b byte array, param s short array, param t ushort array, param i int array, param u uint array, param l long array, param m ulong array, param n ullong array, param h hexint array, param f bool array, param j bint array, param g invbool array\n",
    ),
];

#[test]
fn modules(rt: HostRuntime) -> Result<(), AllocError> {
    let mut whole = Ok(());
    for (shows, text, wanted) in &MODULES {
        let fact = is_read(rt.alloc(), text, wanted);
        whole = whole.and(holds_or_short(&rt, shows, fact));
    }
    whole
}

/// A name, and the slot of the module that has it in normal form.
static SLOTS: [(&str, Option<usize>); 3] = [
    ("snd", Some(0)),
    ("snd_pcm", Some(1)),
    ("snd-pcm", None),
];

#[test]
fn slots_of_names(rt: HostRuntime) -> Result<(), CatError> {
    let catalogue = read_catalogue(rt.alloc(), SOUND)?;
    for (name, slot) in &SLOTS {
        holds(&rt, name, catalogue.slot(name.as_bytes()) == *slot);
    }
    Ok(())
}

/// Whether there are two modules, of which the second needs the first.
fn is_second_over_first(slots: &Slots) -> bool {
    slots.len() == 2 && slots.needs(0).is_empty() && slots.needs(1) == [0u16].as_slice()
}

/// Whether the slots of the catalogue and a copy of them are so.
fn have_slots(alloc: Global, catalogue: &Catalogue) -> Result<bool, AllocError> {
    let slots = catalogue.slots(alloc)?;
    Ok(is_second_over_first(&slots) && is_second_over_first(&slots.copy(alloc)?))
}

/// Whether slots that are added one by one are so.
fn are_added(alloc: Global) -> Result<bool, AllocError> {
    let mut slots = Slots::new(alloc);
    slots.push(Vec::new(alloc), false, true)?;
    slots.push(vec![in alloc; 0u16]?, false, false)?;
    Ok(is_second_over_first(&slots))
}

#[test]
fn slots_of_a_catalogue(rt: HostRuntime) -> Result<(), CatError> {
    let catalogue = read_catalogue(rt.alloc(), SOUND)?;
    assert!(rt; have_slots(rt.alloc(), &catalogue)? && are_added(rt.alloc())?);
    Ok(())
}

/// Behind this head, so many modules, each on a line of its own.
fn modules_behind(alloc: Global, head: &str, count: usize) -> Result<String, AllocError> {
    let mut text = String::from_str(alloc, head)?;
    for m in 0..count {
        writeln!(text, "module m{m}")?;
    }
    Ok(text)
}

/// How many modules are read.
fn count_in(alloc: Global, text: &str) -> Result<usize, CatError> {
    match read_catalogue(alloc, text.as_bytes()) {
        Ok(catalogue) => Ok(catalogue.len()),
        Err(error) => Err(error),
    }
}

/// The head of a text, how many modules stand behind it, and how many are read, or the line of the one too many.
static LIMITS: [(&str, usize, Result<usize, CatError>); 6] = [
    ("", 256, Ok(256)),
    ("", 257, Err(CatError::TooMany { line: 257 })),
    ("version 2\n", 1024, Ok(1024)),
    ("version 2\n", 1025, Err(CatError::TooMany { line: 1026 })),
    ("version 3\n", 65535, Ok(65535)),
    ("version 3\n", 65536, Err(CatError::TooMany { line: 65537 })),
];

#[test]
fn limits(rt: HostRuntime) -> Result<(), AllocError> {
    for (head, count, wanted) in &LIMITS {
        let text = modules_behind(rt.alloc(), head, *count)?;
        holds_at(&rt, *count, count_in(rt.alloc(), &text) == *wanted);
    }
    Ok(())
}

const DEPENDENCIES: &[u8] =
    b"kernel/a.ko: kernel/b.ko\n# none\nkernel/b.ko.xz: kernel/a.ko\n\t x-1.ko :\td/y.ko.zst d/y.ko /z\r\n";

/// A name, and the names that it depends on, one a line.
static DEPS: [(&str, &[u8]); 4] = [
    ("a", b"b\n"),
    ("b", b"a\n"),
    ("x_1", b"y\ny\nz\n"),
    ("x-1", b"no line\n"),
];

fn has_deps(index: &DepIndex, name: &[u8], wanted: &[u8]) -> bool {
    match index.deps(name) {
        Some(names) => matches!(behind_name_lines(Some(wanted), names), Some([])),
        None => wanted == b"no line\n".as_slice(),
    }
}

#[test]
fn dependencies(rt: HostRuntime) -> Result<(), DepError> {
    let index = read_dep(rt.alloc(), DEPENDENCIES)?;
    for (name, wanted) in &DEPS {
        holds(&rt, name, has_deps(&index, name.as_bytes(), wanted));
    }
    Ok(())
}

/// A catalogue that is cut anywhere has a meaning or a first fault, and never wants memory.
#[test]
fn prefixes_of_a_catalogue(rt: HostRuntime) {
    for end in 0..=SOUND.len() {
        let fault = read_catalogue(rt.alloc(), &SOUND[..end]).err();
        holds_at(&rt, end, fault != Some(CatError::Memory));
    }
}

/// A modules.dep text that is cut anywhere has a meaning or a first fault, and never wants memory.
#[test]
fn prefixes_of_dependencies(rt: HostRuntime) {
    for end in 0..=DEPENDENCIES.len() {
        let fault = read_dep(rt.alloc(), &DEPENDENCIES[..end]).err();
        holds_at(&rt, end, fault != Some(DepError::Memory));
    }
}
