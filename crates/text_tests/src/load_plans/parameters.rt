//! Values of parameters.

use crate::texts::holds;
use dep_index::read_catalogue;
use load_plan::params_valid;
use std::alloc::Global;
use std::process::Abort;

/// Modules of which the second has a truth value and a number.
const LEVELS: &[u8] =
    b"module x\nmodule y\nparam debug bool\nparam level int\nmodule z\nmodule w\n";

/// A module with a text and a truth value, of which one is named with a dash.
const DASHES: &[u8] = b"module q\nparam card-id charp\nparam fast_io bool\n";

/// Whether the module in the slot takes the words. There is none if the catalogue is refused or has no such slot.
fn takes(alloc: Global, catalogue: &[u8], slot: usize, words: &[&[u8]]) -> Option<bool> {
    match read_catalogue(alloc, catalogue) {
        Ok(catalogue) if slot < catalogue.len() => Some(params_valid(&catalogue, slot, words)),
        _ => None,
    }
}

/// Words that the second module takes, one a line.
const LEVEL_WORDS: &str = "debug
debug=Y
debug=0
other=9
other
level=-0x80000000
level=2147483647
level=-0
level=0X7fffFFFF
level=0000000000017
level=0x00000000001
le-vel=x
";

/// Words that it refuses.
const NO_LEVEL_WORDS: &str = r#"debug=maybe
debug=
debug=yes
level
level=
level=-
level=2147483648
level=-2147483649
level=+1
level=0x
level=1a
level=--1
level=99999999999999999999999999
level=1=2
level="3"
debug="y"
"#;

/// Words that a module takes whose parameters have `_` for `-`.
const DASH_WORDS: &str = "card_id=
card-id=a=b
fast-io
fast-io=n
";

/// Words that it refuses.
const NO_DASH_WORDS: &str = "card-id
card_id
fast_io=on
fast-io=on
";

/// Two modules: one has a parameter of each kind of version 3, by the kind's name, and the other has their arrays.
const KINDS: &[u8] =
    b"version 3\nmodule one\nparam byte byte\nparam short short\nparam ushort ushort\nparam int int\nparam uint uint\nparam long long\nparam ulong ulong\nparam ullong ullong\nparam hexint hexint\nparam bool bool\nparam bint bint\nparam invbool invbool\nmodule many\nparam byte byte[]\nparam short short[]\nparam ulong ulong[]\nparam bool bool[]\n";

/// Words that the first module takes.
const KIND_WORDS: &str = r#"byte=0
byte=255
byte=0xfF
byte=000255
short=32767
short=-32768
short=-0x8000
ushort=65535
int=2147483647
int=-2147483648
uint=4294967295
uint=0XFFFFFFFF
long=9223372036854775807
long=-9223372036854775808
ulong=18446744073709551615
ulong=0xffffffffffffffff
hexint=0xffffffff
hexint=17
invbool=N
bool
ullong=18446744073709551615
ullong=0xFFFFFFFFFFFFFFFF
bint
bint=N
int="3"
int="3
invbool="N"
"#;

/// Words that it refuses.
const NO_KIND_WORDS: &str = r#"byte=256
byte=0x100
byte=-0
byte
short=32768
short=-32769
ushort=65536
ushort=-1
int=2147483648
int=-2147483649
uint=4294967296
uint=-1
uint=+1
long=9223372036854775808
long=-9223372036854775809
ulong=18446744073709551616
ulong=0x10000000000000000
ulong=340282366920938463463374607431768211456
ulong=0x
ulong=
ulong
hexint=ff
hexint=0x100000000
invbool
invbool=2
invbool=
ullong=18446744073709551616
ullong=-1
ullong
bint=2
bint=
byte=1,2
int=3"
int=""
int="
int=""3""
int="1 2"
bool=""
"#;

/// Words that the module of the arrays takes.
const ARRAY_WORDS: &str = r#"byte=7
byte=0,255,0x10
byte="1,2"
short=-1,1
ulong=18446744073709551615,0
bool=y,N,0
other
"#;

/// Words that it refuses.
const NO_ARRAY_WORDS: &str = r#"byte=0,256,1
byte=
byte
byte=,
byte=1,
byte=,1
byte=1,,2
byte=1, 2
byte="1","2"
bool
bool=y,
"#;

/// A catalogue, a slot, words, and whether the module in the slot takes each of them or none.
static WORDS: [(&[u8], usize, &str, bool); 8] = [
    (LEVELS, 1, LEVEL_WORDS, true),
    (LEVELS, 1, NO_LEVEL_WORDS, false),
    (DASHES, 0, DASH_WORDS, true),
    (DASHES, 0, NO_DASH_WORDS, false),
    (KINDS, 0, KIND_WORDS, true),
    (KINDS, 0, NO_KIND_WORDS, false),
    (KINDS, 1, ARRAY_WORDS, true),
    (KINDS, 1, NO_ARRAY_WORDS, false),
];

/// The module in the slot takes each of the words, alone and behind another one, or takes none of them.
fn are_taken(
    rt: &impl Abort,
    alloc: Global,
    catalogue: &[u8],
    slot: usize,
    words: &str,
    valid: bool,
) {
    for word in words.lines() {
        let alone = takes(alloc, catalogue, slot, &[word.as_bytes()]);
        let behind = takes(alloc, catalogue, slot, &[b"first", word.as_bytes()]);
        holds(rt, word, alone == Some(valid) && behind == Some(valid));
    }
}

#[test]
fn words_of_modules(rt: HostRuntime) {
    for (catalogue, slot, words, valid) in &WORDS {
        are_taken(&rt, rt.alloc(), catalogue, *slot, words, *valid);
    }
}

/// What a row shows, a slot, words, and whether the module in the slot takes them, if there is one.
static LISTS: [(&str, usize, &[&[u8]], Option<bool>); 6] = [
    ("no words", 1, &[], Some(true)),
    ("two good words", 1, &[b"debug", b"other=9"], Some(true)),
    (
        "a bad word before a good one",
        1,
        &[b"debug=maybe", b"other=9"],
        Some(false),
    ),
    (
        "another module has no such parameter",
        0,
        &[b"debug=maybe"],
        Some(true),
    ),
    ("there is a fourth module", 3, &[], Some(true)),
    ("there is no fifth", 4, &[], None),
];

#[test]
fn every_word_is_checked(rt: HostRuntime) {
    for (shows, slot, words, valid) in &LISTS {
        let found = takes(rt.alloc(), LEVELS, *slot, words);
        holds(&rt, shows, found == *valid);
    }
}
