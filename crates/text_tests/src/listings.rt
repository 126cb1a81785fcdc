//! Lines of /proc/modules, the listings of a table, and what is reported of a module, byte for byte.
ghost use Rattle.std.specs.Prelude.{◌≡◌, ◌<◌, length, IfOk};
ghost use Rattle.dep_index.specs.Catalogue.{modules_of};

use crate::texts::{SOUND, holds, holds_or_short};
use dep_index::{Call, CatError, Catalogue, read_catalogue};
use proc_modules::{
    Line, LineError, LineState, lsmod_text, modinfo_text, proc_text, read_line, write_line,
};
use seq_table::{Modules, Table};
use std::alloc::{AllocError, Global};

fn is_text(made: Result<Vec<u8>, AllocError>, wanted: &[u8]) -> Result<bool, AllocError> {
    Ok(made?.as_slice() == wanted)
}

/// Whether the line that a text begins with took so many bytes, and what is written of it is this.
fn is_written(
    alloc: Global,
    text: &[u8],
    length: usize,
    wanted: &[u8],
) -> Result<bool, AllocError> {
    match read_line(alloc, text) {
        Ok((line, used)) if used == length => is_text(write_line(alloc, &line), wanted),
        Err(LineError::Memory) => Err(AllocError),
        _ => Ok(false),
    }
}

/// Texts, how many bytes the line took, and what is written of it.
static LINES: [(&str, usize, &str); 9] = [
    (
        "snd 114688 1 snd_pcm, Live 0x0000000000000000\n",
        46,
        "snd 114688 1 snd_pcm, Live 0x0000000000000000\n",
    ),
    (
        "snd 114688 1 snd_pcm, Live 0x0000000000000000",
        45,
        "snd 114688 1 snd_pcm, Live 0x0000000000000000\n",
    ),
    (
        "snd 114688 1 snd_pcm, Live 0x0000000000000000 (OE)",
        50,
        "snd 114688 1 snd_pcm, Live 0x0000000000000000\n",
    ),
    (
        "a 0 0 - Live 0x0\nb",
        17,
        "a 0 0 - Live 0x0000000000000000\n",
    ),
    ("a 0 0 - Live 0x0", 16, "a 0 0 - Live 0x0000000000000000\n"),
    (
        "snd_timer 49152 2 snd_seq,snd_pcm, Live 0xffffffffc0a4f000\n",
        59,
        "snd_timer 49152 2 snd_seq,snd_pcm, Live 0x0000000000000000\n",
    ),
    (
        "vfat 24576 1 - Live 0x0000000000000000 (E)\n",
        43,
        "vfat 24576 1 - Live 0x0000000000000000\n",
    ),
    (
        "p 1 2 a,[permanent], Unloading 0xAbCdEf0123456789",
        49,
        "p 1 2 a,[permanent], Unloading 0x0000000000000000\n",
    ),
    (
        "p 4294967295 0 [permanent], Loading 0x1",
        39,
        "p 4294967295 0 [permanent], Loading 0x0000000000000000\n",
    ),
];

/// Texts that begin with no line, and why.
static NO_LINES: [(&str, LineError); 21] = [
    ("", LineError::MissingField),
    ("snd", LineError::MissingField),
    ("snd 114688", LineError::MissingField),
    ("snd 114688 1", LineError::MissingField),
    ("snd 114688 1 snd_pcm,", LineError::MissingField),
    ("snd 114688 1 snd_pcm, Live", LineError::MissingField),
    ("snd-pcm 1 0 - Live 0x0", LineError::BadName),
    (" 1 0 - Live 0x0", LineError::BadName),
    ("snd  1 0 - Live 0x0", LineError::BadNumber),
    ("snd 01 0 - Live 0x0", LineError::BadNumber),
    ("snd 4294967296 0 - Live 0x0", LineError::BadNumber),
    ("snd 1 - - Live 0x0", LineError::BadNumber),
    ("snd 1 1 snd_pcm Live 0x0", LineError::BadUsers),
    ("snd 1 1 , Live 0x0", LineError::BadUsers),
    ("snd 1 1 [permanent],a, Live 0x0", LineError::BadUsers),
    ("snd 1 0 - live 0x0", LineError::BadState),
    ("snd 1 0 - Live 0x", LineError::BadAddress),
    ("snd 1 0 - Live 0x00000000000000000", LineError::BadAddress),
    ("snd 1 0 - Live 0x0 ", LineError::BadAddress),
    ("snd 1 0 - Live 0x0 (E) b", LineError::BadAddress),
    ("snd 1 0 - Live 0x0\r\n", LineError::BadAddress),
];

#[test]
fn reads_lines(rt: HostRuntime) -> Result<(), AllocError> {
    let mut whole = Ok(());
    for (text, length, wanted) in &LINES {
        let fact = is_written(rt.alloc(), text.as_bytes(), *length, wanted.as_bytes());
        whole = whole.and(holds_or_short(&rt, text, fact));
    }
    whole
}

#[test]
fn refuses_lines(rt: HostRuntime) {
    for (text, fault) in &NO_LINES {
        let found = read_line(rt.alloc(), text.as_bytes()).err();
        holds(&rt, text, found == Some(*fault));
    }
}

/// The line is that of `snd`, which is Loading and permanent, with a size of 7, a count of 2 and two users.
fn is_of_snd(line: &Line) -> bool {
    line.name.as_bytes() == b"snd".as_slice()
        && (line.size, line.count) == (7, 2)
        && line.users.as_slice().len() == 2
        && line.permanent
        && line.state == LineState::Loading
}

fn tells_snd(read: Result<(Line, usize), LineError>) -> bool {
    match read {
        Ok((line, used)) => used == 41 && is_of_snd(&line),
        Err(_) => false,
    }
}

#[test]
fn tells_the_parts_of_a_line(rt: HostRuntime) {
    let text = b"snd 7 2 a,b,[permanent], Loading 0x0 (E)\n";
    assert!(rt; tells_snd(read_line(rt.alloc(), text)));
}

/// Makes a call that changes states, if it is one.
fn make_change(table: &mut Table, slot: usize, call: Call)
    requires { slot < length table.old.catalogue }
    ensures { table.new.catalogue ≡ table.old.catalogue }
{
    if let Call::BeginLoad(_) = call {
        let _ = table.begin_load(slot);
    } else if let Call::EndLoad(_, ok) = call {
        let _ = table.end_load(slot, ok);
    } else if let Call::BeginDrain(_) = call {
        let _ = table.begin_drain(slot);
    } else if let Call::BeginRemove(_) = call {
        let _ = table.begin_remove(slot);
    }
}

/// Makes the call, if it is in range.
fn make(table: &mut Table, call: Call)
    ensures { table.new.catalogue ≡ table.old.catalogue }
{
    if call.slot() >= table.slots() {
        return;
    }
    if let Call::Get(worker, slot) = call {
        if worker < table.workers() {
            let _ = table.get(worker, slot);
        }
    } else {
        make_change(table, call.slot(), call);
    }
}

fn table_after(alloc: Global, catalogue: &Catalogue, calls: &[Call]) -> Result<Table, AllocError>
    ensures { IfOk result (λ t. t.catalogue ≡ modules_of catalogue.now) }
{
    let mut table = Table::new(alloc, catalogue, 2)?;
    for call in calls {
        make(&mut table, *call);
    }
    Ok(table)
}

/// Modules with all that a catalogue says.
const CARDS: &[u8] = b"module snd
size 114688
exports snd_card_new
module snd-pcm
size 143360
exports snd_pcm_new
needs snd_card_new
param debug bool
module p
permanent
module a_module_with_a_long_name
size 4294967295
exports long
module user
needs long
";

/// A module with two users, of which one names it twice.
const USERS: &[u8] =
    b"module base\npermanent\nexports b\nmodule first\nneeds b\nmodule second\nneeds b b\n";

const SND: usize = 0;

const PCM: usize = 1;

const FIXED: usize = 2;

const LONG: usize = 3;

const USER: usize = 4;

/// What a row shows, a catalogue, calls on its table, and both listings then.
struct Row {
    shows: &'static str,
    catalogue: &'static [u8],
    calls: &'static [Call],
    proc_modules: &'static [u8],
    lsmod: &'static [u8],
}

static LISTINGS: [Row; 4] = [
    Row {
        shows: "a table in all states",
        catalogue: CARDS,
        calls: &[
            Call::BeginLoad(SND),
            Call::EndLoad(SND, true),
            Call::BeginLoad(LONG),
            Call::EndLoad(LONG, true),
            Call::BeginLoad(FIXED),
            Call::EndLoad(FIXED, true),
            Call::Get(0, FIXED),
            Call::Get(1, FIXED),
            Call::BeginLoad(PCM),
            Call::EndLoad(PCM, true),
            Call::Get(0, PCM),
            Call::BeginDrain(PCM),
            Call::BeginLoad(USER),
        ],
        proc_modules: b"user 0 0 - Loading 0x0000000000000000
snd_pcm 143360 1 - Unloading 0x0000000000000000
p 0 2 [permanent], Live 0x0000000000000000
a_module_with_a_long_name 4294967295 1 user, Live 0x0000000000000000
snd 114688 1 snd_pcm, Live 0x0000000000000000
",
        lsmod: b"Module                  Size  Used by
user                       0  0
snd_pcm               143360  1
p                          0  2
a_module_with_a_long_name 4294967295  1 user
snd                   114688  1 snd_pcm
",
    },
    Row {
        shows: "two modules that are live",
        catalogue: SOUND,
        calls: &[
            Call::BeginLoad(SND),
            Call::EndLoad(SND, true),
            Call::BeginLoad(PCM),
            Call::EndLoad(PCM, true),
        ],
        proc_modules: b"snd_pcm 143360 0 - Live 0x0000000000000000
snd 114688 1 snd_pcm, Live 0x0000000000000000
",
        lsmod: b"Module                  Size  Used by
snd_pcm               143360  0
snd                   114688  1 snd_pcm
",
    },
    Row {
        shows: "an empty table",
        catalogue: USERS,
        calls: &[],
        proc_modules: b"",
        lsmod: b"Module                  Size  Used by\n",
    },
    Row {
        shows: "users, the newest first",
        catalogue: USERS,
        calls: &[
            Call::BeginLoad(0),
            Call::EndLoad(0, true),
            Call::BeginLoad(1),
            Call::EndLoad(1, true),
            Call::BeginRemove(1),
            Call::BeginLoad(2),
            Call::EndLoad(2, true),
            Call::Get(1, 0),
        ],
        proc_modules: b"second 0 0 - Live 0x0000000000000000
first 0 0 - Unloading 0x0000000000000000
base 0 3 second,first,[permanent], Live 0x0000000000000000
",
        lsmod: b"Module                  Size  Used by
second                     0  0
first                      0  0
base                       0  3 second,first
",
    },
];

/// Whether these are both listings of a table.
fn are_listings(
    alloc: Global,
    catalogue: &Catalogue,
    table: &Table,
    row: &Row,
) -> Result<bool, AllocError>
    requires { table.now.catalogue ≡ modules_of catalogue.now }
{
    let is_proc = is_text(proc_text(alloc, catalogue, table), row.proc_modules)?;
    Ok(is_proc && is_text(lsmod_text(alloc, catalogue, table), row.lsmod)?)
}

/// Whether these are both listings of the catalogue's table after the calls.
fn lists_after_calls(alloc: Global, catalogue: &Catalogue, row: &Row) -> Result<bool, AllocError> {
    let table = table_after(alloc, catalogue, row.calls)?;
    are_listings(alloc, catalogue, &table, row)
}

/// The same, if the row's catalogue is read.
fn is_listed(alloc: Global, row: &Row) -> Result<bool, AllocError> {
    match read_catalogue(alloc, row.catalogue) {
        Ok(catalogue) => lists_after_calls(alloc, &catalogue, row),
        Err(CatError::Memory) => Err(AllocError),
        Err(_) => Ok(false),
    }
}

#[test]
fn lists_tables(rt: HostRuntime) -> Result<(), AllocError> {
    let mut whole = Ok(());
    for row in &LISTINGS {
        whole = whole.and(holds_or_short(&rt, row.shows, is_listed(rt.alloc(), row)));
    }
    whole
}

/// Whether this is reported of the module of the name.
fn tells(
    alloc: Global,
    catalogue: &Catalogue,
    name: &[u8],
    wanted: &[u8],
) -> Result<bool, AllocError> {
    match catalogue.slot(name) {
        Some(slot) if slot < catalogue.len() => {
            is_text(modinfo_text(alloc, catalogue, slot), wanted)
        }
        _ => Ok(false),
    }
}

/// The same, if the catalogue is read.
fn is_told(alloc: Global, text: &[u8], name: &[u8], wanted: &[u8]) -> Result<bool, AllocError> {
    match read_catalogue(alloc, text) {
        Ok(catalogue) => tells(alloc, &catalogue, name, wanted),
        Err(CatError::Memory) => Err(AllocError),
        Err(_) => Ok(false),
    }
}

/// A catalogue, a name, and what is reported of the module of the name.
static MODULES: [(&[u8], &str, &[u8]); 2] = [
    (
        CARDS,
        "snd_pcm",
        b"name:           snd_pcm
size:           143360
depends:        snd
parm:           debug:bool
",
    ),
    (
        b"module q",
        "q",
        b"name:           q
size:           0
depends:        
",
    ),
];

#[test]
fn tells_of_modules(rt: HostRuntime) -> Result<(), AllocError> {
    let mut whole = Ok(());
    for (catalogue, name, wanted) in &MODULES {
        let fact = is_told(rt.alloc(), catalogue, name.as_bytes(), wanted);
        whole = whole.and(holds_or_short(&rt, name, fact));
    }
    whole
}
