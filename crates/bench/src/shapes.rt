//! The sessions whose growth is measured, written at any size. Each begins with a catalogue of version 3. Two letters
//! before the `|` of a line tell from which number up to which other it stands; with none it stands once. `@` in it is
//! its number. `[..]` is a part that stands for numbers likewise.

use crate::texts::push_numbered;
use std::alloc::AllocError;
use std::ops::Range;

type Written = Result<(), AllocError>;

/// Soft items s, each of which asks for a hard chain z, for the next item, and for the chain again. The end of the chain
/// needs the first item, and each of the chain needs the others.
const OVER_A_CHAIN: &str = "0S|module s@
0C|module z@
0O|module d@
|%dep
0B|k/z@.ko:[0O| k/d@.ko][NA| k/z@.ko]
BC|k/z@.ko:[0O| k/d@.ko] k/s0.ko
|%conf
0S|softdep s@ pre: z0[NA| s@] z0
";

const LOAD_AN_ITEM: &str = "|%session
|modprobe s0
";

/// An alias that leads to all items.
const LOAD_AN_ALIAS: &str = "|%alias
0S|alias x* s@
|%session
|modprobe xyz
";

/// Modules of which each needs all behind it; the size is the number of pairs.
const PAIRS: &str = "0P|module m@
|%dep
0P|k/m@.ko:[NP| k/m@.ko]
|%conf
";

/// Each asks for all behind it.
const DENSE: &str = "0P|softdep m@ pre:[NP| m@]
";

/// Each asks for all others: those behind it, and then those before it.
const RINGS: &str = "0P|softdep m@ pre:[NP| m@][0@| m@]
";

const LOAD_THE_FIRST: &str = "|%session
|modprobe m0
";

/// A chain of modules of which each asks for one of its own.
const CHAIN: &str = "0S|module m@
0S|module t@
|%dep
0S|k/m@.ko:[NA| k/m@.ko]
|%conf
0S|softdep m@ pre: t@
";

/// The same chain below soft items in a row, each of which needs it.
const BELOW_SOFT_ITEMS: &str = "0S|module m@
0S|module t@
0S|module s@
|%dep
0S|k/m@.ko:[NA| k/m@.ko]
0S|k/s@.ko: k/m0.ko
|%conf
0S|softdep m@ pre: t@
0S|softdep s@ pre:[NA| s@]
|%session
|modprobe s0
";

/// A chain below soft items, each of which needs a module of its own first, and that one asks for the next item.
const BELOW_LEAVES: &str = "0S|module m@
0S|module d@
0S|module s@
|module start
|%dep
0S|k/m@.ko:[NA| k/m@.ko]
0S|k/s@.ko: k/d@.ko k/m0.ko
|%conf
0S|softdep d@ pre:[NA| s@]
|softdep start pre: s0
|%session
|modprobe start
";

/// A module that asks for many, each of which asks for a chain that needs all of them.
const ITEMS_OF_A_CHAIN: &str = "0S|module x@
0S|module s@
|module start
|%dep
0L|k/x@.ko:[NA| k/x@.ko]
LS|k/x@.ko:[0R| k/s@.ko]
|%conf
0S|softdep s@ pre: x0
|softdep start pre:[0R| s@]
|%session
|modprobe start
";

/// A chain that is loaded, and removed.
const LOADED_CHAIN: &str = "0S|module m@
|%dep
0S|k/m@.ko:[NA| k/m@.ko]
|%session
|modprobe m0
|modprobe -r m0
";

/// Modules that are loaded one by one, and removed one by one.
const LOADED_ALONE: &str = "0S|module m@
|%session
0S|insmod m@
0S|rmmod m@
";

/// One module with many parameters.
const PARAMETERS: &str = "|module m
0S|param p@ int
|%session
|modprobe m p0=1
";

/// Aliases whose longest runs of bytes are the same, and a hundred names that have it. A match of each stops where the
/// numbers begin.
const ALIASES: &str = "|module m0
|%alias
0S|alias device:@*same-longest-run m0
|%session
0O|plan device:x@same-longest-run
";

/// A session: its name, its whole size, how many others it has, and its lines.
pub type Session = (&'static str, usize, usize, &'static [&'static str]);

pub static SESSIONS: [Session; 13] = [
    ("long_plan", 2000, 300, &[OVER_A_CHAIN, LOAD_AN_ITEM]),
    ("longer_plan", 32_000, 12, &[OVER_A_CHAIN, LOAD_AN_ITEM]),
    ("dense_plan", 1_000_000, 0, &[PAIRS, DENSE, LOAD_THE_FIRST]),
    ("rings_plan", 1_000_000, 0, &[PAIRS, RINGS, LOAD_THE_FIRST]),
    ("chain_plan", 20_000, 0, &[CHAIN, LOAD_THE_FIRST]),
    ("chain_below_soft_items", 20_000, 0, &[BELOW_SOFT_ITEMS]),
    ("chain_below_leaves", 20_000, 0, &[BELOW_LEAVES]),
    ("soft_items_of_a_chain", 20_000, 0, &[ITEMS_OF_A_CHAIN]),
    ("load_and_remove_a_chain", 65_535, 0, &[LOADED_CHAIN]),
    ("load_and_remove_each", 65_535, 0, &[LOADED_ALONE]),
    ("parameters_of_a_module", 65_535, 0, &[PARAMETERS]),
    ("aliases_of_a_mark", 100_000, 100, &[ALIASES]),
    ("names_of_an_alias", 4022, 3, &[OVER_A_CHAIN, LOAD_AN_ALIAS]),
];

/// What letters are reckoned from.
#[derive(Clone, Copy)]
pub struct Sizes {
    pub size: usize,
    pub others: usize,
}

impl Sizes {
    /// The number of a letter in the line of a number: `S` is the size, `L` one before it, `C` three quarters of it, `B` one
    /// before these, `R` its root, `P` that of its double, `O` how many others there are, `N` the next number, and `A` the
    /// one behind that, as far as the size goes.
    fn number(self, letter: u8, own: usize) -> usize {
        let Sizes { size, others } = self;
        let chain = (size / 4).saturating_mul(3);
        match letter {
            b'S' => size,
            b'L' => size.saturating_sub(1),
            b'C' => chain,
            b'B' => chain.saturating_sub(1),
            b'R' => size.isqrt(),
            b'P' => size.saturating_mul(2).isqrt(),
            b'O' => others,
            b'@' => own,
            b'N' => own.saturating_add(1),
            b'A' => own.saturating_add(2).min(size),
            _ => 0,
        }
    }

    /// For which numbers a text stands, by the letters before its `|`, and the text behind it.
    fn spread(self, text: &str, own: usize) -> (Range<usize>, &str) {
        let (letters, text) = text.split_once('|').unwrap_or(("", text));
        match letters.as_bytes() {
            [from, to] => (self.number(*from, own)..self.number(*to, own), text),
            _ => (0..1, text),
        }
    }
}

/// Adds the lines of a session.
pub fn push_session(text: &mut String, texts: &[&str], sizes: Sizes) -> Written {
    text.push_str("%catalogue\nversion 3\n")?;
    for lines in texts {
        for line in lines.lines() {
            push_lines(text, line, sizes)?;
        }
    }
    Ok(())
}

/// Adds what a line stands for.
fn push_lines(text: &mut String, line: &str, sizes: Sizes) -> Written {
    let (numbers, line) = sizes.spread(line, 0);
    for number in numbers {
        push_line(text, line, sizes, number)?;
    }
    Ok(())
}

fn push_line(text: &mut String, line: &str, sizes: Sizes, number: usize) -> Written {
    for part in line.split('[') {
        push_part(text, part, sizes, number)?;
    }
    text.push('\n')
}

/// Adds what stands in a part up to its `]` for each of its numbers, and then what stands behind it.
fn push_part(text: &mut String, part: &str, sizes: Sizes, number: usize) -> Written {
    let (further, behind) = part.split_once(']').unwrap_or(("", part));
    let (numbers, further) = sizes.spread(further, number);
    for other in numbers {
        push_numbered(text, further, other)?;
    }
    push_numbered(text, behind, number)
}
