//! Who uses a module that is not removed.
ghost use Rattle.std.specs.Prelude.{◌≡◌, ◌≢◌, ◌==◌, ◌++◌, ◌∷◌, [], ℕ, List, codes, filter, option_map, unwrap_or, IfOk, IfSome, MatchOption, OnOk};
ghost use Rattle.std.specs.List.{slice_split};
ghost use Rattle.text_parts.specs.Text.{texts_of};
ghost use Rattle.table_folder.specs.Uses.{holders_in, is_comma, is_user, users_in, users_of};

use program_frame::{Shown, first_word};
use std::alloc::{AllocError, Global};
use std::fmt;
use text_parts::{is_same, whole_lines, words};

/// How many names are told.
const MOST_TOLD: usize = 3;

/// What stands behind these bytes, if the text begins with them.
fn behind<'a>(front: &[u8], text: &'a [u8]) -> Option<&'a [u8]>
    ensures { MatchOption result ((rest : List ℕ) → text.entry.now ≢ front.now ++ rest)
        (λ rest. text.entry.now ≡ front.now ++ rest.now) }
{
    text.strip_prefix(front)
}

/// What stands before these bytes, if the text ends with them.
fn before<'a>(end: &[u8], text: &'a [u8]) -> Option<&'a [u8]>
    ensures { MatchOption result ((rest : List ℕ) → text.entry.now ≢ rest ++ end.now)
        (λ rest. text.entry.now ≡ rest.now ++ end.now) }
{
    text.strip_suffix(end)
}

/// The module that a reply names as in use. None, if the reply is another one.
pub fn module_in_use(reply: &[u8]) -> Option<&[u8]>
    ensures { IfSome result (λ named. reply.now ≡ codes "error EWOULDBLOCK " ++ named.now ++ 10 ∷ []) }
{
    before(b"\n", behind(b"error EWOULDBLOCK ", reply)?)
}

/// Whether a part of a line of /proc/modules names a module.
fn is_user(part: &[u8]) -> bool
    ensures { result ≡ is_user part.now }
{
    !part.is_empty() && !(is_same(part, b"-") || is_same(part, b"[permanent]"))
}

/// The parts of a text, which the byte divides.
fn parts<'a>(alloc: Global, text: &'a [u8], divider: u8) -> Result<Vec<&'a [u8]>, AllocError>
    ensures { IfOk result (λ found. texts_of found.items ≡ slice_split (λ byte. byte == divider) text.now) }
{
    text.split(|byte| *byte == divider).collect(alloc)
}

/// Adds the modules that these parts name.
fn push_users<'a>(found: &mut Vec<&'a [u8]>, parts: &[&'a [u8]]) -> Result<(), AllocError>
    ensures { OnOk result (texts_of found.new.items ≡ texts_of found.old.items ++ filter is_user (texts_of parts.now)) }
{
    for part in parts {
        if is_user(*part) {
            found.push(*part)?;
        }
    }
    Ok(())
}

/// The word of a line of /proc/modules that names those that use this module. None, if the line is of another one.
#[tactic(auto, using(crate::proofs::UseLemmas::few_words))]
fn used_by<'a>(words: &[&'a [u8]], name: &[u8]) -> Option<&'a [u8]>
    ensures { unwrap_or (option_map (λ users. filter is_user (slice_split is_comma users.now)) result) [] ≡ users_of name.now (texts_of words.entry.now) }
{
    let [own, _, _, users, ..] = words else {
        return None;
    };
    if is_same(*own, name) {
        Some(*users)
    } else {
        None
    }
}

/// The modules that use a module, by lines of /proc/modules. It fails only if memory runs out.
pub fn users_in<'a>(alloc: Global, text: &'a [u8], name: &[u8]) -> Result<Vec<&'a [u8]>, AllocError>
    ensures { IfOk result (λ found. texts_of found.items ≡ users_in name.now text.now) }
{
    let mut found = Vec::new(alloc);
    let mut lines = whole_lines(text);
    'lines: while let Some(line) = lines.next() {
        if let Some(users) = used_by(&words(alloc, line)?, name) {
            push_users(&mut found, &parts(alloc, users, b',')?)?;
        }
    }
    Ok(found)
}

/// The holders in a reply to `holders`. It fails only if memory runs out.
pub fn holders_in<'a>(alloc: Global, text: &'a [u8]) -> Result<Vec<&'a [u8]>, AllocError>
    ensures { IfOk result (λ found. texts_of found.items ≡ holders_in text.now) }
{
    let mut found = Vec::new(alloc);
    let mut lines = whole_lines(text);
    'lines: while let Some(line) = lines.next() {
        found.push(first_word(line))?;
    }
    Ok(found)
}

/// The first of some names, and how many more there are.
#[derive(Clone, Copy, Drop)]
pub(crate) struct Names<'n, 'a>(pub(crate) &'n [&'a [u8]]);

impl fmt::Display for Names<'_, '_> {
    fn fmt<W: fmt::Write>(&self, f: &mut fmt::Formatter<W>) -> fmt::Result {
        let names = self.0;
        let told = names.get(..MOST_TOLD).unwrap_or(names);
        for (at, name) in told.iter().enumerate() {
            if at > 0 {
                f.write_str(", ")?;
            }
            fmt::Display::fmt(&Shown(*name), f)?;
        }
        if told.len() < names.len() {
            write!(f, " and {} more", names.len() - told.len())?;
        }
        Ok(())
    }
}
