//! What a crash left, or damage, in files in memory.

use line_journal::{Found, KillOnly, Recovered, Repair, look, recover};
use std::alloc::Global;
use std::test::Fail;

/// Whether one line of seven bytes stands before a torn one.
fn is_torn(found: &Found) -> bool {
    found.lines.len() == 1 && found.end == 7 && found.behind.as_slice() == b" put".as_slice()
}

/// Whether a file comes to rest, or else is refused.
fn is_at_rest(alloc: Global, file: &mut KillOnly, repair: Repair) -> Result<bool, Fail> {
    let recovered = recover(alloc, file, repair)?;
    Ok(matches!(recovered, Recovered::AtRest(_)))
}

/// Whether a torn line is found.
fn finds_a_torn_line(alloc: Global, file: &mut KillOnly) -> Result<bool, Fail> {
    let found = look(alloc, file)?;
    Ok(is_torn(&found))
}

/// Whether a torn line is cut off.
fn is_cut_off(alloc: Global, file: &mut KillOnly) -> Result<bool, Fail> {
    let is_torn = finds_a_torn_line(alloc, file)?;
    let is_at_rest = is_at_rest(alloc, file, Repair::CutAtMost(0))?;
    Ok(is_torn && is_at_rest && file.bytes() == b"+get 0\n ".as_slice())
}

// Behind the first line one gate is closed, and two are open.
const DAMAGED: &[u8] = b"+a\n b\n+c\n+d\n ";

/// Whether damage is refused, and left as it is, as long as it is not known of.
fn is_refused(alloc: Global, file: &mut KillOnly) -> Result<bool, Fail> {
    let is_refused = !is_at_rest(alloc, file, Repair::CutAtMost(1))?;
    let is_left = file.bytes() == DAMAGED;
    let is_at_rest = is_at_rest(alloc, file, Repair::CutAtMost(2))?;
    Ok(is_refused && is_left && is_at_rest && file.bytes() == b"+a\n ".as_slice())
}

#[test]
fn a_torn_line_is_cut_off(rt: HostRuntime) -> Result<(), Fail> {
    let bytes = b"+get 0\n put".to_vec(rt.alloc())?;
    let mut file = KillOnly::new(rt.alloc(), bytes);
    let is_right = is_cut_off(rt.alloc(), &mut file)?;
    assert!(rt; is_right);
    Ok(())
}

#[test]
fn damage_is_refused(rt: HostRuntime) -> Result<(), Fail> {
    let bytes = DAMAGED.to_vec(rt.alloc())?;
    let mut file = KillOnly::new(rt.alloc(), bytes);
    let is_right = is_refused(rt.alloc(), &mut file)?;
    assert!(rt; is_right);
    Ok(())
}
