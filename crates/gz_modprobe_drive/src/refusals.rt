//! What people are told if a command line asks no query.

use modprobe_words::{Wish, tell_line, write_parts};
use std::io::Write;

/// Tells that nothing is loaded or removed, and how to see what would be done. No word of the command line is shown: a
/// name may hold what a shell would do.
fn tell_hint<E: Write>(what: &[u8], words: &[u8], verb: &[u8], errors: &mut E) {
    write_parts(
        errors,
        b"gz-modprobe: ERROR: nothing is ",
        what,
        b" here: the same words with -n -v show what would be done, and 'gz-modprobe ",
    );
    write_parts(
        errors,
        words,
        b"NAME",
        b" | sh' does it if each line begins with ",
    );
    let end = b", and holds nothing that a shell takes for its own\n";
    write_parts(errors, verb, end, b"");
}

/// Tells why a wish is no query, at any verbosity.
pub(crate) fn tell_refusal<E: Write>(wish: Wish, errors: &mut E) {
    match wish {
        Wish::NoName => tell_line(errors, b"ERROR: ", b"missing parameters.", b" See -h."),
        Wish::ShowModule => {
            tell_line(
                errors,
                b"ERROR: ",
                b"files of modules are not read:",
                b" see modinfo(8) and nm(1)",
            );
        }
        Wish::RemoveHolders => {
            let text = b"--remove-holders, --remove-dependencies";
            tell_line(errors, b"ERROR: ", text, b" are not answered: see lsmod(8)");
        }
        Wish::Load => tell_hint(b"loaded", b"-n -v ", b"insmod", errors),
        Wish::Removal => tell_hint(b"removed", b"-r -n -v ", b"rmmod", errors),
        _ => {}
    }
}
