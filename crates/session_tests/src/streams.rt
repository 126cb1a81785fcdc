//! Programs over streams that fail, and a session with a line that is too long.
ghost use Rattle.std.specs.Prelude.{◌≡◌, false};

use crate::devices::{Broken, Narrow, Unflushed};
use modprobe_words::{Ending, Written, end_early, write_whole};
use modsh_drive::FromWrite;
use std::io::{Read, Write};
use std::rt::Files;
use std::sync::Wait;
use std::test::Fail;
use std::thread::Threads;

const SESSION: &[u8] = b"%catalogue\nmodule a\n%session\ninsmod a\nque";

/// Whether the program of sessions on these streams ends with status 3, and says this.
fn session_fails<R: AllocGlobal + Files, I: Read + Drop, O: Write>(
    rt: &R,
    reader: I,
    writer: &mut FromWrite<O>,
    wanted: &str,
) -> bool
    requires { writer.old.failed ≡ false }
{
    let mut errors = Vec::new(rt.alloc());
    let status = modsh_drive::drive(rt, &[], reader, writer, &mut errors);
    status == 3 && errors.as_slice() == wanted.as_bytes()
}

#[test]
fn a_session_whose_reader_fails(rt: HostRuntime) {
    let mut output = FromWrite::new(Narrow::new(256, false));
    assert!(rt;
        session_fails(
            &rt,
            SESSION.chain(Broken),
            &mut output,
            "modsh: read fault\n"
        )
    );
    assert!(rt; output.writer.text() == b"ok\n".as_slice());
}

#[test]
fn a_session_whose_writer_fails(rt: HostRuntime) {
    let mut output = FromWrite::new(Narrow::new(0, true));
    assert!(rt; session_fails(&rt, SESSION, &mut output, "modsh: write fault\n"));
}

#[test]
fn a_line_that_is_too_long(rt: HostRuntime) -> Result<(), Fail> {
    let input = Vec::from_elem(rt.alloc(), b'a', 65_536)?;
    let mut output = FromWrite::new(Narrow::new(256, false));
    assert!(rt; session_fails(&rt, input.as_slice(), &mut output, "modsh: long line\n"));
    Ok(())
}

/// Whether the program of schedules on these streams ends with status 3, and says this.
fn schedule_fails<R: AllocGlobal + Files + Threads + Wait + Sync, I: Read, O: Write>(
    rt: &R,
    reader: &mut I,
    writer: &mut O,
    wanted: &str,
) -> bool {
    let mut errors = Vec::new(rt.alloc());
    let status = workload_drive::drive(rt, &[], reader, writer, &mut errors);
    status == 3 && errors.as_slice() == wanted.as_bytes()
}

#[test]
fn a_schedule_whose_reader_fails(rt: HostRuntime) {
    let mut output = Narrow::new(256, false);
    assert!(rt; schedule_fails(&rt, &mut Broken, &mut output, "workload: read fault\n"));
    assert!(rt; output.text().is_empty());
}

#[test]
fn a_schedule_whose_writer_fails(rt: HostRuntime) {
    let mut input: &[u8] = b"%catalogue\nmodule a\n%schedule\nworkers 1\nthreads 1\nt0 query a\n";
    let mut output = Narrow::new(0, true);
    assert!(rt; schedule_fails(&rt, &mut input, &mut output, "workload: write fault\n"));
}

#[test]
fn an_output_that_is_not_flushed(rt: HostRuntime) {
    assert!(rt; matches!(write_whole(&mut Unflushed, b"kmod"), Written::Failed));
    let mut errors = Vec::new(rt.alloc());
    assert!(rt; end_early(Ending::Help, &mut Unflushed, &mut errors) == 1);
}
