//! Where a program reads its input.
ghost use Rattle.std.specs.Prelude.{◌≡◌, IsNone, IsSome, IfOk, IfErr, IfSome};
ghost use Rattle.std.specs.Option.{option_map};
ghost use Rattle.program_frame.specs.Ends.{input_status};
ghost use Rattle.program_frame.specs.Sources.{path_of, path_named, IsFaultOf};

use crate::path::{PathFault, read_path};
use crate::status::Status;
use crate::streams::{StreamFault, read_input};
use std::io::Read;
use std::rt::Files;
use thiserror::Error;

/// Where a program reads its input: standard input, or the file of a path.
#[derive(Clone, Copy, Drop)]
pub enum Source<'a> {
    Standard,
    File(&'a str),
}

/// Why an input is not read.
#[derive(Clone, Copy, Debug, Drop, Error)]
pub enum InputFault {
    #[error("{0}")]
    Stream(#[from] StreamFault),
    #[error("{0}")]
    Path(#[from] PathFault),
}

impl InputFault {
    /// How a program ends that has no input: a path that is not read is refused, unless memory ran out.
    pub fn status(self) -> Status
        ensures { result ≡ input_status self }
    {
        match self {
            InputFault::Stream(_) | InputFault::Path(PathFault::Memory) => Status::Fault,
            InputFault::Path(_) => Status::Refused,
        }
    }
}

impl<'a> Source<'a> {
    /// The source that a word names: a path, if it is not `-`. Without a word it is standard input.
    pub fn of(word: Option<&'a str>) -> Source<'a>
        ensures { path_of result ≡ path_named (option_map (λ word. word.now) word.entry) }
    {
        match word {
            Some(path) if path != "-" => Source::File(path),
            _ => Source::Standard,
        }
    }

    /// All bytes of the input. `reader` is standard input, and stays as it was if a file is read.
    pub fn read<R: Files + AllocGlobal, I: Read>(
        self,
        rt: &R,
        reader: &mut I,
    ) -> Result<Vec<u8>, InputFault>
        ensures bytes { IsNone (path_of self.entry) →
            IfOk result (λ input. IfSome (I.remaining reader.old) (λ bytes. input.items ≡ bytes)) }
        ensures kept { IsSome (path_of self.entry) → reader.new ≡ reader.old }
        ensures fault { IfErr result (IsFaultOf self.entry) }
    {
        match self {
            Source::Standard => read_input(rt.alloc(), reader).map_err(InputFault::Stream),
            Source::File(path) => read_path(rt, path).map_err(InputFault::Path),
        }
    }
}
