//! What `--help` and `--version` write.

/// What `--version` writes.
pub const VERSION: &[u8] = b"gz-table 0.2.0\n";

/// What `--help` writes.
pub const HELP: &[u8] = b"A table of modules that many processes share and that outlives them.

usage: gz-table [OPTION ..] FOLDER create [--mode MODE] WORD ..
                                                        makes a table: catalogue=PATH, dep=PATH, alias=PATH, conf=PATH
       gz-table [OPTION ..] FOLDER create [--mode MODE] --host [-S VERSION] [--root DIR] [--as 30|34]
                                                        makes one of a machine's modules
       gz-table [OPTION ..] FOLDER renew WORD ..        gives the table another setup, by words of create
       gz-table [OPTION ..] FOLDER COMMAND [WORD ..]    answers one command
       gz-table [OPTION ..] FOLDER                      answers the lines of standard input
       gz-table [OPTION ..] FOLDER check [--repair]     says what stands in the folder; cuts damage off
       gz-table [OPTION ..] FOLDER adopt FILE           brings the table to lines of /proc/modules (-: standard input)
       gz-table [OPTION ..] FOLDER compact              writes the journal anew

A new table is its owner's alone (--mode 700), unless MODE lets others use it, as 750 or 755.

With GZ_TABLE in the environment, its text is the FOLDER, and the first word is the command.

Options:
  --wait SECONDS  how long another process is waited for (10)
  --no-sync       changes are not brought to the disk before they are answered
  -h, --help      this text
  -V, --version   the version

Exit status, of several lines that of the first that was refused:
   0  done, or the answer is yes
   1  the answer is no
   2  not asked rightly, or there is no table
   3  the disk or a stream failed, or memory ran out
   4  another process holds the table
  10  no such module (ENOENT, UNKNOWN)
  11  held, or needed by another module (EWOULDBLOCK, LOST)
  12  not live, in progress, or permanent (NOTLIVE, NEEDNOTLIVE, EBUSY)
  13  there already (EEXIST)
  15  not held by this holder (NOTHELD)
  16  a bad parameter (EINVAL)
  17  no plan (CYCLE, INSTALL, REMOVE, UNKNOWNSYMBOL)
  18  too many references or holders (TOOMANY, WORKER)
";
