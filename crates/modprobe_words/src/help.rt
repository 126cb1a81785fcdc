//! The help text and the version.

/// What `--version` shows.
pub(crate) const VERSION: &str = "gz-modprobe 0.2.0
answers as modprobe of kmod version 34, or with --as 30 of 30
";

/// What `--help` shows.
pub(crate) const HELP: &str = "Usage:
  gz-modprobe -n [-v] [options] [-i] [-b] modulename [parameter...]
  gz-modprobe -n [-v] [options] -a [-i] [-b] modulename [modulename...]
  gz-modprobe -n [-v] [options] -r [-a] [-i] modulename [modulename...]
  gz-modprobe -D [options] [-i] [-b] modulename [parameter...]
  gz-modprobe -D [options] -a [-i] [-b] modulename [modulename...]
  gz-modprobe -R [options] modulename
  gz-modprobe -R [options] -a modulename [modulename...]
  gz-modprobe -c [options]
  gz-modprobe --why [options] modulename [modulename...]
  gz-modprobe --lint[=json] [options] [file...]
  gz-modprobe [options] --diff [options of the other files] [modulename...]

It answers what modprobe(8) of kmod 34 answers, and loads and removes nothing.

Queries:
  -n, --dry-run, --show       Say what would be done; with -v, by which lines
  -D, --show-depends          Print the lines that load a module, loaded or not
  -R, --resolve-alias         Print the modules that a name stands for
  -c, --showconfig, --show-config
                              Print the configuration and the indexes
  -r, --remove                With -n: what a removal would do
      --why                   Print what leads to a module: needs, lines, devices
      --diff                  Print what another machine's files would load instead
      --lint[=json]           Print the lines of the configuration, or of files, that have
                              no effect

Options of queries:
  -a, --all                   Each word is the name of a module
      --first-time            Fail if a module is loaded, or removed, already
  -i, --ignore-install, --ignore-remove
                              Pass over install and remove lines
  -b, --use-blacklist         The blacklist counts for names too
  -C, --config=PATH           Read PATH in place of the folders modprobe.d
  -d, --dirname=DIR           Look for lib/modules below DIR
  -S, --set-version=VERSION   The release in place of that of the machine
      --root=DIR              Read all files, of /etc, /sys and /proc too, below DIR
      --as=VERSION            Answer as kmod 30 or as kmod 34; without it as 34
      --explain[=json]        Say on standard error which lines gave the answer
      --ignore=FILE           With --lint: leave out the notes that FILE names
      --json                  Print the answer, and what gave it, as JSON
      --shell                 Print the lines quoted for sh, each insmod once
      --strict                With --lint: fail also for commands that keep nothing out
      --whole                 With -r: what the removal itself would do

General options:
  -q, --quiet                 Show no lines of -n, and few messages
  -v, --verbose               Tell more
  -V, --version               Show the version
  -h, --help                  Show this help

Accepted without effect: -f, --force, --force-modversion, --force-vermagic,
-s, --syslog and -w, --wait=MSEC.
Options of MODPROBE_OPTIONS come first.

Example, all that would be done for a device, done by a shell:
  gz-modprobe --shell -n -v snd_hda_intel | sh -e
";
