//! The texts that say how the program is called.

/// The ways to call it.
pub(crate) const USAGE: &str =
    "usage: hfsx-files put IMAGE FOLDER|FILE|- [--to /P] [--size auto|SECTORS] [--date keep|SECONDS] [--over] [--verbose]
       hfsx-files get IMAGE [/P] FOLDER|- [--over] [--verbose]
       hfsx-files ls [-lR] IMAGE [/P ..]
       hfsx-files cat IMAGE /P
       hfsx-files stat IMAGE /P ..
       hfsx-files salvage IMAGE FOLDER [--json]
       hfsx-files explain IMAGE [--json]
       hfsx-files adopt IMAGE
       hfsx-files --help | --version";

/// What `--help` tells behind the ways to call it.
pub(crate) const HELP: &str = "\n
Puts files into a journaled HFSX volume in an image or on a block device, and takes them out.

  put      puts what FOLDER holds, FILE, or the tar archive of standard input into the volume
  get      makes what the volume holds in FOLDER, or writes it to standard output as a tar archive
  ls       lists folders
  cat      writes a file's bytes to standard output
  stat     tells what is known of entries
  salvage  makes in FOLDER what can still be read of a damaged volume
  explain  says in words what is wrong with a volume
  adopt    makes a volume whose journal a Mac wrote one that hfsx serves

  --to /P        put: into this folder of the volume, which is made where it is missing
  --size auto    put: makes the image anew, just large enough for FOLDER
  --size N       put: makes the image anew, with N sectors of 512 bytes
  --date keep    put: each entry keeps its date, but none is later than SOURCE_DATE_EPOCH where that is set
  --date N       put: all entries have this date, in seconds since 1970
  --over         files that are there make way
  --verbose, -v  tells each entry
  --json         salvage, explain: lines for programs
  -l, -R         ls: modes, sizes and dates; all that is below

What can't be kept is told on standard error with its reason, and then the exit status is 9. All but put and adopt never change the image.
The manual is hfsx-files(1).
";

/// What `--version` tells.
pub(crate) const VERSION: &str = "hfsx-files 0.1.0\n";
