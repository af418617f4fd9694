//! The help of snaplab: of each subcommand its name, what it does, what it reads, and two examples.
//! Lines have at most 80 columns.

/// What the help of a subcommand says: its name, what it does, and what it reads with examples.
pub type Told = (&'static str, &'static str, &'static str);

/// The subcommands that read a text or an image and take no option.
pub const OF_TEXTS: [Told; 5] = [
    ("check", "Says whether a text is a listing", CHECK),
    ("lint", "Says what the runs of a listing may run into", LINT),
    ("assemble", "Writes the image of a listing", ASSEMBLE),
    ("list", "Writes the text of an image", LIST),
    ("upgrade", "Writes an image in the second version", UPGRADE),
];

/// The subcommands that run a listing and take no other option.
pub const OF_RUNS: [Told; 6] = [
    ("run", "Runs a listing under a schedule", RUN),
    (
        "trace",
        "Says what each item of a schedule did, and what it changed",
        TRACE,
    ),
    (
        "debug",
        "Runs a listing under a schedule, by debugger commands",
        DEBUG,
    ),
    (
        "audit",
        "Says of each finished scan which state it stands for",
        AUDIT,
    ),
    (
        "certify",
        "Says where each operation took place, or what is missing for that",
        CERTIFY,
    ),
    ("batch", "Runs a listing under many schedules", BATCH),
];

/// The subcommand that judges.
pub const JUDGE: Told = (
    "judge",
    "Says whether a run, or a history, is linearizable",
    "\
Reads: LISTING, %, SCHEDULE from standard input; SCHEDULE with --shipped;
       HISTORY with --history
Ends:  with status 0 where it is linearizable, 4 where it is not,
       5 where that is undecided

Examples:
  snaplab judge < examples/no-point/stdin
  snaplab judge --history < examples/judge/stdin",
);

/// The subcommand that writes a model.
pub const PROMELA: Told = (
    "promela",
    "Writes a model for the model checker Spin",
    "\
Reads: LISTING, %, SCRIPTS from standard input; SCRIPTS with --shipped

`bin/snapspin` searches all schedules of the scripts by it.

Examples:
  { cat examples/u.txt; echo %; cat examples/live/stdin; } | snaplab promela
  snaplab promela --shipped seq < examples/searches/scan-and-two-updates.txt",
);

/// The subcommand that surveys runs.
pub const SURVEY: Told = (
    "survey",
    "Says what the run of each of many schedules came to",
    "\
Reads: LISTING, %, SCHEDULE, %, SCHEDULE .. from standard input;
       SCHEDULE, %, SCHEDULE .. with --shipped

Examples:
  snaplab survey --shipped seq < examples/survey/stdin
  snaplab survey --strict --shipped seq < examples/survey-strict-clean/stdin",
);

/// The subcommand that plays scripts.
pub const LIVE: Told = (
    "live",
    "Plays scripts live, each process in a thread of its own",
    "\
Reads: LISTING, %, SCRIPTS from standard input; SCRIPTS with --shipped

Examples:
  snaplab live --shipped seq < examples/live/stdin
  snaplab live --shipped seq --limit 1000 < examples/live-crash/stdin",
);

const CHECK: &str = "\
Reads: LISTING from standard input

Examples:
  snaplab check < examples/u.txt
  snaplab check --explain < examples/add.txt";

const LINT: &str = "\
Reads: LISTING from standard input

Examples:
  snaplab lint < examples/lint/stdin
  snaplab lint < examples/u.txt";

const ASSEMBLE: &str = "\
Reads: LISTING from standard input

Examples:
  snaplab assemble < examples/u.txt > u.image
  snaplab assemble < examples/u.txt | snaplab list";

const LIST: &str = "\
Reads: IMAGE from standard input

Examples:
  snaplab list < examples/list/stdin
  snaplab assemble < examples/u.txt | snaplab list";

const UPGRADE: &str = "\
Reads: IMAGE from standard input

Examples:
  snaplab upgrade < examples/upgrade/stdin > new.image
  snaplab upgrade < examples/upgrade/stdin | snaplab list";

const RUN: &str = "\
Reads: LISTING, %, SCHEDULE from standard input; SCHEDULE with --shipped

Standard error names calls that were skipped, with --explain or at a terminal.

Examples:
  snaplab run < examples/borrowed-view/stdin
  snaplab run --shipped seq < examples/shipped-borrowed-view/stdin";

const TRACE: &str = "\
Reads: LISTING, %, SCHEDULE from standard input; SCHEDULE with --shipped

Examples:
  snaplab trace < examples/trace/stdin
  snaplab trace --shipped seq < examples/shipped-borrowed-view/stdin";

const DEBUG: &str = "\
Reads: LISTING, %, SCHEDULE, %, COMMANDS from standard input;
       SCHEDULE, %, COMMANDS with --shipped

Examples:
  snaplab debug < examples/debug/stdin
  snaplab debug --shipped seq < examples/debug-breakpoint/stdin";

const AUDIT: &str = "\
Reads: LISTING, %, SCHEDULE from standard input; SCHEDULE with --shipped

Examples:
  snaplab audit < examples/borrow-at-one-move/stdin
  snaplab audit --shipped seq < examples/shipped-borrowed-view/stdin";

const CERTIFY: &str = "\
Reads: LISTING, %, SCHEDULE from standard input; SCHEDULE with --shipped

Examples:
  snaplab certify < examples/borrow-at-one-move/stdin
  snaplab certify --shipped seq < examples/shipped-borrowed-view/stdin";

const BATCH: &str = "\
Reads: LISTING, %, SCHEDULE, %, SCHEDULE .. from standard input;
       SCHEDULE, %, SCHEDULE .. with --shipped

Examples:
  snaplab batch < examples/batch/stdin
  snaplab batch --shipped seq < examples/survey/stdin";

/// The help of the program.
pub const HELP: &str = "\
Runs, debugs and audits listings of processes over shared registers

Usage: snaplab [OPTIONS] <COMMAND> < INPUT

A listing and its image:
  check     Says whether a text is a listing
  lint      Says what the runs of a listing may run into
  assemble  Writes the image of a listing
  list      Writes the text of an image
  upgrade   Writes an image in the second version

One run:
  run       Runs a listing under a schedule
  trace     Says what each item of a schedule did, and what it changed
  debug     Runs a listing under a schedule, by debugger commands
  audit     Says of each finished scan which state it stands for
  certify   Says where each operation took place, or what is missing for that
  judge     Says whether a run, or a history, is linearizable

Many runs, and live ones:
  batch     Runs a listing under many schedules
  survey    Says what the run of each of many schedules came to
  live      Plays scripts live, each process in a thread of its own

All schedules of a few operations:
  promela   Writes a model for the model checker Spin

More:
  help      Prints this, or the help of a command, which says what it reads

Options:
      --explain  Explains on standard error where and why an input is refused
  -h, --help     Print help
  -V, --version  Print version

Examples:
  snaplab run < examples/first-run.txt
  { cat examples/u.txt; echo %; echo shape 2 2; } | snaplab run";
