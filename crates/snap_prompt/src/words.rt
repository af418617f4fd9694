//! The words of the prompt's help and of its hints, each text written once. The definitions name
//! these texts.

// What lines can ask for, by subject.
pub const MOVING: &[u8] = b"To move:
  step K, back K     K items on or back; `s` and `b` alone: one item
  goto T             to the position after item T
  run, rrun          on to the next stop, or back to the one before
";

pub const STOPS: &[u8] = b"To stop there:
  break I N          process I comes to line N; `clear I N` ends that
  watch A            register A changes; `unwatch A` ends that
";

pub const LOOKING: &[u8] = b"To look:
  list, list I       the lines around the process of the last item, or process I
  show I, show A     process I with its locals, or register A
  all, values        where each process stands; what memory holds
  where, events      the last item, and where each process stands; calls and answers
  report             memory, and each process with its locals; calls and answers
  why, why T         why the last item, or item T, was answered so, or trapped
";

pub const ADDING: &[u8] = b"To add items after the position:
  call I scan        process I begins a scan
  call I update K X  process I begins to update word K to X
  step I K           K steps of process I
  until I N          steps of process I until it is at line N
  end I              steps of process I until its operation ends
  crash I            process I crashes
";

pub const KEEPING: &[u8] = b"To keep, and to end:
  save FILE          writes the schedule to a new file; `save! FILE` writes over an old one
  save               prints the schedule
  help, quit         this text; the end
";

pub const SHORT: &[u8] = b"\
A register A is r K, q I J, p I J or v I. s, b, r, g and p before numbers are step,
back, run, goto and show; b I N is break I N. An empty line is the last line again.
";

// What would have been right.
pub const REGISTERS: &[u8] = b"the registers are r";

pub const BIT_REGISTERS: &[u8] =
    b"the registers are q I J with I and J to the number of processes, and r";

pub const MULTI_REGISTERS: &[u8] =
    b"the registers are q I J, p I J and v I with I and J to the number of processes, and r";

pub const LINES: &[u8] = b"the lines are";

pub const PROCESSES: &[u8] = b"the processes are";

pub const POSITIONS: &[u8] = b"the positions are";

pub const SEE_HELP: &[u8] = b": `help` says what can be typed";

pub const MARKS_FULL: &[u8] = b": 64 are set, and `clear` and `unwatch` take them away";

pub const LINE_LIMIT: &[u8] = b": a line has at most 1048576 bytes";

pub const ITEM_LIMIT: &[u8] = b": a schedule has at most 1000000 items";

// Why a process takes no steps.
pub const IDLE: &[u8] = b"is idle: `call` gives it an operation";

pub const TRAPPED: &[u8] = b"has trapped: it takes no more steps";

pub const CRASHED: &[u8] = b"has crashed: it takes no more steps";
