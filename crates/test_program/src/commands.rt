//! Tests of texts of debugger commands: how long they may be, where they may be cut, and how they
//! are written.
use snap_debug::{Breakpoint, Command, fault_line, push_command, push_refusal, read_commands};
use snap_semantics::{CommandRefusal, Fault};
use snap_text::{Draft, line_count, push_text};
use snap_words::{Address, Bank};
use std::alloc::{AllocError, Global};
use std::process::Abort;
use std::test::Fail;
use std::time::CpuClock;

/// The most bytes that a text of commands may have.
const MAX_BYTES: usize = 1_048_576;

/// How many seconds of a processor are many for a reader that goes through a text once, and few for
/// one that begins again at each line.
const SECONDS: u64 = 3;

/// A line of 104 bytes.
const LONG_LINE: &[u8] = b"unwatch q 16 16                       \
# the bit of the last scanner for the last updater, in kind bit  \n";

/// Every command, with what may stand about it.
const ALL: &[u8] = b"# where to look\n\
step 1\n\
back 18446744073709551615\n\
\n\
\tgoto 20 # between the two copies\n\
run\n\
rrun\r\n\
break 1 23\n\
clear 12 7\n\
watch r 2\n\
unwatch q 10 2\n\
watch p 1 16\n\
show v 3\n\
show 4\n\
values\n\
events\n\
  where  ";

/// The commands of `ALL` as they are written.
const WRITTEN: &[u8] = b"step 1\n\
back 18446744073709551615\n\
goto 20\n\
run\n\
rrun\n\
break 1 23\n\
clear 12 7\n\
watch r 2\n\
unwatch q 10 2\n\
watch p 1 16\n\
show v 3\n\
show 4\n\
values\n\
events\n\
where\n";

/// Returns how many commands a text has, or why it is refused.
fn count(alloc: Global, text: &[u8]) -> Result<usize, Fault<CommandRefusal>> {
    let commands = read_commands(alloc, text)?;
    Ok(commands.len())
}

/// Returns whether a text has the wanted number of commands, or is refused as wanted.
fn is_read(alloc: Global, text: &[u8], want: Result<usize, CommandRefusal>) -> bool {
    match (count(alloc, text), want) {
        (Ok(found), Ok(len)) => found == len,
        (Err(fault), Err(refusal)) => fault == Fault::Refused(refusal),
        _ => false,
    }
}

/// Checks that a text is a number of commands, or is refused as wanted, and that this is soon
/// known.
fn check_soon(
    rt: &(impl Abort + CpuClock),
    alloc: Global,
    text: &[u8],
    want: Result<usize, CommandRefusal>,
) -> Result<(), Fail> {
    let start = rt.thread_cpu_time()?;
    assert!(rt; is_read(alloc, text, want));
    let end = rt.thread_cpu_time()?;
    assert!(rt; end.saturating_sub(start).as_secs() < SECONDS);
    Ok(())
}

/// Returns `len` bytes of one sort.
fn repeated(alloc: Global, byte: u8, len: usize) -> Result<Vec<u8>, AllocError> {
    let mut text = Vec::new(alloc);
    for _ in 0..len {
        text.push(byte)?;
    }
    Ok(text)
}

/// Returns `count` lines.
fn lines(alloc: Global, line: &[u8], count: usize) -> Result<Vec<u8>, AllocError> {
    let mut text = Vec::new(alloc);
    for _ in 0..count {
        push_text(&mut text, line)?;
    }
    Ok(text)
}

/// Puts a byte at the end until a text has the most bytes.
fn fill(text: &mut Vec<u8>, byte: u8) -> Result<(), AllocError> {
    for _ in text.len()..MAX_BYTES {
        text.push(byte)?;
    }
    Ok(())
}

#[test]
fn reads_texts_of_the_most_bytes_soon(rt: HostRuntime) -> Result<(), Fail> {
    let alloc = rt.alloc();
    for (byte, want) in [
        (b'\n', Ok(0)),
        (b'#', Ok(0)),
        (b'x', Err(CommandRefusal::BadCommand(1))),
        (b'+', Err(CommandRefusal::BadCommand(1))),
    ] {
        let text = repeated(alloc, byte, MAX_BYTES)?;
        check_soon(&rt, alloc, text.as_slice(), want)?;
    }
    let mut text = lines(alloc, LONG_LINE, 10_000)?;
    fill(&mut text, b'\n')?;
    check_soon(&rt, alloc, text.as_slice(), Ok(10_000))?;
    text.push(b'\n')?;
    check_soon(&rt, alloc, text.as_slice(), Err(CommandRefusal::TooLong))
}

#[test]
fn reads_ten_thousand_lines_soon(rt: HostRuntime) -> Result<(), Fail> {
    let alloc = rt.alloc();
    let mut text = lines(alloc, b"where\n", 10_000)?;
    check_soon(&rt, alloc, text.as_slice(), Ok(10_000))?;
    push_text(&mut text, b"\n# no command\n")?;
    check_soon(&rt, alloc, text.as_slice(), Ok(10_000))?;
    push_text(&mut text, b"$\n")?;
    check_soon(&rt, alloc, text.as_slice(), Err(CommandRefusal::TooLong))
}

/// Returns whether what is left of a text that was cut is read, or is refused at its last line.
fn is_read_or_refused(alloc: Global, text: &[u8]) -> bool {
    match count(alloc, text) {
        Ok(found) => found <= 15,
        Err(fault) => fault == Fault::Refused(CommandRefusal::BadCommand(line_count(text))),
    }
}

#[test]
fn reads_each_cut_or_refuses_its_last_line(rt: HostRuntime) {
    for len in 0..ALL.len() {
        assert!(rt; is_read_or_refused(rt.alloc(), &ALL[..len]), "{len}");
    }
    assert!(rt; is_read(rt.alloc(), ALL, Ok(15)));
    assert!(rt; is_read(rt.alloc(), &ALL[..18], Err(CommandRefusal::BadCommand(2))));
    assert!(rt; is_read(rt.alloc(), &ALL[..22], Ok(1)));
}

/// Returns the text of commands.
fn text_of(alloc: Global, commands: &[Command]) -> Result<Vec<u8>, AllocError> {
    let mut text = Draft::new(alloc);
    for command in commands {
        push_command(&mut text, command);
    }
    text.finish()
}

#[test]
fn writes_every_command(rt: HostRuntime) -> Result<(), Fail> {
    let commands = read_commands(rt.alloc(), ALL)?;
    let text = text_of(rt.alloc(), commands.as_slice())?;
    assert_eq!(rt; text.as_slice(), WRITTEN);
    let again = read_commands(rt.alloc(), text.as_slice())?;
    assert!(rt; again.as_slice() == commands.as_slice());
    Ok(())
}

#[test]
fn reads_the_parts_of_a_command(rt: HostRuntime) -> Result<(), Fail> {
    let commands = read_commands(rt.alloc(), b"break 3 10\nwatch p 1 2\nshow r 4\nstep 0")?;
    let wanted = [
        Command::Break(Breakpoint {
            process: 3,
            line: 10,
        }),
        Command::Watch(Address {
            bank: Bank::P,
            i: 1,
            j: 2,
        }),
        Command::ShowRegister(Address {
            bank: Bank::R,
            i: 4,
            j: 0,
        }),
        Command::Step(0),
    ];
    assert!(rt; commands.as_slice() == wanted.as_slice());
    Ok(())
}

/// Checks that a refusal is written as wanted by itself, in its line, and where it is shown.
fn is_written(
    rt: &impl Abort,
    alloc: Global,
    refusal: CommandRefusal,
    name: &[u8],
) -> Result<(), Fail> {
    let mut text = Draft::new(alloc);
    push_refusal(&mut text, &refusal);
    assert_eq!(rt; text.text()?, name);
    let shown = format!(in alloc; "{refusal}")?;
    assert_eq!(rt; shown.as_bytes(), name);
    let mut line = Vec::new(alloc);
    line.extend_from_slice(b"refused: ")?;
    line.extend_from_slice(name)?;
    line.push(b'\n')?;
    let written = fault_line(alloc, &Fault::Refused(refusal))?;
    assert_eq!(rt; written.as_slice(), line.as_slice());
    Ok(())
}

#[test]
fn writes_why_commands_are_refused(rt: HostRuntime) -> Result<(), Fail> {
    for (refusal, name) in [
        (
            CommandRefusal::BadCommand(10),
            b"G1 BadCommand 10".as_slice(),
        ),
        (CommandRefusal::NoSuchLine, b"G2 NoSuchLine".as_slice()),
        (
            CommandRefusal::NoSuchProcess,
            b"G3 NoSuchProcess".as_slice(),
        ),
        (
            CommandRefusal::NoSuchRegister,
            b"G4 NoSuchRegister".as_slice(),
        ),
        (
            CommandRefusal::NoSuchPosition,
            b"G5 NoSuchPosition".as_slice(),
        ),
        (CommandRefusal::TooManyMarks, b"G6 TooManyMarks".as_slice()),
        (CommandRefusal::TooLong, b"G7 TooLong".as_slice()),
    ] {
        is_written(&rt, rt.alloc(), refusal, name)?;
    }
    Ok(())
}

#[test]
fn writes_that_memory_ran_out(rt: HostRuntime) -> Result<(), Fail> {
    let memory = fault_line(rt.alloc(), &Fault::Memory)?;
    assert_eq!(rt; memory.as_slice(), b"refused: Memory\n".as_slice());
    Ok(())
}
