//! `model_text`: the model of a listing and scripts, in the language of Spin.
ghost use Rattle.std.specs.Prelude.{◌≡◌};
ghost use Rattle.std.specs.List.{list_all};
ghost use Rattle.snap_promela.specs.Model.{AnswersModel, has_room, is_short, is_small};

use crate::writer::{Writer, is_beyond};
use snap_listing_core::Listing;
use snap_sched::{Script, Scripts};
use snap_semantics::{Fault, ModelRefusal};
use snap_words::{KindTag, Shape};
use std::alloc::{AllocError, Global};

/// The most processes and the most words.
const MOST_COUNT: u64 = 8;

/// The most operations of a process.
const MOST_OPERATIONS: usize = 32;

/// The declaration of how many processes may crash at any time.
const CRASHES: &[u8] = b"#define CRASHES_MOST $ /* so many processes may crash at any time */\n";

/// What stands before the registers: what a line and a step are, in a search and in a simulation.
const PRELUDE: &[u8] = b"/* A model of a listing and of scripts, made by snaplab.\n\
   A line of the listing is one d_step. Registers are global, all else is of its process, so that\n\
   steps which no other process sees are merged. A search asserts that nothing traps, and that each\n\
   answered scan has a point: memory had the view since the scan was called.\n\
   -DWIDE: numbers have 32 bits in place of 8; those below 0 are the greatest of 64 bits.\n\
   -DSIMULATION -DTURNS=N: steps and the end state are printed. */\n\
#ifdef WIDE\n\
#define Cell int\n\
#define HELD(x) 1\n\
#else\n\
#define Cell byte\n\
#define HELD(x) (0 <= (x) && (x) <= 255)\n\
#endif\n\
#define OVER(x, y) ((x < 0 && y < 0) || ((x < 0) != (y < 0) && x + y >= 0))\n\
#define BEYOND(x, y) (x >= 0 && y >= 0 && x > 2147483647 - y)\n\
#define LESS(x, y) (((x < 0) == (y < 0) && x < y) || (x >= 0 && y < 0))\n\
#define NOBIT(x) ((x) != 0 && (x) != 1)\n\
mtype = { OffEnd, BadEnd, Nested, Owner, NotABit, Overflow, Index }\n\
#define FAULT(x, cause, i, l) if :: trap == 0 && (x) -> TRAP(i, cause, l) :: else -> skip fi;\n\
#define KEEP(x, i, l) if :: trap == 0 && !(x) -> LEAVES(i, l) :: else -> skip fi;\n\
#define CRASH(i, l) printf(\"@ %d crash\\n\", i); crashed = 1; AT(l) skip\n\
#if CRASHES_MOST\n\
byte crashes;\n\
#define CRASHES(i, l) :: d_step { GO && crashes < CRASHES_MOST -> crashes++; CRASH(i, l) }; goto Stop\n\
#else\n\
#define CRASHES(i, l)\n\
#endif\n\
#ifdef SIMULATION\n\
int turns; byte ended;\n\
#define GO turns < TURNS\n\
#define STOPS(i, l) :: d_step { turns >= TURNS -> AT(l) skip }; goto Stop\n\
#define AT(l) line = l;\n\
#define STEP(i) turns++; printf(\"@ %d\\n\", i);\n\
#define TRAP(i, cause, l) trap = cause; AT(l) skip\n\
#define LEAVES(i, l) printf(\"# leaves %d %d\\n\", i, l); turns = TURNS; trap = OffEnd\n\
#define TRAPPED ; if :: trap != 0 -> goto Stop :: else -> skip fi\n\
#define HASPOINT(i, x) if :: x -> printf(\"? %d point\\n\", i) :: else -> printf(\"? %d none\\n\", i) fi;\n\
#define REPORT(i) printf(\"= %d process %d \", i, i); if :: crashed && line -> printf(\"crashed at %d\\n\", line) :: else -> if :: crashed -> printf(\"crashed\\n\") :: else -> if :: trap != 0 -> printf(\"trapped %e at %d\\n\", trap, line) :: else -> if :: line == 0 -> printf(\"idle\\n\") :: else -> if :: upd -> printf(\"update %d %d at %d\", word, arg, line) :: else -> printf(\"scan at %d\", line) fi; if :: link -> printf(\" link %d\\n\", link) :: else -> printf(\"\\n\") fi fi fi fi fi;\n\
#else\n\
#define GO 1\n\
#define STOPS(i, l)\n\
#define AT(l)\n\
#define STEP(i) printf(\"@ %d\\n\", i);\n\
#define TRAP(i, cause, l) trap = cause; assert(trap != cause)\n\
#define LEAVES(i, l) printf(\"# leaves %d %d\\n\", i, l); assert(i < 0)\n\
#define TRAPPED\n\
#define HASPOINT(i, x) assert(x);\n\
#endif\n";

/// Returns whether a script is short enough.
fn is_short(script: &Script) -> bool
    ensures { result ≡ is_short script.now }
{
    script.operations().len() <= MOST_OPERATIONS
}

/// Returns whether a model has room for a shape.
fn has_room(shape: Shape) -> bool
    ensures { result ≡ has_room shape }
{
    shape.n() <= MOST_COUNT && shape.w() <= MOST_COUNT
}

/// Returns whether all of `scripts` are short enough.
fn are_short(scripts: &[Script]) -> bool
    ensures { result ≡ list_all is_short scripts.now }
{
    scripts.iter().all(|script| is_short(script))
}

/// Returns whether scripts are small enough for a model.
fn is_small(scripts: &Scripts) -> bool
    ensures { result ≡ is_small scripts.now }
{
    has_room(scripts.shape()) && are_short(scripts.scripts())
}

impl<'a> Writer<'a> {
    /// Appends the registers.
    fn registers(&mut self) {
        let n = self.n;
        let w = self.w;
        self.say(b"typedef Word { Cell data; ");
        match self.kind() {
            KindTag::Seq => self.fill(b"Cell seq; Cell view[$] }\n", &[w]),
            KindTag::Bits => self.fill(b"bit toggle; bit hand[$]; Cell view[$] }\n", &[n, w]),
            KindTag::Multi => self.say(b"Cell id; bit toggle }\n"),
        }
        self.fill(b"typedef View { Cell view[$] }\nWord r[$];\n", &[w, w]);
        if self.kind() != KindTag::Seq {
            self.fill(b"bit q[$ * $];\n", &[n, n]);
        }
        if self.kind() == KindTag::Multi {
            self.fill(b"bit p[$ * $]; View v[$];\n", &[n, n, n]);
        }
    }
}

/// Returns the model of `listing` and `scripts` in which at most `crashes` processes crash, beside
/// those that crash by their scripts.
///
/// # Errors
///
/// `Refused` with `TooLarge` where the scripts are too large, and with `BadNumber` where a number
/// of the listing or the scripts has no counterpart in a model; `Memory` where memory runs out.
pub fn model_text(
    alloc: Global,
    listing: &Listing,
    scripts: &Scripts,
    crashes: u64,
) -> Result<Vec<u8>, Fault<ModelRefusal>>
    ensures { AnswersModel scripts.now result }
{
    if !is_small(scripts) {
        return Err(Fault::Refused(ModelRefusal::TooLarge));
    }
    let mut model = Writer::new(alloc, listing, scripts);
    model.fill(CRASHES, &[crashes]);
    model.say(PRELUDE);
    model.registers();
    model.monitors();
    model.processes();
    if let Some(number) = model.beyond() {
        if is_beyond(number) {
            return Err(Fault::Refused(ModelRefusal::BadNumber(number)));
        }
    }
    match model.finish() {
        Ok(text) => Ok(text),
        Err(AllocError) => Err(Fault::Memory),
    }
}
