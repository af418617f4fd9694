//! `Plan` and `Pace`: how schedules are made by chance: how processes take turns, how many turns
//! there are, and how many of them are crashes.
ghost use Rattle.std.specs.Prelude.{◌≡◌, ◌≤◌, false, None};
ghost use Rattle.snap_words.specs.Shape.{IsShape};
ghost use Rattle.snap_chance.specs.Plan.{IsPlan, with_depth, with_owned};

use snap_words::Shape;
use std::marker::Model;

/// The most turns of a schedule. A turn has at most 129 items.
pub const MAX_TURNS: u64 = 7_500;

/// How processes take turns.
#[derive(Clone, Copy, PartialEq, Eq)]
pub enum Pace {
    /// A step at a time, of a process that is drawn for each.
    Coins,
    /// Steps of one process side by side: 1 to 128, short bursts as often as long ones.
    Bursts,
    /// One process scans, a few steps at a time, while all processes make updates in between, most
    /// of them whole.
    Interruptions,
    /// One process scans, one to four steps at a time, while two others make two whole updates in
    /// between.
    Rounds,
    /// One process updates, in parts, and another one scans, in parts, while a third updates and
    /// scans in between, most often whole, so that its scans witness what the others have done.
    Witnesses,
    /// One process updates, to completion or almost; another one makes an update of its own, and
    /// then scans a part at a time.
    Duels,
    /// Of eight runs two are bursts, two interruptions, two duels, one has witnesses, and one
    /// rounds.
    Mixed,
}

/// How schedules are made: a plan has at least one process and one word, and few enough turns for a
/// schedule.
#[derive(Clone, Copy)]
pub struct Plan {
    shape: Shape,
    owns: bool,
    pace: Pace,
    turns: u64,
    crashes: u64,
    repeated: u32,
    depth: Option<u64>,
}

impl Model for Plan {
    ghost use Rattle.snap_chance.specs.Plan.{IsPlan, Plan};

    ghost Value = { Plan };

    ghost view = { λ p. record {
      shape = p.shape;
      owns = p.owns;
      pace = p.pace;
      turns = p.turns;
      crashes = p.crashes;
      repeated = p.repeated;
      depth = p.depth;
    } };

    ghost invariant = { λ p. IsPlan (record {
      shape = p.shape;
      owns = p.owns;
      pace = p.pace;
      turns = p.turns;
      crashes = p.crashes;
      repeated = p.repeated;
      depth = p.depth;
    }) };

    ghost inverse = { λ p. record {
      shape = p.shape;
      owns = p.owns;
      pace = p.pace;
      turns = p.turns;
      crashes = p.crashes;
      repeated = p.repeated;
      depth = p.depth;
    } };
}

impl Plan {
    /// Returns a plan of `turns` turns, in which processes update any words, and of a thousand
    /// turns `crashes` are crashes. In half of the schedules values are from 0 to `repeated`; in
    /// the others, and in all if `repeated` is 0, no two updates have the same value.
    pub fn new(shape: Shape, pace: Pace, turns: u64, crashes: u64, repeated: u32) -> Plan
        requires shape { IsShape shape.n shape.w }
        requires few { turns ≤ 7500 }
        ensures { result ≡ record {
          shape = shape;
          owns = false;
          pace = pace;
          turns = turns;
          crashes = crashes;
          repeated = repeated;
          depth = None;
        } }
    {
        Plan {
            shape,
            owns: false,
            pace,
            turns,
            crashes,
            repeated,
            depth: None,
        }
    }

    /// Returns the same plan, in which each process updates the word of its own number if `owns`
    /// says so.
    pub fn with_owned(&self, owns: bool) -> Plan
        ensures { result ≡ with_owned owns self.now }
    {
        Plan { owns, ..*self }
    }

    /// Returns the same plan, in which priorities decide who moves, to the depth `depth` if there
    /// is one: the process that moves is lowered at one turn fewer than `depth`.
    pub fn with_depth(&self, depth: Option<u64>) -> Plan
        ensures { result ≡ with_depth depth self.now }
    {
        Plan { depth, ..*self }
    }

    /// Returns the numbers of processes and of words.
    pub fn shape(&self) -> Shape
        ensures shape { result ≡ self.now.shape }
        ensures plan { IsPlan self.now }
    {
        self.shape
    }

    /// Returns whether each process updates the word of its own number.
    pub fn owns(&self) -> bool
        ensures { result ≡ self.now.owns }
    {
        self.owns
    }

    /// Returns how processes take turns.
    pub fn pace(&self) -> Pace
        ensures { result ≡ self.now.pace }
    {
        self.pace
    }

    /// Returns how many turns a schedule has.
    pub fn turns(&self) -> u64
        ensures turns { result ≡ self.now.turns }
        ensures plan { IsPlan self.now }
    {
        self.turns
    }

    /// Returns how many of a thousand turns are crashes.
    pub fn crashes(&self) -> u64
        ensures { result ≡ self.now.crashes }
    {
        self.crashes
    }

    /// Returns the greatest of the values that are repeated.
    pub fn repeated(&self) -> u32
        ensures { result ≡ self.now.repeated }
    {
        self.repeated
    }

    /// Returns to which depth priorities decide who moves, if they do.
    pub fn depth(&self) -> Option<u64>
        ensures { result ≡ self.now.depth }
    {
        self.depth
    }
}
