//! `Fault`: why a call that allocates returns an error: memory ran out, or what it was given is
//! refused.
ghost use Rattle.std.specs.Prelude.{◌≡◌};
ghost use Rattle.snap_semantics.specs.Answers.{fault_as};
ghost use Rattle.snap_semantics.specs.declared.fault.Fault.TheVariants.{Memory, Refused};
ghost use Rattle.snap_semantics.specs.declared.refusal.Refusal.TheVariants as refusal;

use crate::refusal::{CommandRefusal, ImageRefusal, ListingRefusal, Refusal, ScheduleRefusal};
use std::alloc::{AllocError, AllocFailed};
use std::fmt::Display;
use thiserror::Error;

/// Why a call that allocates returns an error: memory ran out, or what it was given is refused.
#[derive(Clone, Copy, Debug, PartialEq, Eq, Error)]
pub enum Fault<R: Display> {
    #[error("out of memory")]
    Memory,
    #[error("{0}")]
    Refused(R),
}

impl<R: Display> From<AllocError> for Fault<R> {
    ghost from_gives = { λ _ fault. fault ≡ Memory };

    fn from(_error: AllocError) -> Fault<R> {
        Fault::Memory
    }
}

impl<R: Display, T: Drop> From<AllocFailed<T>> for Fault<R> {
    ghost from_gives = { λ _ fault. fault ≡ Memory };

    fn from(_error: AllocFailed<T>) -> Fault<R> {
        Fault::Memory
    }
}

impl From<ListingRefusal> for Fault<ListingRefusal> {
    ghost from_gives = { λ refusal fault. fault ≡ Refused refusal };

    fn from(refusal: ListingRefusal) -> Fault<ListingRefusal> {
        Fault::Refused(refusal)
    }
}

impl From<ImageRefusal> for Fault<ImageRefusal> {
    ghost from_gives = { λ refusal fault. fault ≡ Refused refusal };

    fn from(refusal: ImageRefusal) -> Fault<ImageRefusal> {
        Fault::Refused(refusal)
    }
}

impl From<ScheduleRefusal> for Fault<ScheduleRefusal> {
    ghost from_gives = { λ refusal fault. fault ≡ Refused refusal };

    fn from(refusal: ScheduleRefusal) -> Fault<ScheduleRefusal> {
        Fault::Refused(refusal)
    }
}

impl From<Refusal> for Fault<Refusal> {
    ghost from_gives = { λ refusal fault. fault ≡ Refused refusal };

    fn from(refusal: Refusal) -> Fault<Refusal> {
        Fault::Refused(refusal)
    }
}

impl From<CommandRefusal> for Fault<CommandRefusal> {
    ghost from_gives = { λ refusal fault. fault ≡ Refused refusal };

    fn from(refusal: CommandRefusal) -> Fault<CommandRefusal> {
        Fault::Refused(refusal)
    }
}

impl From<Fault<ListingRefusal>> for Fault<Refusal> {
    ghost from_gives = { λ found fault. fault ≡ fault_as refusal.Listing found };

    fn from(fault: Fault<ListingRefusal>) -> Fault<Refusal> {
        match fault {
            Fault::Memory => Fault::Memory,
            Fault::Refused(refusal) => Fault::Refused(Refusal::Listing(refusal)),
        }
    }
}

impl From<Fault<ImageRefusal>> for Fault<Refusal> {
    ghost from_gives = { λ found fault. fault ≡ fault_as refusal.Image found };

    fn from(fault: Fault<ImageRefusal>) -> Fault<Refusal> {
        match fault {
            Fault::Memory => Fault::Memory,
            Fault::Refused(refusal) => Fault::Refused(Refusal::Image(refusal)),
        }
    }
}

impl From<Fault<ScheduleRefusal>> for Fault<Refusal> {
    ghost from_gives = { λ found fault. fault ≡ fault_as refusal.Schedule found };

    fn from(fault: Fault<ScheduleRefusal>) -> Fault<Refusal> {
        match fault {
            Fault::Memory => Fault::Memory,
            Fault::Refused(refusal) => Fault::Refused(Refusal::Schedule(refusal)),
        }
    }
}

impl From<Fault<CommandRefusal>> for Fault<Refusal> {
    ghost from_gives = { λ found fault. fault ≡ fault_as refusal.Commands found };

    fn from(fault: Fault<CommandRefusal>) -> Fault<Refusal> {
        match fault {
            Fault::Memory => Fault::Memory,
            Fault::Refused(refusal) => Fault::Refused(Refusal::Commands(refusal)),
        }
    }
}
