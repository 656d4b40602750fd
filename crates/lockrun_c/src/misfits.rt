//! Why a floor isn't opened for what C describes.
ghost use Rattle.std.specs.Prelude.{◌≡◌};
ghost use Rattle.lockrun_c.specs.Misfits.{code_of_misfit, code_of_refused, code_of_unfit};
ghost use Rattle.lockrun_c.specs.declared.misfits.Misfit.TheVariants.{Memory};
ghost use Rattle.lockrun_c.specs.declared.misfits.Refused.TheVariants.{Rows};

use crate::codes::NO_MEMORY;
use floor_calls::{NotOpened, Unfit};
use std::alloc::{AllocError, AllocFailed};

/// Why a floor isn't opened.
#[derive(Clone, Copy)]
pub enum Refused {
    /// The rows describe none.
    Rows(Misfit),
    /// None is opened for what they describe.
    Floor(NotOpened),
}

/// Why rows describe no floor.
#[derive(Clone, Copy)]
pub enum Misfit {
    /// Memory was wanting.
    Memory,
    /// The bytes of a name spell none.
    NoName,
    /// Two have one name.
    NameTwice,
    /// The number of a lock's kind is no kind's.
    NoKind,
    /// The lock of a channel isn't there.
    NoLock,
    /// There are more than 64 classes.
    ManyClasses,
}

impl From<Misfit> for Refused {
    ghost from_gives = { λ m e. e ≡ Rows m };

    fn from(misfit: Misfit) -> Refused {
        Refused::Rows(misfit)
    }
}

impl From<AllocError> for Refused {
    ghost from_gives = { λ _ e. e ≡ Rows Memory };

    fn from(_e: AllocError) -> Refused {
        Refused::Rows(Misfit::Memory)
    }
}

impl From<AllocError> for Misfit {
    ghost from_gives = { λ _ e. e ≡ Memory };

    fn from(_e: AllocError) -> Misfit {
        Misfit::Memory
    }
}

impl<T: Drop> From<AllocFailed<T>> for Misfit {
    ghost from_gives = { λ _ e. e ≡ Memory };

    fn from(_e: AllocFailed<T>) -> Misfit {
        Misfit::Memory
    }
}

// The number of it.
pub(crate) fn code_of_refused(why: Refused) -> u32
    ensures { result ≡ code_of_refused why }
{
    match why {
        Refused::Rows(why) => code_of_misfit(why),
        Refused::Floor(NotOpened::NoMemory) => NO_MEMORY,
        Refused::Floor(NotOpened::Unfit(why)) => code_of_unfit(why),
    }
}

fn code_of_misfit(why: Misfit) -> u32
    ensures { result ≡ code_of_misfit why }
{
    match why {
        Misfit::Memory => NO_MEMORY,
        Misfit::NoName => 64,
        Misfit::NameTwice => 65,
        Misfit::NoKind => 66,
        Misfit::NoLock => 67,
        Misfit::ManyClasses => 68,
    }
}

fn code_of_unfit(why: Unfit) -> u32
    ensures { result ≡ code_of_unfit why }
{
    match why {
        Unfit::ManyThreads => 69,
        Unfit::ManyLocks => 70,
        Unfit::ManyChannels => 71,
        Unfit::HighClass => 72,
        Unfit::ManyKeys => 73,
        Unfit::UnsortedKeys => 74,
        Unfit::MuchRoom => 75,
        Unfit::NotOneChain => 76,
    }
}
