//! What each step on a lock's word tells a pass, and how passes come from passes.
use crate::keyed::Keyed;
use crate::view::Passes;
use atomic_table::{Join, Play, Split};
use std::marker::PhantomData;

pub(crate) struct Seize<T> {
    marker: PhantomData<T>,
}

impl<T: Keyed> Play<T, Passes> for Seize<T> {
    ghost use Rattle.managed_table.specs.Turns.{Seizes};

    ghost then = { Seizes T.fits T.shown };
}

/// A look at a lock's word, which shows whether the lock is taken.
pub(crate) struct Look;

impl<T> Play<T, Passes> for Look {
    ghost use Rattle.managed_table.specs.Turns.{Looks};

    ghost then = { Looks };
}

pub(crate) struct Release<T> {
    marker: PhantomData<T>,
}

impl<T: Keyed> Play<T, Passes> for Release<T> {
    ghost use Rattle.managed_table.specs.Turns.{Releases};

    ghost then = { Releases T.shown };
}

/// The turn is over if nobody waits for the lock.
pub(crate) struct LetGo<T> {
    marker: PhantomData<T>,
}

impl<T: Keyed> Play<T, Passes> for LetGo<T> {
    ghost use Rattle.managed_table.specs.Turns.{LetsGo};

    ghost then = { LetsGo T.shown };
}

/// The last further pass goes back to the one that it came from.
pub(crate) struct TakeBack;

impl Join<Passes> for TakeBack {
    ghost use Rattle.managed_table.specs.Meeting.{taken_back, spent};

    ghost both = { taken_back };

    ghost spent = { spent };
}

/// One further pass comes from a pass, which lists it.
pub(crate) struct Further;

impl Split<Passes> for Further {
    ghost use Rattle.managed_table.specs.Meeting.{parent, further};

    ghost left = { parent };

    ghost right = { further };
}

/// Two views are put together, and the second seat is spent.
pub(crate) struct Together;

impl Join<Passes> for Together {
    ghost use Rattle.managed_table.specs.Meeting.{both, spent};

    ghost both = { both };

    ghost spent = { spent };
}

/// The first pass of a view stays, and the others go to a new seat.
pub(crate) struct FirstPass;

impl Split<Passes> for FirstPass {
    ghost use Rattle.managed_table.specs.Meeting.{first_pass, other_passes};

    ghost left = { first_pass };

    ghost right = { other_passes };
}

pub(crate) struct TellApart<T> {
    marker: PhantomData<T>,
}

impl<T: Keyed> Play<T, Passes> for TellApart<T> {
    ghost use Rattle.managed_table.specs.Meeting.{TellsApart};

    ghost then = { TellsApart T.by };
}
