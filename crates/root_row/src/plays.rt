//! What each step on a word tells, and how seats are cut and put together.
use crate::calls::Asked;
use crate::view::Trail;
use atomic_table::{Join, Play, Split};
use std::marker::PhantomData;

pub(crate) struct LookGet;

impl Play<(), Trail> for LookGet {
    ghost use Rattle.root_row.specs.Steps.{AtSlot, Looked};
    ghost use Rattle.root_row.specs.declared.calls.LeafCall.TheVariants.{Get};
    ghost use Rattle.root_row.specs.Trails.{Recorded, load_step};

    ghost then = { Recorded (AtSlot (λ _ m v found w. Looked Get m v found w)) load_step };
}

pub(crate) struct LookPut;

impl Play<(), Trail> for LookPut {
    ghost use Rattle.root_row.specs.Steps.{AtSlot, Looked};
    ghost use Rattle.root_row.specs.declared.calls.LeafCall.TheVariants.{Put};
    ghost use Rattle.root_row.specs.Trails.{Recorded, load_step};

    ghost then = { Recorded (AtSlot (λ _ m v found w. Looked Put m v found w)) load_step };
}

pub(crate) struct Arrive;

impl Play<(), Trail> for Arrive {
    ghost use Rattle.std.specs.Prelude.{◌==◌};
    ghost use Rattle.root_row.specs.Steps.{AtSlot, TriedArrive};
    ghost use Rattle.root_row.specs.Trails.{Recorded, exchange_step};

    ghost then = { Recorded (AtSlot (λ expected m v found w. TriedArrive m v (found == expected) w)) exchange_step };
}

pub(crate) struct Depart;

impl Play<(), Trail> for Depart {
    ghost use Rattle.root_row.specs.Steps.{AtSlot, LeafAnswered};
    ghost use Rattle.dep_index.specs.declared.table.calls.Reply.TheVariants.{Done};
    ghost use Rattle.root_row.specs.declared.calls.LeafCall.TheVariants.{Put};
    ghost use Rattle.root_row.specs.Trails.{Recorded, subtract_step};

    ghost then = { Recorded (AtSlot (λ _ m v _ w. LeafAnswered v m Put Done w)) subtract_step };
}

pub(crate) struct LookRead;

impl Play<(), Trail> for LookRead {
    ghost use Rattle.root_row.specs.Steps.{AtSlot, LookedRead};
    ghost use Rattle.root_row.specs.Trails.{Recorded, load_step};

    ghost then = { Recorded (AtSlot (λ _ m v found w. LookedRead m v found w)) load_step };
}

/// The first member of a view goes to a new seat.
pub(crate) struct FirstMember;

impl Split<Trail> for FirstMember {
    ghost use Rattle.root_row.specs.Trails.{first_trail, other_trail};

    ghost left = { other_trail };

    ghost right = { first_trail };
}

/// Two views are put together, and the second seat is spent.
pub(crate) struct Together;

impl Join<Trail> for Together {
    ghost use Rattle.root_row.specs.Trails.{joined_trail, spent_trail};

    ghost both = { joined_trail };

    ghost spent = { spent_trail };
}

/// Two seats that were put together are told one list.
pub(crate) struct Hear;

impl Play<(), Trail> for Hear {
    ghost use Rattle.root_row.specs.Hearing.{told_two_trail};

    ghost then = { told_two_trail };
}

pub(crate) struct LookBook<C> {
    call: PhantomData<C>,
}

impl<C: Asked> Play<(), Trail> for LookBook<C> {
    ghost use Rattle.root_row.specs.Steps.{AtSlot};
    ghost use Rattle.root_row.specs.BookSteps.{LookedBook};
    ghost use Rattle.root_row.specs.Trails.{Recorded, load_step};

    ghost then = { Recorded (AtSlot (λ _ m v found w. LookedBook C.kind m v found w)) load_step };
}

pub(crate) struct Open;

impl Play<(), Trail> for Open {
    ghost use Rattle.std.specs.Prelude.{◌≡◌, true};
    ghost use Rattle.root_row.specs.Steps.{AtSlot};
    ghost use Rattle.root_row.specs.BookSteps.{BookAnswered};
    ghost use Rattle.dep_index.specs.declared.table.calls.Reply.TheVariants.{Done};
    ghost use Rattle.root_row.specs.declared.calls.BookCall.TheVariants.{EndLoad};
    ghost use Rattle.root_row.specs.Trails.{Recorded, exchange_step};

    ghost then = { Recorded (AtSlot (λ expected m v found w. BookAnswered v m (EndLoad true) Done w × (found ≡ expected))) exchange_step };
}

pub(crate) struct Drain;

impl Play<(), Trail> for Drain {
    ghost use Rattle.root_row.specs.Steps.{AtSlot};
    ghost use Rattle.root_row.specs.BookSteps.{BookAnswered};
    ghost use Rattle.dep_index.specs.declared.table.calls.Reply.TheVariants.{Done};
    ghost use Rattle.root_row.specs.declared.calls.BookCall.TheVariants.{BeginDrain};
    ghost use Rattle.root_row.specs.Trails.{Recorded, add_step};

    ghost then = { Recorded (AtSlot (λ _ m v _ w. BookAnswered v m BeginDrain Done w)) add_step };
}

pub(crate) struct Undrain;

impl Play<(), Trail> for Undrain {
    ghost use Rattle.root_row.specs.Steps.{AtSlot};
    ghost use Rattle.root_row.specs.BookSteps.{BookAnswered};
    ghost use Rattle.dep_index.specs.declared.table.calls.Reply.TheVariants.{Done};
    ghost use Rattle.root_row.specs.declared.calls.BookCall.TheVariants.{CancelRemove};
    ghost use Rattle.root_row.specs.Trails.{Recorded, subtract_step};

    ghost then = { Recorded (AtSlot (λ _ m v _ w. BookAnswered v m CancelRemove Done w)) subtract_step };
}

pub(crate) struct Reopen;

impl Play<(), Trail> for Reopen {
    ghost use Rattle.std.specs.Prelude.{◌≡◌};
    ghost use Rattle.root_row.specs.Steps.{AtSlot};
    ghost use Rattle.root_row.specs.BookSteps.{BookAnswered};
    ghost use Rattle.dep_index.specs.declared.table.calls.Reply.TheVariants.{Done};
    ghost use Rattle.root_row.specs.declared.calls.BookCall.TheVariants.{CancelRemove};
    ghost use Rattle.root_row.specs.Trails.{Recorded, exchange_step};

    ghost then = { Recorded (AtSlot (λ expected m v found w. BookAnswered v m CancelRemove Done w × (found ≡ expected))) exchange_step };
}

/// The exchange of the word that shows no holder, whichever call closes the slot.
pub(crate) struct Close;

impl Play<(), Trail> for Close {
    ghost use Rattle.std.specs.Prelude.{◌==◌};
    ghost use Rattle.root_row.specs.Views.{state_in};
    ghost use Rattle.root_row.specs.Steps.{AtSlot};
    ghost use Rattle.root_row.specs.BookSteps.{TriedClose, closing};
    ghost use Rattle.root_row.specs.Trails.{Recorded, exchange_step};

    ghost then = { Recorded (AtSlot (λ expected m v found w. TriedClose (closing (state_in v m)) m v (found == expected) w)) exchange_step };
}
