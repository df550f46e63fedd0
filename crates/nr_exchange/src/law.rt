//! The exchange rule as a rule of a table, and the kinds of step that keep it. These types are for the proofs alone.
use crate::note::Note;
use crate::planned::Planned;
use atomic_table::{Play, Split, TableRule};
use std::marker::PhantomData;

/// The exchange rule.
pub struct Law;

impl<P: Planned> TableRule<Option<P::Parcel>, Note<P>, P> for Law {
    ghost use Rattle.nr_exchange.specs.Notes.{fresh};
    ghost use Rattle.nr_exchange.specs.Rule.{ExchangeRule};

    ghost holds = { λ run. ExchangeRule run (P.plan run) };

    ghost first = { λ run. fresh run (P.plan run).shards 0 1 };
}

/// A load of a published word.
pub struct Look<P> {
    marker: PhantomData<P>,
}

impl<P: Planned> Play<Option<P::Parcel>, Note<P>> for Look<P> {
    ghost use Rattle.nr_exchange.specs.Steps.{Looks};

    ghost then = { Looks P.plan };
}

/// A load that claims the next list where it is published.
pub struct Try<P> {
    marker: PhantomData<P>,
}

impl<P: Planned> Play<Option<P::Parcel>, Note<P>> for Try<P> {
    ghost use Rattle.nr_exchange.specs.Steps.{Tries};

    ghost then = { Tries P.plan };
}

/// An addition to a taken word, with which the place of a claimed list goes home.
pub struct GiveBack<P> {
    marker: PhantomData<P>,
}

impl<P: Planned> Play<Option<P::Parcel>, Note<P>> for GiveBack<P> {
    ghost use Rattle.nr_exchange.specs.Steps.{GivesBack};

    ghost then = { GivesBack P.plan };
}

/// A load of a taken word that takes out the place for the next list where there is room.
pub struct Ask<P> {
    marker: PhantomData<P>,
}

impl<P: Planned> Play<Option<P::Parcel>, Note<P>> for Ask<P> {
    ghost use Rattle.nr_exchange.specs.Steps.{Asks};

    ghost then = { Asks P.plan };
}

/// The places for the lists go home, and the number rises.
pub struct Raise<P> {
    marker: PhantomData<P>,
}

impl<P: Planned> Play<Option<P::Parcel>, Note<P>> for Raise<P> {
    ghost use Rattle.nr_exchange.specs.Steps.{Raises};

    ghost then = { Raises P.plan };
}

/// The number rises past a missing chunk.
pub struct Pass<P> {
    marker: PhantomData<P>,
}

impl<P: Planned> Play<Option<P::Parcel>, Note<P>> for Pass<P> {
    ghost use Rattle.nr_exchange.specs.Steps.{Passes};

    ghost then = { Passes P.plan };
}

/// The mark of abandonment is added.
pub struct GiveUp<P> {
    marker: PhantomData<P>,
}

impl<P: Planned> Play<Option<P::Parcel>, Note<P>> for GiveUp<P> {
    ghost use Rattle.nr_exchange.specs.Steps.{GivesUp};

    ghost then = { GivesUp P.plan };
}

/// The next port is split off port 0.
pub struct Next<P> {
    marker: PhantomData<P>,
}

impl<P: Planned> Split<Note<P>> for Next<P> {
    ghost use Rattle.nr_exchange.specs.Notes.{fresh, one_made};

    ghost left = { one_made };

    ghost right = { λ v. fresh v.run (P.plan v.run).shards v.made 0 };
}
