//! The exchange of a run, and how it is made and closed.
ghost use Rattle.std.specs.Prelude.{◌≡◌, ◌<◌, ◌≤◌, [], IfOk, map};
ghost use Rattle.std.specs.Mem.Slots.{slots_items, slots_len, IsFull};
ghost use Rattle.atomic_table.specs.Table.{Final};
ghost use Rattle.nr_exchange.specs.Notes.{fresh};
ghost use Rattle.nr_exchange.specs.Places.{words, places};
ghost use Rattle.nr_exchange.specs.Ports.{AreMade};
ghost use Rattle.nr_exchange.specs.Rule.{ExchangeRule};
ghost use Rattle.nr_exchange.specs.Seats.{AreSplit};

use crate::law::{Law, Next};
use crate::note::Note;
use crate::places::{count_places, count_words};
use crate::planned::Planned;
use crate::port::Port;
use atomic_table::{Closed, Seat, Table};
use std::alloc::{AllocError, Global};
use std::marker::Model;
use std::snapshot::Snapshot;

/// The exchange between the shards of a run: a published word for each of them, and for each link from one to another
/// a taken word and a ring of eight places for the lists on their way.
///
/// A published word is the number of heights that its shard has published, plus 2^32 where the shard has abandoned the
/// run. A taken word is the number of lists that the destination has taken out of the ring. Contracts see the
/// exchange's name, its run, and the seats of its ports.
#[derive(Drop)]
pub struct Exchange<P: Planned> {
    pub(crate) table: Table<Option<P::Parcel>, Note<P>, P, Law, Global>,
    pub(crate) shards: u32,
    /// The ports as they were made. It takes no bytes.
    ports: Snapshot<Vec<Port<P>>>,
}

impl<P: Planned> Model for Exchange<P> {
    ghost use Rattle.std.specs.Prelude.{map};
    ghost use Rattle.nr_exchange.specs.Views.{ExchangeView, IsSized};

    ghost Value = { ExchangeView P };

    ghost view = { λ e. record {
      name = e.table.shared.table_id;
      run = e.table.shared.key;
      seats = map (λ p. p.seat) e.ports.value.items;
    } };

    ghost invariant = { λ e. IsSized (P.plan e.table.shared.key) e.table.shared.table_id e.shards
        × P.is_run e.table.shared.key };
}

/// An exchange for a run, and the ports of its shards in order of number. None of them has published, taken or
/// abandoned anything.
///
/// # Errors
///
/// Where there is no memory for them.
pub fn make_exchange<P: Planned>(
    alloc: Global,
    run: &P,
) -> Result<(Exchange<P>, Vec<Port<P>>), AllocError>
    requires some { 0 < (P.plan run.now).shards }
    requires small { (P.plan run.now).heights ≤ 100000 }
    ensures run { IfOk result (λ made. made.0.run ≡ run.now) }
    ensures ports { IfOk result (λ made. AreMade made.0 (P.plan run.now).shards (P.plan run.now).shards made.1.items) }
{
    let shards = run.shards();
    let count = count_places(shards)?;
    let words = Vec::from_elem(alloc, 0u64, count_words(shards)?)?;
    let (table, seat) = Table::vacant(alloc, words.as_slice(), count, run)?;
    let none = Vec::new(alloc);
    let bare = Exchange {
        table,
        shards,
        ports: Snapshot::of(&none),
    };
    let ports = split_all(alloc, &bare, seat)?;
    let exchange = bare.with_ports(&ports);
    Ok((exchange, ports))
}

/// Splits the seat of port 0 into the seats of all ports.
fn split_all<P: Planned>(
    alloc: Global,
    exchange: &Exchange<P>,
    seat: Seat<Option<P::Parcel>, Note<P>>,
) -> Result<Vec<Port<P>>, AllocError>
    requires seat { (seat.table_id ≡ exchange.now.name)
        × (seat.me ≡ (fresh exchange.now.run (P.plan exchange.now.run).shards 0 1, [])) }
    requires some { 0 < (P.plan exchange.now.run).shards }
    ensures { let n = (P.plan exchange.now.run).shards in
        IfOk result (λ ports. AreSplit exchange.now.name exchange.now.run n n ports.items) }
{
    let shards = exchange.shards as usize;
    let mut ports = Vec::new(alloc);
    let taken = Vec::from_elem(alloc, 0u64, shards)?;
    ports.push(Port {
        seat,
        shard: 0,
        abandoned: false,
        sent: 0,
        taken,
    })?;
    for shard in 1..exchange.shards {
        let taken = Vec::from_elem(alloc, 0u64, shards)?;
        let seat = exchange
            .table
            .shared
            .split_seat::<Next<P>>(&mut ports[0].seat);
        ports.push(Port {
            seat,
            shard,
            abandoned: false,
            sent: 0,
            taken,
        })?;
    }
    Ok(ports)
}

impl<P: Planned> Exchange<P> {
    /// The same exchange, whose ports are these.
    fn with_ports(self, ports: &Vec<Port<P>>) -> Exchange<P>
        ensures same { (result.name ≡ self.name) × (result.run ≡ self.run) }
        ensures seats { result.seats ≡ map (λ p. p.seat) ports.now.items }
    {
        let Exchange {
            table,
            shards,
            ports: _,
        } = self;
        Exchange {
            table,
            shards,
            ports: Snapshot::of(ports),
        }
    }

    /// The words and the places of an exchange that no thread shares any more. They are those of a state that keeps
    /// the exchange rule.
    pub fn close(self) -> Closed<Option<P::Parcel>, Global>
        ensures rule { Final (ExchangeRule self.run (P.plan self.run)) (slots_items result.words)
            (slots_items result.slots) }
        ensures full { IsFull result.words × IsFull result.slots }
        ensures words { slots_len result.words ≡ words (P.plan self.run) }
        ensures places { slots_len result.slots ≡ places (P.plan self.run) }
    {
        let Exchange { table, .. } = self;
        table.close()
    }
}

unsafe impl<P: Planned> Send for Exchange<P> {}

unsafe impl<P: Planned> Sync for Exchange<P> {}
