//! A stamped part at its place: it is what the shape names there, and each event of its journal is on that place.

ghost use Rattle.std.specs.Prelude.{◌≡◌, ◌<◌, ◌≤◌, ◌&&◌, ◌↔◌, is_some, IfOk, IsTrue, OnOk, Some};
ghost use Rattle.tn_base.specs.declared.event.Event.TheVariants as event;
ghost use Rattle.tn_stamped.specs.Doing.{DoesOne, DoesTurn, DoesTwoOr, IsReady};
ghost use Rattle.tn_part.specs.Meeting.{IsNoTurn, port_of};
ghost use Rattle.tn_stamped.specs.Placed.{FitsHere, GrewAlone, GrewTogether, StandsHere};
ghost use Rattle.tn_part.specs.Turning.{did_turn};
ghost use Rattle.tn_rows.specs.Ends.{ended_on};
ghost use Rattle.tn_rows.specs.Places.{One, Two, places};
ghost use Rattle.tn_tile.specs.Turns.{StockLasts, moved};

use crate::stamped::Stamped;
use std::alloc::{AllocError, Global};
use std::marker::Model;
use tn_base::event::Event;
use tn_base::ids::{PartId, ThreadId};
use tn_base::laws::law_links;
use tn_base::port::Port;
use tn_base::shape::Shape;
use tn_link::link::Link;
use tn_pages::stock::PageStock;
use tn_part::part::LastTurn;
use tn_part::site::Sites;
use tn_stamp::item::Item;
use tn_tile::deliver::Did;

/// A stamped part, and its place in a machine of a shape. The part is what the shape names there, and each event of its journal is
/// on this place.
#[derive(Drop)]
pub struct Placed<L: Link> {
    /// In a box, so that workers pass the part on without a move of the part itself.
    stamped: Box<Stamped<L>>,
    shape: Shape,
    place: PartId,
}

impl<L: Link> Model for Placed<L> {
    ghost use Rattle.std.specs.List.{All};
    ghost use Rattle.tn_base.specs.Parts.{kind_of};
    ghost use Rattle.tn_rows.specs.Events.{FitsKind};
    ghost use Rattle.tn_stamped.specs.Placed.{PlacedView};
    ghost use Rattle.tn_rows.specs.Stamped.{StandsAt};

    ghost Value = { PlacedView };

    ghost view = { λ p. record { stamped = p.stamped.value; shape = p.shape; place = p.place.0 } };

    ghost invariant = { λ p. record {
      here : All (StandsAt p.shape p.place.0) p.stamped.value.entries;
      fits : FitsKind p.shape (kind_of p.shape p.place.0) p.stamped.value.present;
    } };
}

impl<L: Link> Item for Placed<L> {
    type Start = Placed<L>;

    ghost use Rattle.tn_stamped.specs.Placed.{began, entries_of};

    ghost start = { began };

    ghost journal = { entries_of };
}

impl<L: Link> Placed<L> {
    /// A stamped part at its place. The shape names such a part there, and each event of its journal is on this place.
    pub fn of(
        alloc: Global,
        shape: Shape,
        place: PartId,
        stamped: Stamped<L>,
    ) -> Result<Placed<L>, AllocError>
        requires here { StandsHere (record { stamped = stamped; shape = shape; place = place.0 }) }
        requires fits { FitsHere (record { stamped = stamped; shape = shape; place = place.0 }) }
        ensures { IfOk result (λ p. p ≡ record { stamped = stamped; shape = shape; place = place.0 }) }
    {
        Ok(Placed {
            stamped: Box::new(alloc, stamped)?,
            shape,
            place,
        })
    }

    /// Makes room for one entry.
    pub fn reserve(&mut self) -> Result<(), AllocError>
        ensures same { (self.new.stamped.start ≡ self.old.stamped.start) × (self.new.stamped.entries ≡ self.old.stamped.entries) × (self.new.stamped.present ≡ self.old.stamped.present) }
        ensures stays { (self.new.shape ≡ self.old.shape) × (self.new.place ≡ self.old.place) }
        ensures room { OnOk result (0 < self.new.stamped.room) }
    {
        self.stamped.reserve()
    }

    /// The stamped part.
    pub fn stamped(&self) -> &Stamped<L>
        ensures stamped { result.now ≡ self.now.stamped }
        ensures here { StandsHere self.now }
        ensures fits { FitsHere self.now }
    {
        &self.stamped
    }

    /// The part's place.
    pub fn place(&self) -> PartId
        ensures { result.0 ≡ self.now.place }
    {
        self.place
    }

    /// Whether the part has this place in the machine of these places.
    pub fn is_at(&self, sites: &Sites, p: PartId) -> bool
        ensures { IsTrue result ↔ ((self.now.shape ≡ sites.now) × (self.now.place ≡ p.0)) }
    {
        self.shape == *sites.shape() && self.place == p
    }

    /// The stamped part, without its place.
    pub fn into_stamped(self) -> Stamped<L>
        ensures { result ≡ self.stamped }
    {
        Box::into_inner(self.stamped)
    }

    /// The longest turn of a thread that is on this part, with pages of a full stock, and whether the turn ends a run.
    pub fn turn(&mut self, t: ThreadId, stock: &mut PageStock) -> LastTurn
        requires here { places self.old.shape (event.Turn t 1) ≡ One self.old.place }
        requires ready { IsReady self.old.stamped }
        requires pages { 64 ≤ stock.old }
        ensures turn { DoesTurn result.turned t self.old.stamped self.new.stamped }
        ensures ends { result.ends ≡ (did_turn result.turned && is_some (ended_on t self.new.stamped.present)) }
        ensures stock { StockLasts result.turned stock.old stock.new }
        ensures grows { GrewAlone self.old self.new }
        ensures stays { (self.new.shape ≡ self.old.shape) × (self.new.place ≡ self.old.place) }
    {
        self.stamped.turn(t, stock)
    }

    /// An event on this part alone that is no turn.
    pub fn one(&mut self, e: Event) -> Did
        requires here { places self.old.shape e ≡ One self.old.place }
        requires event { IsNoTurn e }
        requires ready { IsReady self.old.stamped }
        ensures event { DoesOne (moved result) e self.old.stamped self.new.stamped }
        ensures grows { GrewAlone self.old self.new }
        ensures stays { (self.new.shape ≡ self.old.shape) × (self.new.place ≡ self.old.place) }
    {
        self.stamped.one(e)
    }

    /// An event on this part and another part of the machine, which are joined at this port. A letter for the host may want memory.
    pub fn two(&mut self, high: &mut Placed<L>, e: Event, at: Port) -> Result<Did, AllocError>
        requires here { places self.old.shape e ≡ Two self.old.place high.old.place }
        requires same { high.old.shape ≡ self.old.shape }
        requires port { port_of self.old.shape e ≡ Some at }
        requires ready { IsReady self.old.stamped }
        requires high_ready { IsReady high.old.stamped }
        ensures event { DoesTwoOr result e self.old.stamped high.old.stamped self.new.stamped high.new.stamped }
        ensures grow { GrewTogether self.old high.old self.new high.new }
        ensures stays { (self.new.shape ≡ self.old.shape) × (self.new.place ≡ self.old.place) }
        ensures high_stays { (high.new.shape ≡ high.old.shape) × (high.new.place ≡ high.old.place) }
    {
        law_links(&self.shape);
        self.stamped.two(&mut high.stamped, e, at)
    }
}
