//! A turn for each of several items, taken by workers without a lock. Who has the turn of an item has the item. `Rule` says
//! what holds between any two steps, whatever the workers do. Begin with `Turns::of`, then read `TurnBoard::take`.
#![tactic(auto)]

mod closing;
mod laws;
mod opening;
mod rule;
mod seats;
mod slot;
#[cfg(test)]
mod turn_tests;
mod turns;
mod view;

pub use laws::law_seats;
pub use opening::NoTurns;
pub use rule::{Give, JoinSeat, Lay, Lift, SplitSeat, Take, TurnRule};
pub use seats::{TurnBoard, TurnSeat, Turns};
pub use slot::Slot;
pub use view::{KeptView, SeatView, View};
