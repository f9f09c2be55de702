// What an order is answered.
use course::Refusal;
use planner::{Shown, Worked};

// A route that was told: its states, what it costs, and the floor.
#[derive(Drop)]
pub struct Route {
    pub states: Vec<u32>,
    pub cost: u32,
    pub floor: u32,
}

// The answer to one order.
#[derive(Drop)]
pub enum Reply {
    Worked(Worked),
    Set,
    Shown(Shown),
    Told(Route),
    Refused(Refusal),
}
