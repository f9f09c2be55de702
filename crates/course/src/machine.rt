// The cost by which a state was reached, and (the start excepted) the state it was reached from.
#[derive(Clone, Copy, PartialEq, Eq, Debug)]
pub struct Reach {
    pub g: u32,
    pub from: Option<u32>,
}

// A state of the blank is unseen, open (on the frontier) or closed.
#[derive(Clone, Copy, PartialEq, Eq, Debug)]
pub enum Mark {
    Unseen,
    Open(Reach),
    Closed(Reach),
}

// The numbers that a wish ranks: those of one open state, and the settings they stand under.
#[derive(Clone, Copy, PartialEq, Eq, Debug)]
pub struct Numbers {
    pub state: u32,
    pub g: u32,
    pub h: u32,
    pub limit: u32,
    pub p: u32,
    pub q: u32,
    pub least: u32,
}

// How an accepted work ends.
#[derive(Clone, Copy, PartialEq, Eq, Debug)]
pub enum Word {
    Done,
    Met,
    Spent,
}
