// The rows that the lines of the states fill.
ghost use Rattle.std.specs.Prelude.{◌≤◌, length};

// The cuts of all states one after another: where each leads, and what it costs. They are two rows, since TableRows lends each by itself.
#[derive(Drop)]
pub(crate) struct CutRows {
    pub(crate) targets: Vec<u32>,
    pub(crate) costs: Vec<u32>,
    ghost few: { length targets.items ≤ 8192 },
}

// The rows of the states' lines. The entries of a state begin at its first, and end where those of the next begin.
#[derive(Drop)]
pub(crate) struct Lines {
    pub(crate) firsts: Vec<u32>,
    pub(crate) cuts: CutRows,
}
