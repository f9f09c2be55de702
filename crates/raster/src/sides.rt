ghost use Rattle.std.specs.Prelude.{◌≡◌, ◌*◌, ◌<◌, ◌≤◌};
ghost use Rattle.raster.specs.Rastered.{cell_at, neighbour, distance};

use crate::direction::Direction;

// The sides of a raster: how long its lines are, and how many there are.
#[derive(Clone, Copy)]
pub struct Sides {
    pub width: u32,
    pub height: u32,
    ghost wide: { 1 ≤ width },
    ghost few: { width * height ≤ 1024 },
}

impl Sides {
    // How many cells there are.
    pub(crate) fn area(self) -> u32
        ensures { result ≡ self.width * self.height }
    {
        self.width * self.height
    }

    // The cell at a line and a column.
    fn cell_at(self, line: u32, column: u32) -> u32
        requires line { line < self.height }
        requires column { column < self.width }
        ensures { result ≡ cell_at self.width line column }
    {
        line * self.width + column
    }

    // The cell next to a cell in a direction, unless an edge is between.
    pub(crate) fn neighbour(self, cell: u32, direction: Direction) -> Option<u32>
        requires { cell < self.width * self.height }
        ensures { result ≡ neighbour self.width self.height direction cell }
    {
        let line = cell / self.width;
        let column = cell % self.width;
        match direction {
            Direction::Up if line > 0 => Some(self.cell_at(line - 1, column)),
            Direction::Right if column + 1 < self.width => Some(self.cell_at(line, column + 1)),
            Direction::Down if line + 1 < self.height => Some(self.cell_at(line + 1, column)),
            Direction::Left if column > 0 => Some(self.cell_at(line, column - 1)),
            _ => None,
        }
    }

    // How many lines and columns lie between two cells.
    pub(crate) fn distance(self, from: u32, to: u32) -> u32
        requires from { from < self.width * self.height }
        requires to { to < self.width * self.height }
        ensures is { result ≡ distance self.width from to }
        ensures near { result ≤ 2046 }
    {
        let lines = (from / self.width).abs_diff(to / self.width);
        let columns = (from % self.width).abs_diff(to % self.width);
        lines + columns
    }
}
