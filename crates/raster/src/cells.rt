ghost use Rattle.std.specs.Prelude.{◌↔◌, IsTrue};
ghost use Rattle.raster.specs.Fit.{FitShape, FitEnds};

// How many cells a raster may have.
const LEAST_AREA: u64 = 2;

const MOST_AREA: u64 = 1024;

// Bytes, one a cell, in lines of one width, with a start and a goal, as they come. A cell's number is its line times the width plus its
// column.
#[derive(Clone, Copy, PartialEq, Eq, Debug)]
pub struct Cells<'a> {
    pub bytes: &'a [u8],
    pub width: u32,
    pub height: u32,
    pub start: u32,
    pub goal: u32,
}

impl Cells<'_> {
    // Whether the sides and the bytes go together, and the area is within its bounds.
    pub(crate) fn fits_shape(&self) -> bool
        ensures { IsTrue result ↔ (FitShape self.now.bytes.now self.now.width self.now.height) }
    {
        // in 64 bits no area wraps
        let area = u64::from(self.width) * u64::from(self.height);
        (LEAST_AREA..=MOST_AREA).contains(&area) && self.bytes.len() as u64 == area
    }

    // Whether start and goal are two cells, and neither is kept wood.
    pub(crate) fn fits_ends(&self) -> bool
        requires { FitShape self.now.bytes.now self.now.width self.now.height }
        ensures { IsTrue result ↔ (FitEnds self.now.bytes.now self.now.width self.now.height self.now.start self.now.goal) }
    {
        let area = self.width * self.height;
        self.start < area
            && self.goal < area
            && self.start != self.goal
            && self.bytes[self.start as usize] != 0
            && self.bytes[self.goal as usize] != 0
    }
}
