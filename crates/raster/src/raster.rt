ghost use Rattle.std.specs.Prelude.{◌≡◌, ℕ, ◌≤◌, IfOk, slice_index};
ghost use Rattle.std.specs.Result.{result_err};
ghost use Rattle.raster.specs.Rastered.{rastered, entering, least_cost};
ghost use Rattle.raster.specs.Laws.{rastered_lawful};
ghost use Rattle.raster.specs.Fit.{FitShape, FitEnds, Told};

use crate::cells::Cells;
use crate::direction::Direction;
use crate::sides::Sides;
use blank::Blank;
use course::Refusal;

// Cells that fit together. `least` is the smallest byte above 0, found once. The laws of a blank follow from the ghost fields.
#[derive(Clone, Copy)]
pub struct Raster<'a> {
    bytes: &'a [u8],
    sides: Sides,
    start: u32,
    goal: u32,
    least: u8,
    ghost shape: { FitShape bytes.now sides.width sides.height },
    ghost ends: { FitEnds bytes.now sides.width sides.height start goal },
    ghost small: { (k : ℕ) → slice_index bytes.now k ≤ 255 },
    ghost cheapest: { least ≡ least_cost bytes.now },
}

impl<'a> Raster<'a> {
    ghost use Rattle.raster.specs.Laid.{Over, meant};

    // Lays a raster over cells, whatever they are, or tells why there is none.
    #[tactic(auto, using(crate::specs::Fit::fit, crate::specs::Fit::wrong_shape, crate::specs::Fit::bad_ends))]
    pub fn over(cells: Cells<'a>) -> Result<Raster<'a>, Refusal>
        ensures told { let c = cells.entry in Told c.bytes.now c.width c.height c.start c.goal (result_err result) }
        ensures laid { let c = cells.entry in IfOk result (λ x. Over x c.bytes.now c.width c.height c.start c.goal) }
        ensures means { let c = cells.entry in IfOk result (λ x. meant x ≡ rastered c.bytes.now c.width c.height c.start c.goal) }
    {
        if !cells.fits_shape() {
            return Err(Refusal::WrongShape);
        }
        if !cells.fits_ends() {
            return Err(Refusal::BadEnds);
        }
        Ok(Raster {
            bytes: cells.bytes,
            sides: Sides {
                width: cells.width,
                height: cells.height,
            },
            start: cells.start,
            goal: cells.goal,
            least: least_cost(cells.bytes),
        })
    }

    // The cut into a cell, unless that is kept wood.
    fn entering(&self, cell: u32) -> Option<(u32, u32)>
        ensures { result ≡ entering self.now.bytes.now cell }
    {
        let byte = *self.bytes.get(cell as usize)?;
        if byte == 0 {
            return None;
        }
        Some((cell, u32::from(byte)))
    }
}

// The smallest byte above 0, and 255, the largest, where there is none. The clause `small` is a fact of the type of `bytes`, and a ghost field
// of Raster: it is told here, since a check knows it of a slice that is a parameter, but not of one in a struct such as Cells.
fn least_cost(bytes: &[u8]) -> u8
    ensures is { result ≡ least_cost bytes.now }
    ensures small { (k : ℕ) → slice_index bytes.now k ≤ 255 }
{
    bytes
        .iter()
        .copied()
        .filter(|byte| *byte != 0)
        .min()
        .unwrap_or(u8::MAX)
}

impl<'a> Blank for Raster<'a> {
    ghost meaning = { λ x. rastered x.bytes.now x.sides.width x.sides.height x.start x.goal };

    ghost lawful = { λ x. rastered_lawful x.bytes.now x.sides.width x.sides.height x.start x.goal x.shape.wide x.shape.enough x.shape.few x.ends.start_in x.ends.goal_in x.ends.apart x.small };

    fn states(&self) -> u32 {
        self.sides.area()
    }

    fn start(&self) -> u32 {
        self.start
    }

    fn goal(&self) -> u32 {
        self.goal
    }

    fn places(&self, state: u32) -> u32 {
        if state < self.sides.area() { 4 } else { 0 }
    }

    fn cut(&self, state: u32, place: u32) -> Option<(u32, u32)> {
        if state >= self.sides.area() {
            return None;
        }
        let direction = Direction::try_from(place).ok()?;
        let cell = self.sides.neighbour(state, direction)?;
        self.entering(cell)
    }

    fn estimate(&self, state: u32) -> u32 {
        if state >= self.sides.area() {
            return 0;
        }
        self.sides.distance(state, self.goal) * u32::from(self.least)
    }
}
