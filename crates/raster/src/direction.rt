ghost use Rattle.raster.specs.Rastered.{Directs};

// The four directions from a cell of a raster, in the order of its places.
#[derive(Clone, Copy, PartialEq, Eq, Debug)]
pub enum Direction {
    Up,
    Right,
    Down,
    Left,
}

// A place past the fourth is in no direction.
#[derive(Clone, Copy, PartialEq, Eq, Debug)]
pub struct NoDirection;

// The direction of a place.
impl TryFrom<u32> for Direction {
    type Error = NoDirection;

    ghost try_from_gives = { Directs };

    fn try_from(place: u32) -> Result<Direction, NoDirection> {
        match place {
            0 => Ok(Direction::Up),
            1 => Ok(Direction::Right),
            2 => Ok(Direction::Down),
            3 => Ok(Direction::Left),
            _ => Err(NoDirection),
        }
    }
}
