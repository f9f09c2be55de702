ghost use Rattle.std.specs.Prelude.{◌≡◌};
ghost use Rattle.course.specs.Refusals.{number_of};

// Why the planner refuses a text, a blank or a call, and the number by which it is told. A refusal alters nothing.
#[derive(Clone, Copy, PartialEq, Eq, Debug)]
pub enum Refusal {
    // a byte outside the set
    ByteOutside = 1,
    // a number badly written
    NumberBadlyWritten = 2,
    // a mark that is not wanted where it stands
    MarkUnwanted = 3,
    // a text with too many bytes or too many cuts
    TextTooLong = 4,
    // rows, or the bytes of a raster, that do not fit together
    WrongShape = 5,
    // a start or goal that is no state, or the two equal; of a raster also one that is kept wood
    BadEnds = 6,
    // a target that is no state, the cut's own state, or out of order
    BadTarget = 7,
    // a cost that is not 1 to 1,000
    BadCost = 8,
    // an estimate over 1,023,000, or a goal's estimate that is not 0
    BadEstimate = 9,
    // an estimate above the cost of a cut and the estimate behind it
    SteepEstimate = 10,
    // a knot that is no state, or is the start or the goal
    KnotBarred = 11,
    // a rounding step that is not 1 to 1,000
    BadStep = 12,
    // a ratio outside its rule
    BadRatio = 13,
    // a row too short for the states, or for the route that stands
    RowTooShort = 15,
    // a budget over 65,535
    BudgetTooLarge = 18,
    // no route stands
    NoRoute = 31,
    // a ceiling above the present one
    CeilingRaised = 36,
    // a knot that is marked already
    KnotMarked = 37,
    // as many knots as may stand
    KnotsFull = 38,
    // a queue whose row is full
    QueueFull = 39,
    // a queue that holds nothing
    QueueEmpty = 40,
}

impl Refusal {
    // The number by which a refusal is told.
    pub fn number(self) -> u32
        ensures { result ≡ number_of self }
    {
        self as u32
    }
}
