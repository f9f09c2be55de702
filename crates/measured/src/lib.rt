// Small blanks with what the rules make of them, worked out to the last move. The function below takes nothing and stands for a theorem: its
// contract is the statement, and nothing is computed. It stands on course, whose rules it works out, on table, tableblank, raster and layers,
// whose blanks they are worked out on, on blank below those, and on rank, for the order of shares.
#![tactic(auto)]

ghost use Rattle.measured.specs.Pieces.{PiecesMeasured};

// The pieces of docs/SEARCH.md come out as that page says, with every wish.
pub fn pieces_are_measured()
    ensures { PiecesMeasured }
{}
