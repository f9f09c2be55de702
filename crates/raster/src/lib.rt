// Rasters: blanks over borrowed bytes, one a cell. A cell is entered at the cost of its byte, from the cell above, below, left or right of
// it; byte 0 is kept wood, which is never entered. It stands on course and blank.
#![tactic(auto)]

mod cells;
mod direction;
mod raster;
mod sides;
#[cfg(test)]
mod tests;

pub use cells::Cells;
pub use raster::Raster;
