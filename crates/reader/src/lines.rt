// The lines of the states, and the line of the estimates.
ghost use Rattle.std.specs.Prelude.{◌≡◌, ◌<◌, ◌≤◌, true, false, [], ◌∷◌, ◌++◌, length, MatchResult};
ghost use Rattle.text.specs.Marks.{next};
ghost use Rattle.text.specs.Forms.{meets};
ghost use Rattle.text.specs.Document.{closing};
ghost use Rattle.text.specs.Reading.{cuts_from};
ghost use Rattle.reader.specs.Readings.{rest, told};
ghost use Rattle.reader.specs.Rows.{Pushed, Begins, CutsTold, LineTold, LinesTold, EstimatesTold};

use crate::errors::ReadError;
use crate::forms::{Cut, Want};
use crate::marks::{Reader, Sign};
use crate::rows::{CutRows, Lines};
use course::Refusal;
use std::alloc::Global;
use text::{Fault, Layer};

// As many cuts as a text may hold.
const MOST_CUTS: usize = 8192;

impl CutRows {
    fn new(alloc: Global) -> Self
        ensures { (result.targets.items ≡ []) × (result.costs.items ≡ []) }
    {
        CutRows {
            targets: Vec::new(alloc),
            costs: Vec::new(alloc),
        }
    }

    // How many there are.
    fn count(&self) -> u32
        ensures { result ≡ length self.now.targets.items }
    {
        self.targets.len() as u32
    }

    fn push(&mut self, cut: Cut) -> Result<(), ReadError>
        requires { length self.old.targets.items < 8192 }
        ensures { Pushed cut self.old self.new result }
    {
        self.targets.push(cut.target)?;
        self.costs.push(cut.cost)?;
        Ok(())
    }
}

impl Lines {
    fn new(alloc: Global) -> Self
        ensures { (result.firsts.items ≡ []) × (result.cuts.targets.items ≡ []) × (result.cuts.costs.items ≡ []) }
    {
        Lines {
            firsts: Vec::new(alloc),
            cuts: CutRows::new(alloc),
        }
    }

    // The entries of the next state begin behind those that are there.
    fn begin(&mut self) -> Result<(), ReadError>
        ensures { Begins self.old self.new result }
    {
        self.firsts.push(self.cuts.count())?;
        Ok(())
    }
}

impl<'a> Reader<'a> {
    // Whether the mark in hand is `)`.
    fn closes(&self) -> bool
        ensures { result ≡ meets closing (next (rest self.now)) }
    {
        self.peek()
            .is_ok_and(|mark| mark.token.meets(Want::Sign(Sign::Closing)))
    }

    // The fault where no more cuts may stand: a cut is told at its opening bracket.
    fn cut_too_many(&mut self) -> Fault
        ensures { meets closing (next (rest self.old)) ≡ false → cuts_from 0 self.old.at (rest self.old) ≡ told result }
    {
        let unwanted = self.spaced_opening().err();
        let place = self.at.saturating_sub(1);
        unwanted.unwrap_or_else(|| Fault::new(Layer::Forms, Refusal::TextTooLong, place))
    }

    // The cuts of one state, and the end of its line.
    fn cut_line(&mut self, cuts: &mut CutRows) -> Result<(), ReadError>
        ensures { CutsTold self.old self.new cuts.old cuts.new result }
    {
        while !self.closes() {
            if cuts.targets.len() >= MOST_CUTS {
                return Err(self.cut_too_many().into());
            }
            cuts.push(self.cut()?)?;
        }
        self.line_end()?;
        Ok(())
    }

    // `(from u`, the cuts of the state, and the end of its line; with where its entries begin.
    fn state_line(&mut self, u: u32, lines: &mut Lines) -> Result<(), ReadError>
        ensures { LineTold u self.old self.new lines.old lines.new result }
    {
        lines.begin()?;
        self.from_state(u)?;
        self.cut_line(&mut lines.cuts)
    }

    // A line for each state, from state 0 on.
    pub(crate) fn state_lines(&mut self, alloc: Global, states: u32) -> Result<Lines, ReadError>
        ensures { LinesTold states self.old self.new result }
    {
        let mut lines = Lines::new(alloc);
        for u in 0..states {
            self.state_line(u, &mut lines)?;
        }
        lines.begin()?;
        Ok(lines)
    }

    // `(estimates`, a number for each state, and the end of the line.
    pub(crate) fn estimates(&mut self, alloc: Global, states: u32) -> Result<Vec<u32>, ReadError>
        ensures { EstimatesTold states self.old self.new result }
    {
        self.opening(b"estimates")?;
        let mut estimates = Vec::new(alloc);
        // a count of numbers to be read: the closure of a chain would change the reader that it captures
        for _i in 0..states {
            estimates.push(self.spaced_number()?)?;
        }
        self.line_end()?;
        Ok(estimates)
    }
}
