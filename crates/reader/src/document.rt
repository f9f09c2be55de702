// What a text holds, and the verdict on every text.
ghost use Rattle.std.specs.Prelude.{◌≡◌, Decides};
ghost use Rattle.table.specs.Checks.{rows_in, Checked};
ghost use Rattle.text.specs.Causes.{Allowed};
ghost use Rattle.text.specs.Promises.{VerdictLaws};
ghost use Rattle.reader.specs.Documents.{rows_of, BodyTold, DocumentTold, CheckTold};
ghost use Rattle.reader.specs.Verdict.{Answers};

use crate::errors::ReadError;
use crate::forms::Head;
use crate::marks::Reader;
use course::Refusal;
use std::alloc::Global;
use table::TableRows;
use text::{Fault, Layer, Order};

// As many bytes as a text may have.
const MOST_BYTES: usize = 60_000;

// So many states a text may have.
const LEAST_STATES: u32 = 2;

const MOST_STATES: u32 = 1024;

// What a text holds, in rows of its own: the four rows of its table, start and goal, and the orders. The four stand side by side, since they
// are lent as the rows of a table. Start and goal stand as TableRows has them: no function takes the two alone, and in a struct of their own
// they would only be written longer.
#[derive(Drop)]
pub struct Document {
    pub firsts: Vec<u32>,
    pub targets: Vec<u32>,
    pub costs: Vec<u32>,
    pub estimates: Vec<u32>,
    pub start: u32,
    pub goal: u32,
    pub orders: Vec<Order>,
}

impl Document {
    // The rows of its table, lent.
    pub fn rows(&self) -> TableRows<'_>
        ensures { rows_in result ≡ rows_of self.now }
    {
        TableRows {
            firsts: self.firsts.as_slice(),
            targets: self.targets.as_slice(),
            costs: self.costs.as_slice(),
            estimates: self.estimates.as_slice(),
            start: self.start,
            goal: self.goal,
        }
    }

    // The check of its table.
    fn check(&self) -> Result<(), Fault>
        ensures { CheckTold (rows_of self.now) result }
    {
        Ok(self.rows().check()?)
    }
}

impl<'a> Reader<'a> {
    // What follows the first line.
    fn body(&mut self, alloc: Global, head: Head) -> Result<Document, ReadError>
        ensures { BodyTold head self.old self.new result }
    {
        let lines = self.state_lines(alloc, head.states)?;
        let estimates = self.estimates(alloc, head.states)?;
        let orders = self.orders(alloc)?;
        Ok(Document {
            firsts: lines.firsts,
            targets: lines.cuts.targets,
            costs: lines.cuts.costs,
            estimates,
            start: head.start,
            goal: head.goal,
            orders,
        })
    }
}

// Whether a text may have so many states.
fn allowed(states: u32) -> bool
    ensures { Decides result (Allowed states) }
{
    (LEAST_STATES..=MOST_STATES).contains(&states)
}

// The document of a text, whatever its length, its table not yet checked.
fn whole(alloc: Global, text: &[u8]) -> Result<Document, ReadError>
    ensures { DocumentTold text.now result }
{
    let mut reader = Reader::new(text);
    let head = reader.first_line()?;
    if !allowed(head.states) {
        return Err(Fault::new(Layer::Table, Refusal::WrongShape, 0).into());
    }
    reader.body(alloc, head)
}

// What a text holds, or why it is refused. Every text whatever has an answer, unless memory fails; and the laws hold of the verdicts on
// all texts.
pub fn read(alloc: Global, text: &[u8]) -> Result<Document, ReadError>
    ensures verdict { Answers text.now result }
    ensures laws { VerdictLaws }
{
    if text.len() > MOST_BYTES {
        return Err(Fault::new(Layer::Forms, Refusal::TextTooLong, MOST_BYTES).into());
    }
    let document = whole(alloc, text)?;
    document.check()?;
    Ok(document)
}
