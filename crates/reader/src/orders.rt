// The orders of a text.
ghost use Rattle.std.specs.Prelude.{◌≡◌, MatchResult};
ghost use Rattle.std.specs.Option.{option_map};
ghost use Rattle.text.specs.Document.{numbers, spaced_numbers, how_many, verb};
ghost use Rattle.text.specs.Reading.{verb_of};
ghost use Rattle.reader.specs.Meaning.{meant};
ghost use Rattle.reader.specs.Readings.{Reads};
ghost use Rattle.reader.specs.Orders.{spoken, Named, OrderTold, OrderLineTold, OrdersTold};

use crate::errors::ReadError;
use crate::forms::{Want, unwanted};
use crate::marks::{Reader, Sign, Token};
use std::alloc::Global;
use text::{Fault, Order};

// What an order tells to do: an order before its numbers are read.
#[derive(Clone, Copy, PartialEq, Eq, Debug)]
pub(crate) enum Verb {
    Ratio,
    Work,
    Ceiling,
    Show,
    Route,
}

// What a word tells to do, if it is the word of an order. No TryFrom: a word that is no order's is no error here, but unwanted as a mark.
fn verb_of(token: Token<'_>) -> Option<Verb>
    ensures { option_map spoken result ≡ verb_of (meant token.entry) }
{
    match token {
        Token::Word(b"ratio") => Some(Verb::Ratio),
        Token::Word(b"work") => Some(Verb::Work),
        Token::Word(b"ceiling") => Some(Verb::Ceiling),
        Token::Word(b"show") => Some(Verb::Show),
        Token::Word(b"route") => Some(Verb::Route),
        _ => None,
    }
}

impl<'a> Reader<'a> {
    // The numbers of an order, and the end of its line.
    fn order_numbers(&mut self, verb: Verb) -> Result<Order, Fault>
        ensures reads { Reads (spaced_numbers (how_many (spoken verb))) numbers self.old self.new result }
        ensures named { Named (spoken verb) result }
    {
        match verb {
            Verb::Ratio => {
                let (p, q) = self.last_two()?;
                Ok(Order::Ratio(p, q))
            }
            Verb::Work => Ok(Order::Work(self.last_number()?)),
            Verb::Ceiling => Ok(Order::Ceiling(self.last_number()?)),
            Verb::Show => {
                self.line_end()?;
                Ok(Order::Show)
            }
            Verb::Route => {
                self.line_end()?;
                Ok(Order::Route)
            }
        }
    }

    // An order from its word on.
    fn order(&mut self) -> Result<Order, Fault>
        ensures { OrderTold self.old self.new result }
    {
        let mark = self.peek()?;
        let verb = verb_of(mark.token).ok_or(unwanted(mark))?;
        self.at = mark.end;
        self.order_numbers(verb)
    }

    // The line of an order.
    fn order_line(&mut self) -> Result<Order, Fault>
        ensures { OrderLineTold self.old self.new result }
    {
        self.take(Want::Sign(Sign::Opening))?;
        self.order()
    }

    // The orders up to the end of the text.
    pub(crate) fn orders(&mut self, alloc: Global) -> Result<Vec<Order>, ReadError>
        ensures { OrdersTold self.old self.new result }
    {
        let mut orders = Vec::new(alloc);
        while self.at < self.text.len() {
            orders.push(self.order_line()?)?;
        }
        Ok(orders)
    }
}
