// The lines of orders with their answers.
ghost use Rattle.std.specs.Prelude.{◌≡◌, map, Some};
ghost use Rattle.text.specs.Document.{named, verb};
ghost use Rattle.session.specs.Replies.{answer_of};
ghost use Rattle.report.specs.Printed.{cost_item, number_items, answer_items, order_line, order_lines};

use session::Reply;
use std::fmt;
use text::Order;

fn order_name(order: Order) -> &'static str
    ensures { result.now ≡ named (verb order) }
{
    match order {
        Order::Ratio(_, _) => "ratio",
        Order::Work(_) => "work",
        Order::Ceiling(_) => "ceiling",
        Order::Show => "show",
        Order::Route => "route",
    }
}

// Numbers, each behind a space.
#[derive(Clone, Copy)]
struct Spaced<'a>(&'a [u32]);

impl fmt::Display for Spaced<'_> {
    ghost output = { λ s. Some (number_items s.0.now) };

    fn fmt<W: fmt::Write>(&self, f: &mut fmt::Formatter<W>) -> fmt::Result {
        for n in self.0 {
            write!(f, " {n}")?;
        }
        Ok(())
    }
}

// A standing route's cost behind a space, or that none stands.
#[derive(Clone, Copy)]
struct Cost(Option<u32>);

impl fmt::Display for Cost {
    ghost output = { λ c. Some (cost_item c.0) };

    fn fmt<W: fmt::Write>(&self, f: &mut fmt::Formatter<W>) -> fmt::Result {
        match self.0 {
            Some(cost) => write!(f, " {cost}"),
            None => f.write_str(" none"),
        }
    }
}

// What an order was answered, behind its name.
#[derive(Clone, Copy)]
struct Said<'a>(&'a Reply);

impl fmt::Display for Said<'_> {
    ghost output = { λ s. Some (answer_items (answer_of s.0.now)) };

    fn fmt<W: fmt::Write>(&self, f: &mut fmt::Formatter<W>) -> fmt::Result {
        match self.0 {
            Reply::Worked(worked) => write!(f, " {worked}"),
            Reply::Set => f.write_str(" ok"),
            Reply::Shown(shown) => {
                write!(f, "{} {} {}", Cost(shown.cost), shown.floor, shown.moves)
            }
            Reply::Told(route) => {
                write!(
                    f,
                    " {} {}{}",
                    route.cost,
                    route.floor,
                    Spaced(&route.states)
                )
            }
            Reply::Refused(refusal) => write!(f, " refused {}", refusal.number()),
        }
    }
}

// Orders and what they were answered.
#[derive(Clone, Copy)]
pub(crate) struct Lines<'a> {
    pub(crate) orders: &'a [Order],
    pub(crate) replies: &'a [Reply],
}

// A line for each order.
impl fmt::Display for Lines<'_> {
    ghost output = { λ l. Some (order_lines l.orders.now (map answer_of l.replies.now)) };

    fn fmt<W: fmt::Write>(&self, f: &mut fmt::Formatter<W>) -> fmt::Result {
        for (order, reply) in self.orders.iter().zip(self.replies) {
            let name = order_name(*order);
            let said = Said(reply);
            writeln!(f, "{name}{said}")?;
        }
        Ok(())
    }
}
