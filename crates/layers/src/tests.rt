// Tests over a corridor: a blank of 81 states in a row, each with one cut to the next at cost 1.
ghost use Rattle.layers.specs.Corridor.{corridor, corridor_lawful};

use crate::knots::Knots;
use crate::marking::mark_number;
use crate::rounding::Rounding;
use blank::Blank;
use course::Refusal;
use std::test::Fail;

const LAST: u32 = 80;

#[derive(Drop)]
struct Corridor {}

impl Blank for Corridor {
    ghost meaning = { λ _. corridor };

    ghost lawful = { λ _. corridor_lawful };

    fn states(&self) -> u32 {
        LAST + 1
    }

    fn start(&self) -> u32 {
        0
    }

    fn goal(&self) -> u32 {
        LAST
    }

    fn places(&self, state: u32) -> u32 {
        if state < LAST { 1 } else { 0 }
    }

    fn cut(&self, state: u32, place: u32) -> Option<(u32, u32)> {
        if state < LAST && place == 0 {
            Some((state + 1, 1))
        } else {
            None
        }
    }

    fn estimate(&self, state: u32) -> u32 {
        LAST.saturating_sub(state)
    }
}

// A rounding, or else a failed test.
fn rounding<B: Blank + Drop>(below: B, step: u32) -> Result<Rounding<B>, Fail> {
    Rounding::over(below, step).map_err(|_| Fail::new("the step is refused"))
}

#[test]
fn estimates_are_lowered(rt: HostRuntime) -> Result<(), Fail> {
    let layer = rounding(Corridor {}, 16)?;
    assert_eq!(rt; layer.estimate(47), 32);
    assert_eq!(rt; layer.estimate(48), 32);
    assert_eq!(rt; layer.estimate(49), 16);
    assert_eq!(rt; layer.estimate(80), 0);
    assert_eq!(rt; layer.estimate(81), 0);
    assert_eq!(rt; layer.cut(47, 0), Some((48, 1)));
    Ok(())
}

// A refused making gives the blank back, also a lent one.
#[test]
fn steps_are_refused(rt: HostRuntime) -> Result<(), Fail> {
    let corridor = Corridor {};
    for step in [0, 1001, 4294967295] {
        let refused = Rounding::over(&corridor, step)
            .err()
            .ok_or("the step is taken")?;
        assert_eq!(rt; refused.refusal.number(), 12);
        assert_eq!(rt; refused.below.states(), 81);
    }
    assert_eq!(rt; rounding(&corridor, 1)?.estimate(47), 33);
    assert_eq!(rt; rounding(&corridor, 1000)?.estimate(47), 0);
    Ok(())
}

#[test]
fn knots_up_to_64(rt: HostRuntime) {
    let mut layer = Knots::over(Corridor {});
    for state in 1..65 {
        assert_eq!(rt; layer.may_mark(state), Ok(()));
        layer = layer.mark(state);
    }
    assert!(rt; layer.is_marked(64));
    assert_eq!(rt; layer.may_mark(65), Err(Refusal::KnotsFull));
    layer = layer.mark(65);
    assert!(rt; !layer.is_marked(65));
    assert_eq!(rt; layer.cut(63, 0), None);
    assert_eq!(rt; layer.cut(64, 0), Some((65, 1)));
    assert_eq!(rt; layer.may_mark(64), Err(Refusal::KnotMarked));
    assert_eq!(rt; layer.may_mark(80), Err(Refusal::KnotBarred));
}

#[test]
fn marking_is_refused(rt: HostRuntime) {
    let layer = Knots::over(Corridor {}).mark(0).mark(80).mark(81).mark(7);
    assert!(rt; !layer.is_marked(0));
    assert_eq!(rt; mark_number(layer.may_mark(0)), 11);
    assert_eq!(rt; mark_number(layer.may_mark(80)), 11);
    assert_eq!(rt; mark_number(layer.may_mark(81)), 11);
    assert_eq!(rt; mark_number(layer.may_mark(7)), 37);
    assert_eq!(rt; mark_number(layer.may_mark(8)), 0);
    assert_eq!(rt; mark_number(Err(Refusal::KnotsFull)), 38);
}

// Rounding over knots over rounding over knots over a lent rounding.
#[test]
fn pile(rt: HostRuntime) -> Result<(), Fail> {
    let corridor = Corridor {};
    let lent = rounding(&corridor, 10)?;
    let inner = rounding(Knots::over(&lent).mark(48), 20)?;
    let outer = rounding(Knots::over(inner).mark(50), 7)?;
    assert_eq!(rt; outer.states(), 81);
    assert_eq!(rt; outer.start(), 0);
    assert_eq!(rt; outer.goal(), 80);
    assert_eq!(rt; outer.places(47), 1);
    assert_eq!(rt; outer.cut(47, 0), None);
    assert_eq!(rt; outer.cut(48, 0), Some((49, 1)));
    assert_eq!(rt; outer.cut(49, 0), None);
    assert_eq!(rt; outer.estimate(47), 14);
    assert_eq!(rt; lent.estimate(47), 30);
    assert_eq!(rt; lent.cut(47, 0), Some((48, 1)));
    Ok(())
}
