use crate::cells::Cells;
use crate::raster::Raster;
use blank::Blank;
use course::Refusal;
use std::process::Abort;
use std::test::Fail;

fn refusal(cells: Cells<'_>) -> Option<Refusal> {
    Raster::over(cells).err()
}

// The four cuts of a cell: up, right, down, left.
fn check_cuts(rt: &impl Abort, raster: &Raster<'_>, cell: u32, cuts: [Option<(u32, u32)>; 4]) {
    let [up, right, down, left] = cuts;
    assert_eq!(rt; raster.cut(cell, 0), up);
    assert_eq!(rt; raster.cut(cell, 1), right);
    assert_eq!(rt; raster.cut(cell, 2), down);
    assert_eq!(rt; raster.cut(cell, 3), left);
}

#[test]
fn three_wide(rt: HostRuntime) -> Result<(), Fail> {
    let raster = Raster::over(Cells {
        bytes: &[2, 9, 2, 2, 2, 2],
        width: 3,
        height: 2,
        start: 0,
        goal: 2,
    })?;
    check_cuts(&rt, &raster, 0, [None, Some((1, 9)), Some((3, 2)), None]);
    check_cuts(
        &rt,
        &raster,
        4,
        [Some((1, 9)), Some((5, 2)), None, Some((3, 2))],
    );
    assert_eq!(rt; raster.estimate(0), 4);
    assert_eq!(rt; raster.estimate(3), 6);
    Ok(())
}

#[test]
fn two_cells(rt: HostRuntime) -> Result<(), Fail> {
    let raster = Raster::over(Cells {
        bytes: &[7, 3],
        width: 2,
        height: 1,
        start: 0,
        goal: 1,
    })?;
    check_cuts(&rt, &raster, 0, [None, Some((1, 3)), None, None]);
    assert_eq!(rt; raster.cut(0, 4), None);
    assert_eq!(rt; raster.places(2), 0);
    assert_eq!(rt; raster.estimate(2), 0);
    Ok(())
}

#[test]
fn one_wide_with_kept_wood(rt: HostRuntime) -> Result<(), Fail> {
    let raster = Raster::over(Cells {
        bytes: &[3, 0, 5],
        width: 1,
        height: 3,
        start: 0,
        goal: 2,
    })?;
    check_cuts(&rt, &raster, 0, [None, None, None, None]);
    check_cuts(&rt, &raster, 1, [Some((0, 3)), None, Some((2, 5)), None]);
    assert_eq!(rt; raster.estimate(1), 3);
    Ok(())
}

#[test]
fn one_high(rt: HostRuntime) -> Result<(), Fail> {
    let raster = Raster::over(Cells {
        bytes: &[1, 2, 3],
        width: 3,
        height: 1,
        start: 2,
        goal: 0,
    })?;
    check_cuts(&rt, &raster, 1, [None, Some((2, 3)), None, Some((0, 1))]);
    Ok(())
}

#[test]
fn the_largest(rt: HostRuntime) -> Result<(), Fail> {
    let raster = Raster::over(Cells {
        bytes: &[255; 1024],
        width: 32,
        height: 32,
        start: 0,
        goal: 1023,
    })?;
    assert_eq!(rt; raster.estimate(0), 62 * 255);
    Ok(())
}

// Two cells in a line, from one to the other.
const TWO: Cells<'static> = Cells {
    bytes: &[1, 1],
    width: 2,
    height: 1,
    start: 0,
    goal: 1,
};

#[test]
fn shapes_that_are_refused(rt: HostRuntime) {
    let none = Cells {
        bytes: &[],
        width: 0,
        height: 5,
        ..TWO
    };
    assert_eq!(rt; refusal(none), Some(Refusal::WrongShape));
    let one = Cells {
        bytes: &[1],
        width: 1,
        goal: 0,
        ..TWO
    };
    assert_eq!(rt; refusal(one), Some(Refusal::WrongShape));
    let too_many = Cells {
        bytes: &[1; 1025],
        width: 1025,
        ..TWO
    };
    assert_eq!(rt; refusal(too_many), Some(Refusal::WrongShape));
    // in 32 bits the area would be 2
    let too_wide = Cells {
        width: 0x8000_0001,
        height: 2,
        ..TWO
    };
    assert_eq!(rt; refusal(too_wide), Some(Refusal::WrongShape));
}

#[test]
fn ends_that_are_refused(rt: HostRuntime) {
    let outside = Cells { start: 2, ..TWO };
    assert_eq!(rt; refusal(outside), Some(Refusal::BadEnds));
    let equal = Cells { start: 1, ..TWO };
    assert_eq!(rt; refusal(equal), Some(Refusal::BadEnds));
    let kept = Cells {
        bytes: &[0, 1],
        ..TWO
    };
    assert_eq!(rt; refusal(kept), Some(Refusal::BadEnds));
}
