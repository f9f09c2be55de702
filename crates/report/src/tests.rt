use super::*;
use std::process::Abort;
use std::test::Fail;

fn prints(rt: &(impl Abort + AllocGlobal), text: &[u8], wanted: &str) -> Result<(), Fail> {
    let out = answer(rt.alloc(), text)?;
    assert_eq!(rt; out.as_str(), wanted);
    Ok(())
}

#[test]
fn orders_are_answered(rt: HostRuntime) -> Result<(), Fail> {
    prints(
        &rt,
        b"(last 4 (start 0) (goal 3))\n(from 0 (1 30) (2 50))\n(from 1 (3 60))\n(from 2 (3 20))\n(from 3)\n(estimates 40 10 20 0)\n(ratio 3 2)\n(work 1)\n(work 2)\n(show)\n(ratio 1 1)\n(work 5)\n(route)\n(work 70000)\n",
        "ratio ok\nwork spent 1\nwork met 1\nshow 90 70 2\nratio ok\nwork done 1\nroute 70 70 0 2 3\nwork refused 18\n",
    )
}

#[test]
fn refusals_alter_nothing(rt: HostRuntime) -> Result<(), Fail> {
    prints(
        &rt,
        b"(last 2 (start 0) (goal 1))\n(from 0 (1 30))\n(from 1)\n(estimates 30 0)\n(route)\n(ratio 2 3)\n(ceiling 1023001)\n(show)\n(ceiling 29)\n(work 9)\n(show)\n(route)\n",
        "route refused 31\nratio refused 13\nceiling refused 36\nshow none 30 0\nceiling ok\nwork done 0\nshow none 30 0\nroute refused 31\n",
    )
}

#[test]
fn marks_and_forms_are_faulted(rt: HostRuntime) -> Result<(), Fail> {
    prints(&rt, b"", "fault 2 3 0\n")?;
    prints(&rt, b"(Last", "fault 1 1 1\n")?;
    prints(&rt, b"(last 07", "fault 1 2 6\n")?;
    prints(&rt, b"(last2", "fault 2 3 5\n")?;
    prints(&rt, b"(last 1 (start 0) (goal 0))\n", "fault 3 5 0\n")
}

#[test]
fn tables_are_faulted(rt: HostRuntime) -> Result<(), Fail> {
    prints(
        &rt,
        b"(last 2 (start 0) (goal 2))\n(from 0 (1 9))\n(from 1)\n(estimates 9 0)\n",
        "fault 3 6 0\n",
    )?;
    prints(
        &rt,
        b"(last 2 (start 0) (goal 1))\n(from 0 (0 9))\n(from 1)\n(estimates 9 0)\n",
        "fault 3 7 0\n",
    )?;
    prints(
        &rt,
        b"(last 2 (start 0) (goal 1))\n(from 0 (1 0))\n(from 1)\n(estimates 9 0)\n",
        "fault 3 8 0\n",
    )?;
    prints(
        &rt,
        b"(last 2 (start 0) (goal 1))\n(from 0 (1 9))\n(from 1)\n(estimates 9 1)\n",
        "fault 3 9 1\n",
    )?;
    prints(
        &rt,
        b"(last 2 (start 0) (goal 1))\n(from 0 (1 9))\n(from 1)\n(estimates 10 0)\n",
        "fault 3 10 0\n",
    )
}
