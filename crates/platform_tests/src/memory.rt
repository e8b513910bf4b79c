//! The platform in memory: a loss of power, and calls that are to fail.
use crate::script::first_unlike;
use medium_trace::Pages;
use platform::{CallKind, Failure, MemPlatform, Platform};
use sdbt_base::{RECORD, ROOT};
use std::alloc::Global;
use std::test::Fail;

/// The place of the first line of a script that does not come true, or `None`.
fn unlike(platform: &mut MemPlatform, alloc: Global, script: &str) -> Option<usize> {
    first_unlike(platform, alloc, script)
}

/// A loss of power that tears one page, if it can be torn.
fn cut(platform: &mut MemPlatform, addr: u64) -> bool {
    if addr >= platform.synced() && addr < platform.head() {
        platform.power_cut(&[addr]);
        true
    } else {
        false
    }
}

/// What a platform has recorded and synced, and how many reads it made and how often there was no memory.
fn counts(platform: &MemPlatform) -> [u64; 4] {
    [
        platform.recorded().len() as u64,
        platform.synced(),
        platform.reads(),
        platform.starved(),
    ]
}

#[test]
fn a_loss_of_power_tears_what_was_not_synced(rt: HostRuntime) {
    let mut platform = MemPlatform::blank(rt.alloc(), 2);
    let before =
        "append 1: at 0\nsync: done\nappend 2: at 1\nappend 3: full\nswap 4: done\nread 1: 2 2";
    assert_eq!(rt; unlike(&mut platform, rt.alloc(), before), None);
    assert!(rt; cut(&mut platform, 1));
    let after = "read 0: 1 1\nread 1: 0 0";
    assert_eq!(rt; unlike(&mut platform, rt.alloc(), after), None);
    assert!(rt; platform.cell() == Some([4; ROOT]));
    assert_eq!(rt; counts(&platform), [2, 1, 3, 0]);
}

/// A platform with a page of 5, a root record of 6 and room for two pages more. The calls of these numbers of their kind fail,
/// with or without their effect.
fn failing(alloc: Global, list: &[(CallKind, u64, bool)]) -> Option<MemPlatform> {
    let mut pages = Pages::new(alloc);
    pages.push(&[5; RECORD]).ok()?;
    if pages.len() > 3 {
        return None;
    }
    let mut failures = Vec::new(alloc);
    for (call, nth, effect) in list {
        let failure = Failure {
            call: *call,
            nth: *nth,
            effect: *effect,
        };
        failures.push(failure).ok()?;
    }
    let mut platform = MemPlatform::from_parts(alloc, pages, Some([6; ROOT]), 3);
    platform.set_failures(&failures).ok()?;
    Some(platform)
}

/// The first append is recorded all the same.
const FAILING: &str = "\
append 7: fault
append 7: fault
head: 2
swap 8: fault
clear: fault
load: root 8
load: fault
clear: done
load: empty";

#[test]
fn listed_calls_fail(rt: HostRuntime) -> Result<(), Fail> {
    let list = [
        (CallKind::Append, 1, true),
        (CallKind::Append, 2, false),
        (CallKind::Swap, 1, true),
        (CallKind::Clear, 1, false),
        (CallKind::Load, 2, false),
    ];
    let mut platform = failing(rt.alloc(), &list).ok_or("no platform")?;
    assert_eq!(rt; unlike(&mut platform, rt.alloc(), FAILING), None);
    Ok(())
}
