//! Draws and a script that were worked out by hand, and a script that another program made.
use crate::draws::Draws;
use crate::{Tally, lines_behind, script};
use std::test::Fail;

#[test]
fn draws_of_seed_1(rt: HostRuntime) {
    let mut draws = Draws::new(1);
    for want in [908_834_774, 1_093_944_153, 1_392_341_196] {
        assert_eq!(rt; draws.draw(), want);
    }
}

#[test]
fn one_line(rt: HostRuntime) -> Result<(), Fail> {
    let line = script(rt.alloc(), 1, 1)?;
    let want = b"format 4096 16\nmount\nwrite 857 52fd70cc\ncommit\nstat\nseize\n";
    assert!(rt; line.bytes() == want.as_slice());
    Ok(())
}

#[test]
fn each_kind_of_line(rt: HostRuntime) -> Result<(), Fail> {
    let line = script(rt.alloc(), 18_446_744_073_709_551_326, 9)?;
    let want =
        b"format 4096 16\nmount\ncommit\nread 4017\ncommit\nread 2529\ntrim 3032\nread 812\nwrite 1653 71687f60\nwrite 2945 06f65f34\nwrite 585 31eb4ab6\ncommit\nstat\nseize\n";
    assert!(rt; line.bytes() == want.as_slice());
    Ok(())
}

#[test]
fn replies_are_counted(rt: HostRuntime) {
    let told =
        b"formatted\nmounted 0\nok\nfull\ndata 62616420\nbad\nrange\nstat mapped 1 commit 0\n";
    let want = Tally {
        accepted: 5,
        refused: 3,
    };
    assert_eq!(rt; Tally::of(told), want);
    assert!(rt; lines_behind(told, 6) == b"range\nstat mapped 1 commit 0\n".as_slice());
    assert!(rt; lines_behind(told, 9).is_empty());
}
