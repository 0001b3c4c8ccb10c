//! Walks over keepers in memory whose calls fail.
use std::alloc::Global;
use std::test::Fail;
use test_player::{Plan, play_failing};

const FOUND: &str = "keeper Walk /q => found 1 left 1\n";

const BOTH_FAIL: &str = "\
keeper Walk /q => fault Store
keeper Walk /q => fault Store
";

const SECOND_FAILS: &str = "\
keeper Walk /q => found 1 left 1
keeper Walk /q => fault Store
";

const NONE_FAILS: &str = "\
keeper Walk /q => found 1 left 1
keeper Walk /q => found 1 left 1
";

const FIRST_FAILS: &str = "\
keeper Walk /q => fault Store
keeper Walk /q => found 1 left 1
";

// Two walks over a keeper whose calls fail, and one over what it keeps.
fn walks(alloc: Global, passing: u64, alone: bool, script: &str) -> Result<(), Fail> {
    play_failing(alloc, &[], Plan { passing, alone }, &[script], &[FOUND])
}

#[test]
fn walk_over_failing_keepers(rt: HostRuntime) -> Result<(), Fail> {
    for (passing, script) in [
        (0, BOTH_FAIL),
        (1, BOTH_FAIL),
        (2, SECOND_FAILS),
        (3, SECOND_FAILS),
        (4, NONE_FAILS),
    ] {
        walks(rt.alloc(), passing, false, script)?;
    }
    Ok(())
}

#[test]
fn walk_over_one_failure(rt: HostRuntime) -> Result<(), Fail> {
    walks(rt.alloc(), 1, true, FIRST_FAILS)
}
