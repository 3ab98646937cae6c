//! Four threads over one cell.
use crate::jobs::race_of_four;
use std::test::Fail;

/// Of 200 entries each of four passes takes each once, and one wins, on every schedule.
#[test]
fn four_threads_share_and_take(rt: HostRuntime) -> Result<(), Fail> {
    let Some((got, wins)) = race_of_four(&rt, rt.alloc()) else {
        panic!(rt; "no memory")
    };
    assert_eq!(rt; got, 800);
    assert_eq!(rt; wins, 1);
    Ok(())
}
