use ports::{Gate, PairGate};
use std::test::Fail;
use std::thread::join;

#[test]
fn two_workers_meet_in_their_first_turns(rt: HostRuntime) -> Result<(), Fail> {
    let gate = PairGate::new();
    gate.turn(0, 1);
    gate.turn(2, 0);
    assert!(rt; !gate.met());
    join(&rt, || gate.turn(0, 0), || gate.turn(1, 0));
    assert!(rt; gate.met());
    Ok(())
}
