//! Faults of the source and of the sink, the budget, and words past the name.
use super::{Ends, calm, outcome};
use proof_form::Found;
use std::test::Fail;

/// 29 bytes, which come in five pieces of 7.
const SCRIPT: &[u8] = b"(check-sat)(get-proof)(() ())";

/// The calls of the source and of the sink that fail, how many bytes the sink then takes, what is found, the status, and what is written.
static FAULTS: [(u64, u64, usize, Option<Found>, u8, &'static [u8]); 8] = [
    (1, 0, 0, None, 3, b""),
    (4, 0, 0, None, 3, b""),
    (5, 0, 0, None, 3, b""),
    (6, 0, 0, Some(Found::No(0)), 1, b"no 0\n"),
    (0, 1, 0, Some(Found::No(0)), 4, b""),
    (0, 1, 3, Some(Found::No(0)), 4, b"no "),
    (0, 1, 9, Some(Found::No(0)), 4, b"no 0\n"),
    (0, 2, 0, Some(Found::No(0)), 1, b"no 0\n"),
];

#[test]
fn stops_at_faults(rt: HostRuntime) -> Result<(), Fail> {
    for row in FAULTS.iter() {
        let (read_fails, write_fails, cut, found, status, line) = *row;
        let ends = Ends {
            piece: 7,
            read_fails,
            write_fails,
            cut,
        };
        let (ended, written) = outcome(rt.alloc(), "smt_check", SCRIPT, 1 << 20, ends)?;
        assert_eq!(rt; ended.found, found);
        assert_eq!(rt; ended.status, status);
        assert_eq!(rt; written.as_slice(), line);
    }
    Ok(())
}

/// Budgets of calls, and the status. The last piece settles the proof.
static BUDGETS: [(u32, u8); 4] = [(0, 6), (1, 6), (4, 6), (5, 1)];

#[test]
fn stops_at_the_budget(rt: HostRuntime) -> Result<(), Fail> {
    for row in BUDGETS.iter() {
        let (budget, status) = *row;
        let (ended, written) = outcome(rt.alloc(), "smt_check", SCRIPT, budget, calm(7))?;
        assert_eq!(rt; ended.status, status);
        assert_eq!(rt; ended.found.is_none(), status == 6);
        assert_eq!(rt; written.is_empty(), status == 6);
    }
    Ok(())
}

#[test]
fn takes_no_words(rt: HostRuntime) -> Result<(), Fail> {
    for line in ["smt_check --seed", "smt_check x y"] {
        let (ended, written) = outcome(rt.alloc(), line, SCRIPT, 1 << 20, calm(7))?;
        assert_eq!(rt; ended.status, 2);
        assert_eq!(rt; ended.found, None);
        assert!(rt; written.is_empty());
    }
    Ok(())
}
