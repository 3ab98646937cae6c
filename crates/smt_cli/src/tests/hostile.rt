//! Scripts that nobody writes by hand: deep, wide, with very many levels, at the range's ends.
use ports::{MemSink, MemSource, OpenGate};
use smt_top::run;
use std::alloc::{AllocError, Global};
use std::test::Fail;

/// A part of a script.
#[derive(Clone, Copy)]
enum Part {
    Once(&'static [u8]),
    /// So many times the same bytes.
    Repeated(u32, &'static [u8]),
    /// Bytes around each number below this one.
    Numbered(u32, &'static [u8], &'static [u8]),
}

/// Writes a number with six digits.
fn put_number(script: &mut Vec<u8>, number: u32) -> Result<(), AllocError> {
    for power in [100_000, 10_000, 1000, 100, 10, 1] {
        script.push(b'0' + (number / power % 10) as u8)?;
    }
    Ok(())
}

fn put_part(script: &mut Vec<u8>, part: Part) -> Result<(), AllocError> {
    match part {
        Part::Once(bytes) => script.extend_from_slice(bytes),
        Part::Repeated(count, bytes) => {
            for _ in 0..count {
                script.extend_from_slice(bytes)?;
            }
            Ok(())
        }
        Part::Numbered(count, before, after) => {
            for number in 0..count {
                script.extend_from_slice(before)?;
                put_number(script, number)?;
                script.extend_from_slice(after)?;
            }
            Ok(())
        }
    }
}

fn script_of(alloc: Global, parts: &[Part]) -> Result<Vec<u8>, AllocError> {
    let mut script = Vec::new(alloc);
    for part in parts {
        put_part(&mut script, *part)?;
    }
    Ok(script)
}

const QUIET: Part = Part::Once(b"(set-option :print-success false)");

/// The parts of scripts, the status at the end, and what is written.
static SCRIPTS: [(&'static [Part], u8, &'static [u8]); 7] = [
    (
        &[Part::Once(b"(assert "), Part::Repeated(10_000, b"(not ")],
        1,
        b"(error \"E4 nesting past 10000 at byte 50003\")\n",
    ),
    (
        &[
            QUIET,
            Part::Once(b"(assert "),
            Part::Repeated(9_999, b"(not "),
            Part::Once(b"true"),
            Part::Repeated(9_999, b")"),
            Part::Once(b")(check-sat)"),
        ],
        0,
        b"unsat\n",
    ),
    (
        &[
            QUIET,
            Part::Once(b"(assert "),
            Part::Repeated(9_998, b"(not "),
            Part::Once(b"true"),
            Part::Repeated(9_998, b")"),
            Part::Once(b")(check-sat)"),
        ],
        0,
        b"sat\n",
    ),
    (
        &[
            QUIET,
            Part::Once(
                b"(declare-const p Bool)(declare-const q Bool)(declare-const r Bool)(assert (distinct p q r))(check-sat)",
            ),
        ],
        0,
        b"unsat\n",
    ),
    (
        &[
            QUIET,
            Part::Once(b"(declare-sort U 0)"),
            Part::Numbered(300, b"(declare-const a", b" U)"),
            Part::Once(b"(assert (distinct"),
            Part::Numbered(300, b" a", b""),
            Part::Once(b"))(check-sat)(assert (= a000000 a000299))(check-sat)"),
        ],
        0,
        b"sat\nunsat\n",
    ),
    (
        &[
            QUIET,
            Part::Once(b"(declare-const p Bool)"),
            Part::Repeated(65_535, b"(push 1)(assert p)"),
            Part::Once(b"(check-sat)(pop 65535)(assert (not p))(check-sat)"),
        ],
        0,
        b"sat\nsat\n",
    ),
    (
        &[
            QUIET,
            Part::Once(
                b"(set-option :produce-models true)(declare-const x Int)(assert (= x (- 170141183460469231731687303715884105727)))(check-sat)(get-value (x (- x)))(get-value ((- x 1)))",
            ),
        ],
        1,
        b"sat\n((x (- 170141183460469231731687303715884105727)) ((- x) 170141183460469231731687303715884105727))\n(error \"E22 value past 128 bits\")\n",
    ),
];

#[test]
fn answers_scripts_of_many_parts(rt: HostRuntime) -> Result<(), Fail> {
    let alloc = rt.alloc();
    let mut words = Vec::new(alloc);
    words.push(String::from_str(alloc, "smt_cli")?)?;
    for row in SCRIPTS.iter() {
        let (parts, status, want) = *row;
        let mut source = MemSource::new(script_of(alloc, parts)?, 4096, Vec::new(alloc));
        let mut sink = MemSink::new(alloc, 400, Vec::new(alloc))?;
        let ended = run(&rt, alloc, &words, &mut source, &mut sink, &OpenGate);
        assert_eq!(rt; ended.status, status);
        assert_eq!(rt; sink.written(), want);
    }
    Ok(())
}
