//! Runs whose checks are races of several workers.
use ports::{MemSink, MemSource, OpenGate, PairGate};
use smt_top::{run, run_within};
use std::alloc::{AllocError, Global};
use std::test::Fail;

/// Small scripts whose answers are forced, and these answers. In each the digits 1 to 5 come for `#`, so that each stands for five scripts.
static FORCED: [(&'static [u8], &'static [u8]); 20] = [
    (
        b"(declare-const p Bool)(assert p)(push #)(assert (not p))(check-sat)(pop #)(check-sat)",
        b"unsat\nsat\n",
    ),
    (
        b"(declare-const p Bool)(declare-const q Bool)(push #)(assert (or p q))(assert (or p (not q)))(assert (or (not p) q))(check-sat)(assert (or (not p) (not q)))(check-sat)",
        b"sat\nunsat\n",
    ),
    (
        b"(push #)(declare-const a Bool)(declare-const b Bool)(declare-const c Bool)(assert (xor a b c))(assert (= a b))(check-sat)(assert (not c))(check-sat)",
        b"sat\nunsat\n",
    ),
    (
        b"(push #)(declare-const a1 Bool)(declare-const a2 Bool)(declare-const b1 Bool)(declare-const b2 Bool)(declare-const c1 Bool)(declare-const c2 Bool)(assert (and (or a1 a2) (or b1 b2) (or c1 c2)))(assert (not (or (and a1 b1) (and a1 c1) (and b1 c1))))(check-sat)(assert (not (or (and a2 b2) (and a2 c2) (and b2 c2))))(check-sat)",
        b"sat\nunsat\n",
    ),
    (
        b"(push #)(declare-fun f (Int) Int)(assert (not (= (f #) (f #))))(check-sat)(pop #)(declare-fun f (Bool) Bool)(assert (f true))(check-sat)",
        b"unsat\nsat\n",
    ),
    (
        b"(declare-fun f (Int) Int)(declare-const x Int)(declare-const y Int)(push #)(assert (= x y))(assert (not (= (f (+ x #)) (f (+ y #)))))(check-sat)(pop #)(check-sat)",
        b"unsat\nsat\n",
    ),
    (
        b"(declare-sort S 0)(declare-fun f (S) S)(declare-const a S)(push #)(assert (= (f (f (f a))) a))(assert (= (f (f (f (f (f a))))) a))(check-sat)(assert (distinct (f a) a))(check-sat)",
        b"sat\nunsat\n",
    ),
    (
        b"(push #)(declare-fun f (Bool) Bool)(declare-const p Bool)(assert (distinct p (f p)))(check-sat)(assert (distinct (f (f (f p))) (f p)))(check-sat)",
        b"sat\nunsat\n",
    ),
    (
        b"(declare-sort S 0)(declare-const a S)(declare-const b S)(declare-const c S)(push #)(assert (or (= a b) (= a c)))(assert (distinct a b))(check-sat)(assert (distinct a b c))(check-sat)",
        b"sat\nunsat\n",
    ),
    (
        b"(declare-const x Int)(declare-const y Int)(assert (= (* 2 x) (+ (* 2 y) (* 4 #) 1)))(check-sat)",
        b"unsat\n",
    ),
    (
        b"(declare-fun f (Int) Int)(declare-const x Int)(declare-const y Int)(assert (<= x (+ y #)))(assert (<= (+ y #) x))(check-sat)(assert (distinct (f x) (f (+ y #))))(check-sat)",
        b"sat\nunsat\n",
    ),
    (
        b"(declare-fun f (Int) Int)(declare-const x Int)(assert (<= # x (+ # 1)))(assert (distinct (f x) (f #)))(check-sat)(assert (distinct (f x) (f (+ # 1))))(check-sat)",
        b"sat\nunsat\n",
    ),
    (
        b"(declare-const x Int)(declare-const y Int)(push #)(assert (< (* 3 x) (* 2 y)))(assert (< y x))(check-sat)",
        b"sat\n",
    ),
    (
        b"(declare-const x Int)(declare-const y Int)(assert (= x #))(assert (= y (+ x 1)))(check-sat)(get-value (x))(assert (not (= (- y 1) #)))(check-sat)",
        b"sat\n((x #))\nunsat\n",
    ),
    (
        b"(declare-const x Int)(declare-const y Int)(assert (and (<= 0 x #) (<= 0 y #)))(assert (= (+ x y) (+ # #)))(check-sat)(get-value (x y))(assert (distinct x y))(check-sat)",
        b"sat\n((x #) (y #))\nunsat\n",
    ),
    (
        b"(declare-const x Int)(declare-const y Int)(declare-const z Int)(assert (< x y z))(push 1)(assert (< z (+ x 2 #)))(check-sat)(pop 1)(assert (<= z (+ x 1)))(check-sat)",
        b"sat\nunsat\n",
    ),
    (
        b"(declare-const p Bool)(declare-const x Int)(declare-const y Int)(assert (= (ite p x y) #))(assert (=> p (= x (+ # 1))))(check-sat)(assert (or p (< y #)))(check-sat)",
        b"sat\nunsat\n",
    ),
    (
        b"(declare-fun f (Int) Int)(declare-const x Int)(declare-const y Int)(assert (= (f x) #))(assert (= (f y) (+ # 1)))(check-sat)(assert (= x y))(check-sat)",
        b"sat\nunsat\n",
    ),
    (
        b"(declare-fun g (Int Bool) Int)(declare-const p Bool)(declare-const x Int)(assert (= (g x p) #))(assert (< (g # true) (g x p)))(assert (= x #))(check-sat)(assert p)(check-sat)",
        b"sat\nunsat\n",
    ),
    (
        b"(declare-fun f (Int) Bool)(declare-const x Int)(assert (not (f #)))(assert (or (f x) (> x #)))(assert (< x (+ # 2)))(check-sat)(assert (=> (f x) (= x #)))(assert (distinct x (+ # 1)))(check-sat)",
        b"sat\nunsat\n",
    ),
];

/// Puts these bytes behind others, with this digit for each `#`.
fn put_with(text: &mut Vec<u8>, row: &[u8], digit: u8) -> Result<(), AllocError> {
    for byte in row.iter() {
        text.push(if *byte == b'#' { digit } else { *byte })?;
    }
    Ok(())
}

/// All small scripts, one after another, and what is written.
fn forced(alloc: Global) -> Result<(Vec<u8>, Vec<u8>), AllocError> {
    let mut script = Vec::new(alloc);
    let mut want = Vec::new(alloc);
    for digit in b'1'..=b'5' {
        for row in FORCED.iter() {
            let (commands, answers) = *row;
            script.extend_from_slice(
                b"(reset)(set-option :print-success false)(set-option :produce-models true)",
            )?;
            put_with(&mut script, commands, digit)?;
            want.extend_from_slice(b"success\n")?;
            put_with(&mut want, answers, digit)?;
        }
    }
    Ok((script, want))
}

/// The words of so many workers with this seed.
fn words_with(alloc: Global, workers: &str, seed: &str) -> Result<Vec<String>, AllocError> {
    let mut words = Vec::new(alloc);
    for word in ["smt_cli", "--workers", workers, "--seed", seed] {
        words.push(String::from_str(alloc, word)?)?;
    }
    Ok(words)
}

#[test]
fn forced_answers_are_those_of_all_workers(rt: HostRuntime) -> Result<(), Fail> {
    let alloc = rt.alloc();
    let (script, want) = forced(alloc)?;
    for workers in ["1", "4", "16"] {
        for seed in ["0", "1", "7", "1000", "18446744073709551615"] {
            let words = words_with(alloc, workers, seed)?;
            let bytes = script.as_slice().to_vec(alloc)?;
            let mut source = MemSource::new(bytes, 4096, Vec::new(alloc));
            let mut sink = MemSink::new(alloc, 4000, Vec::new(alloc))?;
            let ended = run(&rt, alloc, &words, &mut source, &mut sink, &OpenGate);
            assert_eq!(rt; ended.status, 0, "{workers} {seed}");
            assert_eq!(rt; sink.written(), want.as_slice(), "{workers} {seed}");
        }
    }
    Ok(())
}

/// Scripts whose replies are forced, whatever the number of workers, and what is written.
static ROWS: [(&'static [u8], &'static [u8]); 8] = [
    (
        b"(set-option :print-success false)(declare-const p Bool)(assert p)(assert (not p))(check-sat)",
        b"unsat\n",
    ),
    (
        b"(set-option :print-success false)(declare-const p Bool)(assert p)(push 1)(assert (not p))(check-sat)(pop 1)(check-sat)",
        b"unsat\nsat\n",
    ),
    (
        b"(set-option :print-success false)(push 1)(declare-fun f (Int) Int)(assert (not (= (f 0) (f 0))))(check-sat)(pop 1)(declare-fun f (Bool) Bool)(assert (f true))(check-sat)",
        b"unsat\nsat\n",
    ),
    (
        b"(set-option :print-success false)(declare-fun f (Int) Int)(declare-const x Int)(declare-const y Int)(assert (<= 1 x 2))(assert (distinct (f x) (f 1)))(assert (distinct (f x) (f 2)))(check-sat)",
        b"unsat\n",
    ),
    (
        b"(set-option :print-success false)(declare-const x Int)(declare-const y Int)(assert (= x 170141183460469231731687303715884105727))(assert (= y (+ x 1)))(check-sat)(get-info :reason-unknown)",
        b"unknown\n(:reason-unknown incomplete)\n",
    ),
    (
        b"(set-option :print-success false)(declare-const x Int)(declare-const y Int)(declare-const z Int)(assert (and (<= 0 x 100) (<= 0 y 100) (= z 1)))(assert (= (+ (- (* 2 x) (* 2 y)) z) 0))(check-sat)",
        b"unsat\n",
    ),
    (
        b"(set-option :print-success false)(set-option :produce-models true)(declare-const x Int)(declare-const y Int)(assert (and (<= 0 x 20) (<= 0 y 20)))(push 1)(assert (= (+ (* 3 x) (* 5 y)) 7))(check-sat)(pop 1)(assert (= (+ (* 3 x) (* 5 y)) 8))(check-sat)(get-value (x y))",
        b"unsat\nsat\n((x 1) (y 1))\n",
    ),
    (
        b"(set-option :print-success false)(declare-const p11 Bool)(declare-const p12 Bool)(declare-const p13 Bool)(declare-const p21 Bool)(declare-const p22 Bool)(declare-const p23 Bool)(declare-const p31 Bool)(declare-const p32 Bool)(declare-const p33 Bool)(declare-const p41 Bool)(declare-const p42 Bool)(declare-const p43 Bool)(assert (or p11 p12 p13))(assert (or p21 p22 p23))(assert (or p31 p32 p33))(assert (or p41 p42 p43))(assert (not (and p11 p21)))(assert (not (and p11 p31)))(assert (not (and p11 p41)))(assert (not (and p21 p31)))(assert (not (and p21 p41)))(assert (not (and p31 p41)))(assert (not (and p12 p22)))(assert (not (and p12 p32)))(assert (not (and p12 p42)))(assert (not (and p22 p32)))(assert (not (and p22 p42)))(assert (not (and p32 p42)))(assert (not (and p13 p23)))(assert (not (and p13 p33)))(assert (not (and p13 p43)))(assert (not (and p23 p33)))(assert (not (and p23 p43)))(assert (not (and p33 p43)))(check-sat)",
        b"unsat\n",
    ),
];

#[test]
fn replies_are_those_of_any_number_of_workers(rt: HostRuntime) -> Result<(), Fail> {
    let alloc = rt.alloc();
    for workers in ["1", "2", "4", "16"] {
        for row in ROWS.iter() {
            let (script, want) = *row;
            let words = words_with(alloc, workers, "0")?;
            let mut source = MemSource::new(script.to_vec(alloc)?, 4096, Vec::new(alloc));
            let mut sink = MemSink::new(alloc, 200, Vec::new(alloc))?;
            let ended = run(&rt, alloc, &words, &mut source, &mut sink, &OpenGate);
            assert_eq!(rt; ended.status, 0, "{workers}");
            assert_eq!(rt; sink.written(), want, "{workers}");
        }
    }
    Ok(())
}

/// Scripts in whose checks two workers meet, and what is written.
static MEETINGS: [(&'static [u8], &'static [u8]); 2] = [
    (
        b"(set-option :print-success false)(declare-const p Bool)(assert p)(push 1)(assert (not p))(check-sat)(pop 1)(check-sat)",
        b"unsat\nsat\n",
    ),
    (
        b"(set-option :print-success false)(declare-fun f (Int) Int)(declare-const x Int)(declare-const y Int)(assert (<= 1 x 2))(assert (distinct (f x) (f 1)))(assert (distinct (f x) (f 2)))(check-sat)",
        b"unsat\n",
    ),
];

#[test]
fn two_workers_meet_in_the_first_check(rt: HostRuntime) -> Result<(), Fail> {
    let alloc = rt.alloc();
    for row in MEETINGS.iter() {
        let (script, want) = *row;
        let words = words_with(alloc, "2", "0")?;
        let gate = PairGate::new();
        let mut source = MemSource::new(script.to_vec(alloc)?, 4096, Vec::new(alloc));
        let mut sink = MemSink::new(alloc, 200, Vec::new(alloc))?;
        let ended = run_within(&rt, alloc, 9, &words, &mut source, &mut sink, &gate);
        assert_eq!(rt; ended.status, 0);
        assert_eq!(rt; sink.written(), want);
        assert!(rt; gate.met());
    }
    Ok(())
}
