use smt_meaning::Settings;
use smt_words::{Generated, Invocation, WordsError};
use std::alloc::{AllocError, Global};
use std::test::Fail;

// The words of a line, cut at single spaces; an empty line has none.
fn words_of(alloc: Global, line: &str) -> Result<Vec<String>, AllocError> {
    let mut words = Vec::new(alloc);
    if !line.is_empty() {
        for word in line.split(' ') {
            words.push(String::from_str(alloc, word)?)?;
        }
    }
    Ok(words)
}

/// Workers, units, share and seed.
type Numbers = (u8, u64, u8, u64);

const MOST: u64 = 18446744073709551615;

/// Lines, and what they set, where they aren't refused.
static LINES: [(&'static str, Option<Numbers>); 39] = [
    ("", Some((4, 0, 8, 0))),
    ("smt_cli", Some((4, 0, 8, 0))),
    ("another_name", Some((4, 0, 8, 0))),
    ("smt_cli --workers 3", Some((3, 0, 8, 0))),
    ("smt_cli --units 100", Some((4, 100, 8, 0))),
    ("smt_cli --share 5", Some((4, 0, 5, 0))),
    ("smt_cli --seed 9", Some((4, 0, 8, 9))),
    (
        "smt_cli --seed 9 --share 5 --units 100 --workers 3",
        Some((3, 100, 5, 9)),
    ),
    ("smt_cli --workers=3", Some((3, 0, 8, 0))),
    ("smt_cli --workers 1", Some((1, 0, 8, 0))),
    ("smt_cli --workers 16", Some((16, 0, 8, 0))),
    ("smt_cli --workers 0", None),
    ("smt_cli --workers 17", None),
    ("smt_cli --share 0", Some((4, 0, 0, 0))),
    ("smt_cli --share 64", Some((4, 0, 64, 0))),
    ("smt_cli --share 65", None),
    (
        "smt_cli --units 18446744073709551615",
        Some((4, MOST, 8, 0)),
    ),
    ("smt_cli --units 18446744073709551616", None),
    ("smt_cli --seed 18446744073709551615", Some((4, 0, 8, MOST))),
    ("smt_cli --seed 18446744073709551616", None),
    ("smt_cli --seed -1", None),
    ("smt_cli --seed=-1", None),
    ("smt_cli --workers 3 --workers 3", None),
    ("smt_cli --workers", None),
    ("smt_cli --workers=", None),
    ("smt_cli --workers x", None),
    ("smt_cli --workers 3 4", None),
    ("smt_cli --worker 3", None),
    ("smt_cli --threads 3", None),
    ("smt_cli -w 3", None),
    ("smt_cli gen", None),
    ("smt_cli help", None),
    ("smt_cli --help", None),
    ("smt_cli -h", None),
    ("smt_cli --version", None),
    ("smt_cli -V", None),
    ("smt_cli --", Some((4, 0, 8, 0))),
    ("smt_cli -- gen", None),
    ("smt_cli -- --workers 3", None),
];

fn settings(numbers: Numbers) -> Settings {
    let (workers, units, share, seed) = numbers;
    Settings {
        workers,
        units: i128::from(units),
        share,
        seed,
    }
}

/// Whether this comes of the words: a run with these settings, of no script that is made, or a refusal.
fn is_wanted(found: &Result<Invocation, WordsError>, numbers: Option<Numbers>) -> bool {
    match (found, numbers) {
        (Ok(invocation), Some(numbers)) => {
            invocation.settings == settings(numbers) && invocation.generated.is_none()
        }
        (Err(WordsError::Refused), None) => true,
        _ => false,
    }
}

#[test]
fn words_give_settings_or_are_refused(rt: HostRuntime) -> Result<(), Fail> {
    for row in LINES.iter() {
        let (line, numbers) = *row;
        let words = words_of(rt.alloc(), line)?;
        let found = Invocation::from_words(rt.alloc(), &words);
        assert!(rt; is_wanted(&found, numbers), "{line}");
    }
    Ok(())
}

const DEFAULTS: Numbers = (4, 0, 8, 0);

/// Lines with `gen`, and what they set with its seed and size, where they aren't refused.
static SCRIPTS: [(&'static str, Option<(Numbers, u64, u32)>); 24] = [
    ("smt_cli gen --seed 7 --size 20", Some((DEFAULTS, 7, 20))),
    ("smt_cli gen --size 20 --seed 7", Some((DEFAULTS, 7, 20))),
    ("smt_cli gen --seed=7 --size=1", Some((DEFAULTS, 7, 1))),
    (
        "smt_cli gen --seed 0 --size 2000",
        Some((DEFAULTS, 0, 2000)),
    ),
    (
        "smt_cli gen --seed 18446744073709551615 --size 5",
        Some((DEFAULTS, MOST, 5)),
    ),
    (
        "smt_cli --workers 2 gen --seed 1 --size 3",
        Some(((2, 0, 8, 0), 1, 3)),
    ),
    (
        "smt_cli --seed 9 --share 5 --units 100 --workers 3 gen --seed 1 --size 3",
        Some(((3, 100, 5, 9), 1, 3)),
    ),
    ("smt_cli gen --seed 7 --size 0", None),
    ("smt_cli gen --seed 7 --size 2001", None),
    ("smt_cli gen --seed 7 --size -1", None),
    ("smt_cli gen --seed 7 --size x", None),
    ("smt_cli gen --seed 18446744073709551616 --size 5", None),
    ("smt_cli gen --seed 7", None),
    ("smt_cli gen --size 7", None),
    ("smt_cli gen", None),
    ("smt_cli gen --seed 7 --size 20 20", None),
    ("smt_cli gen --seed 7 --size 20 gen", None),
    ("smt_cli gen --seed 7 --size 20 --size 20", None),
    ("smt_cli gen --seed 7 --size 20 --workers 2", None),
    ("smt_cli gen --seed 7 --size 20 --help", None),
    ("smt_cli gen help", None),
    ("smt_cli gen gen", None),
    ("smt_cli --seed gen", None),
    ("smt_cli genr --seed 7 --size 20", None),
];

/// Whether this comes of the words: a run with these settings, of the script of this seed and size, or a refusal.
fn is_script(found: &Result<Invocation, WordsError>, wanted: Option<(Numbers, u64, u32)>) -> bool {
    match (found, wanted) {
        (
            Ok(
                Invocation {
                    settings: given,
                    generated: Some(Generated { seed, size }),
                },
            ),
            Some((numbers, of_seed, of_size)),
        ) => *given == settings(numbers) && *seed == of_seed && *size == of_size,
        (Err(WordsError::Refused), None) => true,
        _ => false,
    }
}

#[test]
fn words_ask_for_a_script_or_are_refused(rt: HostRuntime) -> Result<(), Fail> {
    for row in SCRIPTS.iter() {
        let (line, wanted) = *row;
        let words = words_of(rt.alloc(), line)?;
        let found = Invocation::from_words(rt.alloc(), &words);
        assert!(rt; is_script(&found, wanted), "{line}");
    }
    Ok(())
}
