//! Scripts that another program makes too.
use script_gen::script;
use std::alloc::{AllocError, Global};
use std::test::Fail;

/// The 64-bit FNV-1a hash.
fn hash(text: &[u8]) -> u64 {
    let mut hash: u64 = 0xcbf29ce484222325;
    for byte in text {
        hash = (hash ^ u64::from(*byte)).wrapping_mul(0x100000001b3);
    }
    hash
}

/// The length and the hash of the script of a seed and a size, if scripts have this size.
fn made(alloc: Global, seed: u64, size: u32) -> Result<Option<(usize, u64)>, AllocError> {
    if size < 1 || size > 2000 {
        return Ok(None);
    }
    let text = script(alloc, seed, size)?;
    Ok(Some((text.len(), hash(text.as_bytes()))))
}

/// Seeds and sizes, with the length and the hash of the script that `bench/generated.py` makes of them.
static SCRIPTS: [(u64, u32, usize, u64); 6] = [
    (1, 3, 2374, 8244383417171342181),
    (7, 20, 12614, 377814381285699642),
    (0, 1, 1209, 11726187872613511539),
    (18446744073709551615, 7, 4699, 5765432514082638521),
    (123456789, 200, 127212, 16938095475751329598),
    (7, 2000, 1338794, 10280112693932888167),
];

#[test]
fn makes_what_another_program_makes(rt: HostRuntime) -> Result<(), Fail> {
    for row in SCRIPTS.iter() {
        let (seed, size, len, sum) = *row;
        assert_eq!(rt; made(rt.alloc(), seed, size)?, Some((len, sum)));
    }
    Ok(())
}
