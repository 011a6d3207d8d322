use base_core::Memory;
use modules_certificate::{Certificate, Difference, check, make};
use std::alloc::{AllocError, Global};
use std::test::Fail;

/// The needs of outputs, the certificate that is made for them, other needs, and whether it is one for these too.
struct Made {
    needs: &'static [u64],
    representatives: &'static [u8],
    differ: &'static [Difference],
    others: &'static [u64],
    is_for_others: bool,
}

/// The first two representatives differ in input 1.
const BY_INPUT_1: Difference = Difference {
    first: 0,
    second: 1,
    bit: 0,
};

const CERTIFICATES: &[Made] = &[
    // Two outputs need the input, and one needs nothing.
    Made {
        needs: &[1, 1, 0],
        representatives: &[0, 2],
        differ: &[BY_INPUT_1],
        others: &[1, 1, 1],
        is_for_others: false,
    },
    Made {
        needs: &[1, 1, 0],
        representatives: &[0, 2],
        differ: &[BY_INPUT_1],
        others: &[1, 1],
        is_for_others: false,
    },
    // Each output needs an input of its own.
    Made {
        needs: &[1, 2],
        representatives: &[0, 1],
        differ: &[BY_INPUT_1],
        others: &[1, 2],
        is_for_others: true,
    },
];

/// Whether such a certificate is made; not for more than 32 outputs.
fn is_made(alloc: Global, expected: &Made) -> Result<bool, Memory> {
    let needs = expected.needs;
    if needs.len() > 32 {
        return Ok(false);
    }
    let made = make(alloc, needs)?;
    Ok(
        made.representatives.as_slice() == expected.representatives
            && made.differ.as_slice() == expected.differ
            && check(needs, &made)
            && check(expected.others, &made) == expected.is_for_others,
    )
}

#[test]
fn classes_of_outputs(rt: HostRuntime) -> Result<(), Fail> {
    for expected in CERTIFICATES {
        assert!(rt; is_made(rt.alloc(), expected)?, "{:?}", expected.others);
    }
    Ok(())
}

/// Whether the pairs with these bits are a certificate for three outputs.
fn is_sound(alloc: Global, pairs: &[(u8, u8, u8)]) -> Result<bool, AllocError> {
    let mut differ = Vec::new(alloc);
    for &(first, second, bit) in pairs {
        differ.push(Difference { first, second, bit })?;
    }
    let representatives = [0, 1, 2].to_vec(alloc)?;
    let c = Certificate {
        representatives,
        differ,
    };
    Ok(check(&[1, 2, 1 << 33], &c))
}

#[test]
fn pairs_in_order(rt: HostRuntime) -> Result<(), Fail> {
    for &(pairs, expected) in &[
        ([(0, 1, 1), (0, 2, 33), (1, 2, 1)], true),
        ([(0, 1, 1), (1, 2, 1), (0, 2, 33)], false),
        ([(0, 1, 1), (0, 2, 64), (1, 2, 1)], false),
        ([(0, 1, 1), (0, 2, 33), (1, 2, 0)], false),
    ] {
        assert_eq!(rt; is_sound(rt.alloc(), &pairs)?, expected);
    }
    Ok(())
}
