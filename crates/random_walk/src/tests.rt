use crate::Walk;
use std::test::Fail;

const WORDS: u64 = 1 << 32;

// The first words of some seeds, by the published definitions of Pcg32 and of seed_from_u64, computed apart from this
// program. Those of seed 0 are the two halves of the reference value 18195738587432868099.
const FIRST_WORDS: [(u64, [u64; 5]); 4] = [
    (
        0,
        [298703107, 4236525527, 336081875, 1056616254, 1060453275],
    ),
    (
        1,
        [866585574, 2109535214, 3403630417, 296513984, 4177522235],
    ),
    (
        7,
        [2442223337, 414063806, 2743600285, 3524868804, 2371632060],
    ),
    (
        u64::MAX,
        [2553256318, 1362994822, 3759657484, 3366838333, 2323195082],
    ),
];

#[test]
fn words_of_seeds(rt: HostRuntime) -> Result<(), Fail> {
    for (seed, words) in FIRST_WORDS {
        let mut walk = Walk::new(seed);
        for word in words {
            assert_eq!(rt; walk.choose(WORDS), word);
        }
    }
    Ok(())
}

#[test]
fn a_choice_is_a_word_modulo_n(rt: HostRuntime) -> Result<(), Fail> {
    let mut walk = Walk::new(7);
    assert_eq!(rt; walk.choose(10), 7);
    assert_eq!(rt; walk.choose(1), 0);
    assert_eq!(rt; walk.choose(1000), 285);
    assert_eq!(rt; walk.choose(u64::MAX), 3524868804);
    Ok(())
}
