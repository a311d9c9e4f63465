ghost use Rattle.std.specs.Prelude.{◌≡◌, ◌<◌};
ghost use Rattle.rand_pcg.specs.Lcg.{Lcg};
ghost use Rattle.random_walk.specs.Choices.{walk_of, chosen};

use rand_core::SeedableRng;
use rand_core::utils::NextWord;
use rand_pcg::Pcg32;
use std::marker::Model;

/// A seeded row of choices. Contracts see the generator.
#[derive(Drop)]
pub struct Walk {
    generator: Pcg32,
}

impl Model for Walk {
    ghost Value = { Lcg };

    ghost view = { λ w. w.generator };
}

impl Walk {
    /// The generator Pcg32 that `seed_from_u64` makes. Takes no memory.
    pub fn new(seed: u64) -> Walk
        ensures { result ≡ walk_of seed }
    {
        Walk {
            generator: Pcg32::seed_from_u64(seed),
        }
    }

    /// A number below n: the next word of the generator, which is below 2^32, modulo n. Takes no memory.
    pub fn choose(&mut self, n: u64) -> u64
        requires { 0 < n }
        ensures choice { (result, self.new) ≡ chosen n self.old }
        ensures below { result < n }
    {
        u64::from(self.generator.next_word()) % n
    }
}
