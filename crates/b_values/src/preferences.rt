ghost use Rattle.std.specs.Prelude.{◌≡◌, ◌↔◌, IsTrue};
ghost use Rattle.b_values.specs.Preferences.{AreInRange, IsBetween, IsBetweenInts, default_prefs};

use crate::types::Prefs;

impl Default for Prefs {
    ghost is_default = { λ prefs. prefs ≡ default_prefs };

    fn default() -> Prefs {
        Prefs {
            minint: -1,
            maxint: 3,
            max_operations: 10,
            max_initialisations: 4,
            default_setsize: 2,
            cache_steps: 1_000,
            cache_values: 10_000,
        }
    }
}

impl Prefs {
    /// Whether each preference is in its range, as every call asks that is handed preferences.
    pub fn are_in_range(&self) -> bool
        ensures { IsTrue result ↔ AreInRange self.now }
    {
        is_between_ints(self.minint, -1_000_000_000, 0)
            && is_between_ints(self.maxint, 1, 1_000_000_000)
            && is_between(self.max_operations, 1, 1_000)
            && is_between(self.max_initialisations, 1, 1_000)
            && is_between(self.default_setsize, 1, 1_000)
            && is_between(self.cache_steps, 1, 1_000_000)
            && is_between(self.cache_values, 1, 1_000_000)
    }
}

fn is_between(n: u64, low: u64, high: u64) -> bool
    ensures { IsTrue result ↔ IsBetween low high n }
{
    low <= n && n <= high
}

fn is_between_ints(n: i128, low: i128, high: i128) -> bool
    ensures { IsTrue result ↔ IsBetweenInts low high n }
{
    low <= n && n <= high
}
