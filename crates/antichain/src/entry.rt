ghost use Rattle.std.specs.Prelude.{◌≡◌, ℕ, Bool};
ghost use Rattle.antichain.specs.Entries.{Rules};

// A kind of entry: a set at a level, with whatever else the entry carries.
pub trait Entry: Copy {
    ghost level: { Self → ℕ };

    // The set number.
    ghost set: { Self → ℕ };

    ghost covers: { Self → Self → Bool };

    ghost before: { Self → Self → Bool };

    fn level(&self) -> u8
        ensures { result ≡ level self.now };

    fn covers(&self, other: &Self) -> bool
        ensures { result ≡ covers self.now other.now };

    // Whether this one comes first in canonical order.
    fn before(&self, other: &Self) -> bool
        ensures { result ≡ before self.now other.now };

    ghost rules: { Rules level set covers before };
}
