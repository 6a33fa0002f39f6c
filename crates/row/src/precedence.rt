ghost use Rattle.std.specs.Prelude.{◌≡◌, Bool, true};

/// A kind of entry with a total precedence.
pub trait Precedence: Copy {
    /// One entry stands ahead of another: the relation, in the subject's own words.
    ghost Precedes: { Self → Self → Type 0 };

    /// Two entries that precedence does not tell apart.
    ghost Alike: { Self → Self → Type 0 };

    /// `Precedes` as a test.
    ghost test: { Self → Self → Bool };

    /// Whether this entry precedes another.
    fn precedes(&self, other: &Self) -> bool
        ensures { result ≡ test self.now other.now };

    ghost test_says_precedes: { (x y : Self) → test x y ≡ true → Precedes x y };

    ghost precedes_passes_test: { (x y : Self) → Precedes x y → test x y ≡ true };

    ghost one_way: { (x y : Self) → Precedes x y → Precedes y x → ⊥ };

    ghost not_preceding_carries: { (x y z : Self) → (Precedes x y → ⊥) → (Precedes y z → ⊥) → Precedes x z → ⊥ };

    ghost total: { (x y : Self) → (Precedes x y → ⊥) → (Precedes y x → ⊥) → Alike x y };
}
