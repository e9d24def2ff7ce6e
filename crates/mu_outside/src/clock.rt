// A clock.
ghost use Rattle.std.specs.Prelude.{◌≡◌, ◌∷◌, ◌++◌, [], ℕ, Option, Some, IfSome, List};

/// A clock, which may answer any value.
pub trait Clock {
    /// The values answered so far, where they are told.
    ghost answered: { Self → Option (List ℕ) };

    /// The moment, in milliseconds.
    fn now(&mut self) -> u64
        ensures { IfSome (answered self.new) (λ after. (before : List ℕ) × (answered self.old ≡ Some before) × (after ≡ before ++ result ∷ [])) };
}
