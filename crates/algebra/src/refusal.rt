// Refusals and their numbers.
ghost use Rattle.std.specs.Prelude.{◌≡◌, ℕ};

// Why a call is refused; each reason has a number of its own.
pub trait Refusal: Copy {
    ghost number: { Self → ℕ };

    // The number of the refusal.
    fn code(self) -> u8
        ensures { result ≡ number self };

    // Two refusals with one number are the same.
    ghost distinct: { (a b : Self) → number a ≡ number b → a ≡ b };
}
