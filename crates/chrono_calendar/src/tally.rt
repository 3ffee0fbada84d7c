//! A number that only proofs see, kept as ghost data.
ghost use Rattle.std.specs.Prelude.{◌≡◌, ℕ, ◌+◌};
ghost use Rattle.std.specs.Borrow.{ftrue};

use std::marker::Model;

// It takes no bytes.
#[derive(Drop)]
pub(crate) struct Tally {
    pub ghost count: { ℕ },
}

impl Model for Tally {
    ghost also_owns = { λ _. ftrue };
}

impl Tally {
    // The number 0.
    #[inline]
    pub(crate) fn new() -> Tally
        ensures { result.count ≡ 0 }
    {
        Tally {}
    }

    // The next number.
    #[inline]
    pub(crate) fn after(_before: &Tally) -> Tally
        ensures { result.count ≡ _before.now.count + 1 }
    {
        Tally {}
    }
}
