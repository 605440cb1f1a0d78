//! A count, and a list of numbers, that only contracts see: they take no byte, and their methods
//! give nothing that code could read.
ghost use Rattle.std.specs.Prelude.{◌≡◌, ℕ, ◌+◌, max};

mod trace;

use std::marker::Model;
use std::mem::size_of;
pub use trace::Trace;

const _: () = prove!(size_of::<Count>() == 0);

const _: () = prove!(size_of::<Trace>() == 0);

/// A number without a greatest value that contracts know and no code can read. Outside this crate
/// it begins at 0, and is only counted up or reset. It is the length of a list.
#[derive(Drop)]
pub struct Count {
    numbers: Trace,
}

impl Model for Count {
    ghost use Rattle.std.specs.Prelude.{ℕ, length};

    ghost Value = { ℕ };

    ghost view = { λ count. length count.numbers };
}

impl Count {
    /// Counts from 0.
    pub fn new() -> Count
        // The count is 0.
        ensures { result ≡ 0 }
    {
        Count {
            numbers: Trace::new(),
        }
    }

    /// A count of this number.
    #[inline(always)]
    pub fn same(&self) -> Count
        // The new count is equal to this one.
        ensures { result ≡ self.now }
    {
        Count {
            numbers: self.numbers.with(0, 0, 0),
        }
    }

    /// One more.
    #[inline(always)]
    pub fn raise(&mut self)
        // The count is one more than before.
        ensures { self.new ≡ self.old + 1 }
    {
        self.raise_by(1);
    }

    /// So many more.
    #[inline(always)]
    pub fn raise_by(&mut self, amount: usize)
        // The count is `amount` more than before.
        ensures { self.new ≡ self.old + amount }
    {
        self.numbers = self.numbers.with(0, amount, 0);
    }

    /// The greater of the number and `amount`.
    #[inline(always)]
    pub fn raise_to(&mut self, amount: usize)
        // The count is the greater of what it was and `amount`.
        ensures { self.new ≡ max self.old amount }
    {
        self.numbers = self.numbers.with(0, 0, amount);
    }

    /// From 0 again.
    #[inline(always)]
    pub fn reset(&mut self)
        // The count is 0.
        ensures { self.new ≡ 0 }
    {
        self.numbers = Trace::new();
    }
}
