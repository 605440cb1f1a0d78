//! A list of numbers that only contracts see.
ghost use Rattle.std.specs.Prelude.{◌≡◌, ◌++◌, ◌∷◌, ◌-◌, [], List, ℕ, length, max, replicate, take};

use std::marker::Model;

/// Numbers that contracts know and no code can read: it takes no byte and no time. Outside this
/// crate it begins empty, and is only extended or reset.
#[derive(Drop)]
pub struct Trace {
    seal: (),
    ghost numbers: { List ℕ },
}

impl Model for Trace {
    ghost use Rattle.std.specs.Prelude.{List, ℕ};
    ghost use base.Fml.{ftrue};

    ghost Value = { List ℕ };

    ghost view = { λ trace. trace.numbers };

    ghost also_owns = { λ _. ftrue };
}

impl Trace {
    /// No numbers so far.
    pub fn new() -> Trace
        // The list is empty.
        ensures { result ≡ [] }
    {
        Trace { seal: () }
    }

    /// The number again and again after the others: so many times, and until there are so many in
    /// all.
    #[inline(always)]
    pub(crate) fn with(&self, _number: usize, _times: usize, _in_all: usize) -> Trace
        ensures { result
            ≡ self.now ++ replicate (max _times (_in_all - length self.now)) _number }
    {
        Trace { seal: () }
    }

    /// The first `n` of these bytes after the others.
    #[inline(always)]
    pub(crate) fn with_front(&self, _bytes: &[u8], _n: usize) -> Trace
        ensures { result ≡ self.now ++ take _n _bytes.now }
    {
        Trace { seal: () }
    }

    /// This number after the others.
    #[inline(always)]
    pub fn push(&mut self, number: usize)
        // The list is what it was, and then this number.
        ensures { self.new ≡ self.old ++ number ∷ [] }
    {
        *self = self.with(number, 1, 0);
    }

    /// These bytes after the others.
    #[inline(always)]
    pub fn extend(&mut self, bytes: &[u8])
        // The list is what it was, and then these bytes in order.
        ensures { self.new ≡ self.old ++ bytes.now }
    {
        self.extend_by(bytes, bytes.len());
    }

    /// The first `n` of these bytes after the others.
    #[inline(always)]
    pub fn extend_by(&mut self, bytes: &[u8], n: usize)
        // The list is what it was, and then the first `n` bytes, or all where there are fewer.
        ensures { self.new ≡ self.old ++ take n bytes.now }
    {
        *self = self.with_front(bytes, n);
    }

    /// No numbers again.
    #[inline(always)]
    pub fn reset(&mut self)
        // The list is empty.
        ensures { self.new ≡ [] }
    {
        *self = Trace::new();
    }
}
