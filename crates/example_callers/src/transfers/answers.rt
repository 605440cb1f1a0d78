//! A list of answers that only contracts see.
ghost use Rattle.std.specs.Prelude.{◌≡◌, ◌++◌, ◌∷◌, [], List};
ghost use Rattle.example_callers.specs.DataAnswers.{DataAnswer, answer_to_close, answer_to_open, answer_to_receive, answer_to_send, numbered_answer};

use std::io;
use std::marker::Model;
use std::mem::size_of;

const _: () = prove!(size_of::<Answers>() == 0);

/// What a data connection answered, in order: contracts know it and no code can read it. It takes
/// no byte and no time. A `DataConnection` keeps one, and records what each of its calls returns.
#[derive(Drop)]
pub struct Answers {
    seal: (),
    ghost answers: { List DataAnswer },
}

impl Model for Answers {
    ghost use Rattle.std.specs.Prelude.{List};
    ghost use Rattle.example_callers.specs.DataAnswers.{DataAnswer};
    ghost use base.Fml.{ftrue};

    ghost Value = { List DataAnswer };

    ghost view = { λ answers. answers.answers };

    ghost also_owns = { λ _. ftrue };
}

impl Answers {
    /// No answers so far.
    pub fn new() -> Answers
        ensures { result ≡ [] }
    {
        Answers { seal: () }
    }

    /// One more after the others: that of this number, of `n` of these bytes.
    #[inline(always)]
    fn with(&self, _number: usize, _n: usize, _bytes: &[u8]) -> Answers
        ensures { result ≡ self.now ++ numbered_answer _number _n _bytes.now ∷ [] }
    {
        Answers { seal: () }
    }

    /// What a call to open it returned.
    #[inline(always)]
    pub fn opened(&mut self, answer: &io::Result<()>)
        ensures { self.new ≡ self.old ++ answer_to_open answer.now ∷ [] }
    {
        match answer {
            Ok(()) => *self = self.with(0, 0, b""),
            Err(_) => *self = self.with(4, 0, b""),
        }
    }

    /// What a call to send these bytes returned.
    #[inline(always)]
    pub fn sent(&mut self, bytes: &[u8], answer: &io::Result<usize>)
        ensures { self.new ≡ self.old ++ answer_to_send bytes.now answer.now ∷ [] }
    {
        match answer {
            Ok(n) => *self = self.with(1, *n, bytes),
            Err(_) => *self = self.with(5, 0, b""),
        }
    }

    /// What a call to receive into this buffer returned, which it filled.
    #[inline(always)]
    pub fn received(&mut self, buffer: &[u8], answer: &io::Result<usize>)
        ensures { self.new ≡ self.old ++ answer_to_receive buffer.now answer.now ∷ [] }
    {
        match answer {
            Ok(n) => *self = self.with(2, *n, buffer),
            Err(_) => *self = self.with(6, 0, b""),
        }
    }

    /// What a call to close it returned.
    #[inline(always)]
    pub fn closed(&mut self, answer: &io::Result<()>)
        ensures { self.new ≡ self.old ++ answer_to_close answer.now ∷ [] }
    {
        match answer {
            Ok(()) => *self = self.with(3, 0, b""),
            Err(_) => *self = self.with(7, 0, b""),
        }
    }
}
