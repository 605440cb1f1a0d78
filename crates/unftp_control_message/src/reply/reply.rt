//! Replies.
ghost use Rattle.std.specs.Prelude.{◌≡◌, ◌↔◌, map, IsTrue, IfOk, IfErr, OnErr, string_bytes};
ghost use Rattle.std.specs.Iterator.{Drains, IsFiniteIterable};
ghost use Rattle.std.specs.List.{AllByRecursion};
ghost use Rattle.unftp_control_defs.specs.Bytes.{LF, Lacks};
ghost use Rattle.unftp_control_defs.specs.Events.{out_of_memory};
ghost use Rattle.unftp_control_defs.specs.FtpReply.{Nothing, CodeAndMsg, MultiLine, HasThreeDigits, IsPlain, is_positive};
ghost use Rattle.unftp_control_message.specs.ErrorMeaning.{fault_of};
ghost use Rattle.unftp_control_message.specs.ReplyMeaning.{number_of, reply_of};
ghost use Rattle.unftp_control_message.specs.declared.reply.reply.Reply.{Reply as RustReply};

use crate::reply::code::ReplyCode;
use crate::reply::error::ControlChanError;
use std::alloc::{AllocError, Global};
use std::fmt;

/// Room for so many lines is made at once, unless the iterator has fewer. FEAT's reply has fewer.
const USUAL_LINES: usize = 16;

/// What the server answers to a command (RFC 959, section 4.2).
#[derive(Drop, PartialEq, Eq)]
pub enum Reply {
    /// Nothing is sent.
    None,
    /// One line: the code and a text.
    CodeAndMsg {
        /// The code.
        code: ReplyCode,
        /// The text, which may be empty.
        msg: String,
    },
    /// Lines: the first follows the code and a dash, and the last follows the code and a space.
    MultiLine {
        /// The code.
        code: ReplyCode,
        /// The lines; there may be one or none.
        lines: Vec<String>,
    },
}

impl Reply {
    /// A reply of one line. It fails only when out of memory, with the kind `OutOfMemory`.
    pub fn new(alloc: Global, code: ReplyCode, message: &str) -> Result<Reply, ControlChanError>
        // At `Ok` the reply is `CodeAndMsg`, with this code and this text.
        ensures ok { IfOk result (λ reply.
            reply_of reply ≡ CodeAndMsg (number_of code) message.now) }
        // An error is out of memory, without a source.
        ensures err { IfErr result (λ error. fault_of error ≡ out_of_memory) }
    {
        let msg = String::from_str(alloc, message)?;
        Ok(Reply::new_with_string(code, msg))
    }

    /// A reply of one line that holds this text. It takes no memory.
    pub fn new_with_string(code: ReplyCode, msg: String) -> Reply
        // The reply is `CodeAndMsg`, with this code and this text.
        ensures { reply_of result ≡ CodeAndMsg (number_of code) (string_bytes msg) }
    {
        Reply::CodeAndMsg { code, msg }
    }

    /// A reply of these lines. It fails only when out of memory, with the kind `OutOfMemory`.
    ///
    /// The lines have to end, which the checker asks of each caller.
    pub fn new_multiline<'a, I: IntoIterator<Item = &'a str>>(
        alloc: Global,
        code: ReplyCode,
        lines: I,
    ) -> Result<Reply, ControlChanError>
        // Whatever iterator is made of the lines can be called, and ends.
        requires { IsFiniteIterable I.into_iter_gives
            I.IntoIter.can_next I.IntoIter.remaining lines }
        // At `Ok` the reply is `MultiLine`, with this code and all texts that the iterator gives,
        // in order.
        ensures ok { IfOk result (λ reply.
            (iterator : I.IntoIter) × (texts : _) × I.into_iter_gives lines iterator
            × Drains I.IntoIter.next_gives iterator texts
            × (reply_of reply ≡ MultiLine (number_of code) (map (λ text. text.now) texts))) }
        // An error is out of memory, without a source.
        ensures err { IfErr result (λ error. fault_of error ≡ out_of_memory) }
    {
        let lines = owned_lines(alloc, lines)?;
        Ok(Reply::MultiLine { code, lines })
    }

    /// The reply of which nothing is sent.
    pub fn none() -> Reply
        // It is the reply of which nothing is sent.
        ensures { reply_of result ≡ Nothing }
    {
        Reply::None
    }

    /// Whether it reports no failure: a code from 200 to 399, or no reply (RFC 959, section 4.2.1).
    pub fn is_positive(&self) -> bool
        // True exactly for a code from 200 to 399, and for `Reply::None`.
        ensures { result ≡ is_positive (reply_of self.now) }
    {
        match self {
            Reply::None => true,
            Reply::CodeAndMsg { code, .. } | Reply::MultiLine { code, .. } => {
                (200..=399).contains(&code.number())
            }
        }
    }

    /// Whether a client can read it back as it is: a code of three digits, and no text with a line
    /// feed, or no reply (RFC 959, section 4.2).
    pub fn is_plain(&self) -> bool
        // True exactly for `Reply::None`, and for a code of three digits where no text has a line
        // feed.
        ensures { IsTrue result ↔ IsPlain (reply_of self.now) }
    {
        let (code, are_lines) = match self {
            Reply::None => return true,
            Reply::CodeAndMsg { code, msg } => (code, is_one_line(msg.as_str())),
            Reply::MultiLine { code, lines } => (code, are_lines(lines)),
        };
        has_three_digits(*code) && are_lines
    }

    /// A reply that says the same, or `AllocError` when out of memory, which leaves this one as it
    /// is. `Reply::None` takes no memory.
    pub fn clone(&self, alloc: Global) -> Result<Reply, AllocError>
        // At `Ok` the new reply has the same form, code and texts.
        ensures ok { IfOk result (λ reply. reply_of reply ≡ reply_of self.now) }
        // It is out of memory only for a reply other than `Reply::None`.
        ensures memory { OnErr result (¬ (reply_of self.now ≡ Nothing)) }
    {
        Ok(match self {
            Reply::None => Reply::None,
            Reply::CodeAndMsg { code, msg } => Reply::CodeAndMsg {
                code: *code,
                msg: String::from_str(alloc, msg.as_str())?,
            },
            Reply::MultiLine { code, lines } => Reply::MultiLine {
                code: *code,
                lines: lines_again(alloc, lines)?,
            },
        })
    }
}

/// Whether the code has three digits; those of `ReplyCode` that are no codes of RFC 959 have one.
fn has_three_digits(code: ReplyCode) -> bool
    ensures { IsTrue result ↔ HasThreeDigits (number_of code) }
{
    (100..=999).contains(&code.number())
}

/// Whether the text has no line feed.
fn is_one_line(text: &str) -> bool
    ensures { IsTrue result ↔ Lacks LF text.now }
{
    !text.as_bytes().contains(&b'\n')
}

/// Whether no line has a line feed.
fn are_lines(lines: &Vec<String>) -> bool
    ensures { IsTrue result
        ↔ AllByRecursion (λ line. Lacks LF (string_bytes line)) lines.now.items }
{
    lines.iter().all(|line| is_one_line(line.as_str()))
}

/// The lines in memory of their own.
fn owned_lines<'a, I: IntoIterator<Item = &'a str>>(
    alloc: Global,
    lines: I,
) -> Result<Vec<String>, AllocError>
    requires { IsFiniteIterable I.into_iter_gives I.IntoIter.can_next I.IntoIter.remaining lines }
    ensures { IfOk result (λ owned.
        (iterator : I.IntoIter) × (texts : _) × I.into_iter_gives lines iterator
        × Drains I.IntoIter.next_gives iterator texts
        × (map string_bytes owned.items ≡ map (λ text. text.now) texts)) }
{
    let mut rest = lines.into_iter();
    let (at_least, at_most) = rest.size_hint();
    let usual = at_most.unwrap_or(USUAL_LINES).min(USUAL_LINES);
    let mut owned = Vec::with_capacity(alloc, at_least.max(usual))?;
    while let Some(line) = rest.next() {
        owned.push(String::from_str(alloc, line)?)?;
    }
    Ok(owned)
}

/// A copy of the lines.
fn lines_again(alloc: Global, lines: &Vec<String>) -> Result<Vec<String>, AllocError>
    ensures { IfOk result (λ again.
        map string_bytes again.items ≡ map string_bytes lines.now.items) }
{
    let mut again = Vec::with_capacity(alloc, lines.len())?;
    for line in lines {
        again.push(String::from_str(alloc, line.as_str())?)?;
    }
    Ok(again)
}

/// One text under all flags of the formatter; of several lines the number and the first.
impl fmt::Debug for Reply {
    fn fmt<W: fmt::Write>(&self, f: &mut fmt::Formatter<W>) -> fmt::Result {
        match self {
            Reply::None => f.write_str("None"),
            Reply::CodeAndMsg { code, msg } => {
                write!(f, "CodeAndMsg {{ code: {code:?}, msg: {msg:?} }}")
            }
            Reply::MultiLine { code, lines } => match lines.as_slice() {
                [first, _, ..] => {
                    let count = lines.len();
                    write!(
                        f,
                        "MultiLine {{ code: {code:?}, {count} lines ({first}...) }}"
                    )
                }
                lines => write!(f, "MultiLine {{ code: {code:?}, line: {lines:?} }}"),
            },
        }
    }
}

/// `==` of replies is equality of code and texts.
pub fn same_replies()
    // `==` of two replies is true exactly where their form, code and texts are equal.
    ensures { (a b : RustReply)
        → IsTrue (⟦<Reply as PartialEq>⟧.eq a b) ↔ (reply_of a ≡ reply_of b) }
{}
