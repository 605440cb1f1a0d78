//! A client's dialogue with a server: to which line each reply is.
ghost use Rattle.std.specs.Prelude.{◌≡◌, ◌≢◌, ◌<◌, ◌-◌, ◌^◌, if◌then◌else◌};
ghost use Rattle.unftp_control_defs.specs.Lines.{IsLine};
ghost use Rattle.unftp_control_client.specs.Dialogue.{after_command, after_reply, commands_owed, next_to};
ghost use Rattle.unftp_control_client.specs.Order.{Sends, Takes, after_answer, after_call, after_pass, may_answer, may_take};
ghost use Rattle.unftp_control_c.specs.Clients.{dialogue_of, may_begin_tls, order_of, place_in, to_number};
ghost use Rattle.unftp_control_c.specs.Numbers.{status_number};
ghost use Rattle.unftp_control_c.specs.declared.status.Status.TheVariants.{Done, InvalidArgument, NoLine};

use crate::status::Status;
use unftp_control_client::{Dialogue, Order, To};
use unftp_control_write::is_line;

/// What a client keeps beside its bytes: `struct unftp_client` of include/unftp_control.h.
#[repr(C)]
#[derive(Clone, Copy)]
pub struct Client {
    /// How many lines were sent.
    pub sent: u64,
    /// How many of them have their final reply, once the greeting is complete.
    pub answered: u64,
    /// The place of the last line that asks for TLS, if there is one.
    pub asked: u64,
    /// 0 until the greeting is complete.
    pub greeted: u32,
    /// 0 until a line asks for TLS.
    pub asks: u32,
    /// 1 where the last reply was a 234 to that line, else 0.
    pub agreed: u32,
    /// 1 where a line of a proxy's own client is taken, and neither sent nor answered yet, else 0.
    pub taken: u32,
}

impl Client {
    /// What keeps this.
    fn of(order: Order) -> Client
        ensures { order_of result ≡ order }
    {
        let dialogue = order.dialogue;
        Client {
            sent: dialogue.sent,
            answered: dialogue.answered.unwrap_or(0),
            asked: dialogue.asked.unwrap_or(0),
            greeted: u32::from(dialogue.answered.is_some()),
            asks: u32::from(dialogue.asked.is_some()),
            agreed: u32::from(dialogue.agreed),
            taken: u32::from(order.taken),
        }
    }

    /// What it keeps.
    fn dialogue(&self) -> Dialogue
        ensures { result ≡ dialogue_of self.now }
    {
        Dialogue {
            sent: self.sent,
            answered: if self.greeted == 0 {
                None
            } else {
                Some(self.answered)
            },
            asked: if self.asks == 0 {
                None
            } else {
                Some(self.asked)
            },
            agreed: self.agreed != 0,
        }
    }

    /// The same, with the line that is taken.
    fn order(&self) -> Order
        ensures { result ≡ order_of self.now }
    {
        Order {
            dialogue: self.dialogue(),
            taken: self.taken != 0,
        }
    }
}

/// Takes the next line of a proxy's client: `unftp_client_take` of include/unftp_control.h.
#[unsafe(no_mangle)]
pub extern "C" fn unftp_client_take(client: &mut Client) -> u32
    // It is 1 where the next line may be taken, and 0 where it may not.
    ensures taken { result ≡ (if may_take (order_of client.old) then 1 else 0) }
    // At 1 the order differs only in that a line is taken. At 0 it is unchanged.
    ensures after { order_of client.new ≡ after_call (order_of client.old) Takes }
{
    let mut order = client.order();
    let taken = order.take();
    *client = Client::of(order);
    u32::from(taken)
}

/// Notes that a proxy answers the line that it has taken: `unftp_client_answer` of
/// include/unftp_control.h.
#[unsafe(no_mangle)]
pub extern "C" fn unftp_client_answer(client: &mut Client, code: u32) -> u32
    // It is 1 where the line that is taken may be answered with this code, and 0 where it may not.
    ensures given { result ≡ (if may_answer (order_of client.old) code then 1 else 0) }
    // At 1 the order differs only in that no line is taken any more. At 0 it is unchanged.
    ensures after { order_of client.new ≡ after_answer (order_of client.old) code }
{
    let mut order = client.order();
    let given = order.answer(code);
    *client = Client::of(order);
    u32::from(given)
}

/// Notes a line that is sent: `unftp_client_line` of include/unftp_control.h.
#[unsafe(no_mangle)]
pub extern "C" fn unftp_client_line(client: &mut Client, line: &[u8], place: &mut u64) -> u32
    // `NoLine` comes wherever the bytes are not one line, with one line feed, its last byte.
    ensures not_a_line { ¬ IsLine line.now → result ≡ status_number NoLine }
    // After 2^64 - 1 lines another line is reported as an invalid argument.
    ensures full { IsLine line.now → client.old.sent ≡ 2 ^ 64 - 1
        → result ≡ status_number InvalidArgument }
    // Where the result is not `Done`, the struct is unchanged, and the place is 0.
    ensures kept { result ≢ status_number Done
        → (client.new ≡ client.old) × (place.new ≡ 0) }
    // Any other line is noted: its place is how many were noted before, and the dialogue is the one
    // after it.
    ensures is_line { IsLine line.now → client.old.sent < 2 ^ 64 - 1
        → (result ≡ status_number Done) × (place.new ≡ client.old.sent)
        × (dialogue_of client.new ≡ after_command line.now (dialogue_of client.old)) }
    // At `Done` the order is the one after this line is sent.
    ensures order { result ≡ status_number Done
        → order_of client.new ≡ after_call (order_of client.old) (Sends line.now) }
{
    *place = 0;
    if !is_line(line) {
        return Status::NoLine.number();
    }
    let mut order = client.order();
    let Some(sent) = order.send(line) else {
        return Status::InvalidArgument.number();
    };
    *client = Client::of(order);
    *place = sent;
    Status::Done.number()
}

/// Notes a reply that came, and returns what it is to: `unftp_client_reply` of
/// include/unftp_control.h.
#[unsafe(no_mangle)]
pub extern "C" fn unftp_client_reply(client: &mut Client, code: u32, place: &mut u64) -> u32
    // The result is what the next reply is to: the greeting, a line, or nothing.
    ensures to { result ≡ to_number (next_to (dialogue_of client.old)) }
    // The place is that of the line, or 0 where the reply is to no line.
    ensures place { place.new ≡ place_in (next_to (dialogue_of client.old)) }
    // The dialogue is the one after a reply with this code.
    ensures after { dialogue_of client.new ≡ after_reply (dialogue_of client.old) code }
    // The order is the one after a reply with this code is passed on.
    ensures order { order_of client.new ≡ after_pass (order_of client.old) code }
{
    let mut order = client.order();
    let to = order.pass(code);
    *client = Client::of(order);
    let (number, sent) = match to {
        To::Greeting => (0, 0),
        To::Command(sent) => (1, sent),
        To::Nothing => (2, 0),
    };
    *place = sent;
    number
}

/// How many lines are owed their final reply: `unftp_client_owed` of include/unftp_control.h.
#[unsafe(no_mangle)]
pub extern "C" fn unftp_client_owed(client: &Client) -> u64
    // It is how many lines are owed their final reply.
    ensures { result ≡ commands_owed (dialogue_of client.now) }
{
    client.dialogue().owed()
}

/// Whether TLS may begin, where so many bytes are pending: `unftp_client_may_begin_tls` of
/// include/unftp_control.h.
#[unsafe(no_mangle)]
pub extern "C" fn unftp_client_may_begin_tls(client: &Client, pending: usize) -> u32
    // It is 1 where TLS may begin while so many bytes are pending, and 0 where it may not.
    ensures { result
        ≡ (if may_begin_tls (dialogue_of client.now) pending then 1 else 0) }
{
    let dialogue = client.dialogue();
    u32::from(dialogue.agreed && dialogue.owed() == 0 && pending == 0)
}
