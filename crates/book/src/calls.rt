use server::block::Served;
use server::rate::Rate;
use server::refusal::Refusal;

/// A block handed to a server.
#[derive(Clone, Copy, PartialEq, Eq, Debug)]
pub struct Order {
    pub client: u8,
    pub label: u32,
    pub length: u8,
}

/// What a server can be asked.
#[derive(Clone, Copy, PartialEq, Eq, Debug)]
pub enum Question {
    Clients,
    Now,
    Rate(u8),
    Latency(u8),
    Clock(u8),
    Waiting(u8),
}

/// What a server tells.
#[derive(Clone, Copy, PartialEq, Eq, Debug)]
pub enum Reply {
    Clients(u8),
    Now(u32),
    Rate(Result<Rate, Refusal>),
    Latency(Result<u32, Refusal>),
    Clock(Result<u64, Refusal>),
    Waiting(Result<u8, Refusal>),
}

/// A call of a server.
#[derive(Clone, Copy, PartialEq, Eq, Debug)]
pub enum Call {
    Submit(Order),
    Slot,
    Ask(Question),
}

/// A call of a server with its answer.
#[derive(Clone, Copy, PartialEq, Eq, Debug)]
pub enum Event {
    Submit(Order, Result<u64, Refusal>),
    Slot(Result<Served, Refusal>),
    Ask(Question, Reply),
}
