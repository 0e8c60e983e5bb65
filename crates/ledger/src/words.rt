use crate::sources::Source;
use book::calls::{Order, Question, Reply};
use join::fit::Misfit;
use server::refusal::Refusal;
use std::fmt;

// What a server was told, asked or answers, printed in words. They are this program's own, of its sources, so
// no one `Display` beside the library's types could print them for every program.
#[derive(Clone, Copy)]
pub struct Words<T>(pub T);

impl fmt::Display for Words<Order> {
    fn fmt<W: fmt::Write>(&self, f: &mut fmt::Formatter<W>) -> fmt::Result {
        let Order {
            client,
            label,
            length,
        } = self.0;
        let source = Source::from(client);
        write!(f, "block {label} of {source}, length {length}")
    }
}

impl fmt::Display for Words<Refusal> {
    fn fmt<W: fmt::Write>(&self, f: &mut fmt::Formatter<W>) -> fmt::Result {
        let why = match self.0 {
            Refusal::NoClient => "there is no such source",
            Refusal::BadLength => "a block has 1 to 16 units",
            Refusal::Full => "eight blocks of the source wait",
            Refusal::Ended => "the slot counter is at its end",
        };
        write!(f, "refusal {}, {why}", self.0.number())
    }
}

impl fmt::Display for Words<Misfit> {
    fn fmt<W: fmt::Write>(&self, f: &mut fmt::Formatter<W>) -> fmt::Result {
        let why = match self.0 {
            Misfit::Differ => "their clients or rates differ",
            Misfit::Used => "one of them is in use",
            Misfit::Late => "their latencies sum up to too much",
        };
        write!(f, "cause {}: {why}", self.0.number())
    }
}

impl fmt::Display for Words<Question> {
    fn fmt<W: fmt::Write>(&self, f: &mut fmt::Formatter<W>) -> fmt::Result {
        match self.0 {
            Question::Clients => f.write_str("number of sources?"),
            Question::Now => f.write_str("slots counted?"),
            Question::Rate(client) => write!(f, "rate of {}?", Source::from(client)),
            Question::Latency(client) => write!(f, "latency of {}?", Source::from(client)),
            Question::Clock(client) => write!(f, "clock of {}?", Source::from(client)),
            Question::Waiting(client) => write!(f, "blocks of {} that wait?", Source::from(client)),
        }
    }
}

impl fmt::Display for Words<Reply> {
    fn fmt<W: fmt::Write>(&self, f: &mut fmt::Formatter<W>) -> fmt::Result {
        match self.0 {
            Reply::Clients(count) => write!(f, "{count}"),
            Reply::Now(slots) => write!(f, "{slots}"),
            Reply::Rate(Ok(rate)) => write!(f, "{} units in {} slots", rate.p, rate.q),
            Reply::Latency(Ok(ticks)) => write!(f, "{ticks} ticks"),
            Reply::Clock(Ok(ticks)) => write!(f, "tick {ticks}"),
            Reply::Waiting(Ok(count)) => write!(f, "{count}"),
            Reply::Rate(Err(refusal))
            | Reply::Latency(Err(refusal))
            | Reply::Clock(Err(refusal))
            | Reply::Waiting(Err(refusal)) => Words(refusal).fmt(f),
        }
    }
}
