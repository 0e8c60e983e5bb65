ghost use Rattle.std.specs.Prelude.{◌≡◌, ◌+◌, map, take, drop};
ghost use Rattle.server.specs.Laws.{Unused};
ghost use Rattle.join.specs.Fit.{fitting, chain_clients};
ghost use Rattle.join.specs.Joint.{state_of};
ghost use Rattle.book.specs.Book.{Promised};
ghost use Rattle.book.specs.Chains.{Exactly};
ghost use Rattle.book.specs.Runs.{call_of, made, reply, Takes, Run, happens, leads, history, ending};
ghost use Rattle.server.specs.Meant.{meant};

use crate::calls::{Call, Event, Question, Reply};
use join::chain::Chain;
use server::server::Server;

// Asks a server. A question is a value, as a call is.
fn ask<S: Server>(server: &S, question: Question) -> Reply
    ensures { result ≡ reply (meant S.Server server.now) question }
{
    match question {
        Question::Clients => Reply::Clients(server.clients()),
        Question::Now => Reply::Now(server.now()),
        Question::Rate(client) => Reply::Rate(server.rate(client)),
        Question::Latency(client) => Reply::Latency(server.latency(client)),
        Question::Clock(client) => Reply::Clock(server.clock(client)),
        Question::Waiting(client) => Reply::Waiting(server.waiting(client)),
    }
}

/// Makes one call. A call is a value, since what is promised is promised of lists of calls.
pub fn make<S: Server>(server: &mut S, call: Call) -> Event
    ensures of { call_of result ≡ call }
    ensures takes { Takes (meant S.Server server.old) result (meant S.Server server.new) }
    ensures exactly { S.Server.named → (result ≡ happens S.Server.means S.Server.machine (S.Server.state server.old) call) × (S.Server.state server.new ≡ leads S.Server.means S.Server.machine (S.Server.state server.old) call) }
{
    match call {
        Call::Submit(order) => Event::Submit(
            order,
            server.submit(order.client, order.label, order.length),
        ),
        Call::Slot => Event::Slot(server.slot()),
        Call::Ask(question) => Event::Ask(question, ask(server, question)),
    }
}

/// Makes calls of a server, as far as there is room for the events, and tells how many. The room is the caller's,
/// of any length, since nothing is allocated here.
pub fn drive<S: Server>(server: &mut S, calls: &[Call], events: &mut [Event]) -> usize
    ensures count { result ≡ made calls.now events.old }
    ensures of { map call_of (take result events.new) ≡ take result calls.now }
    ensures rest { drop result events.new ≡ drop result events.old }
    ensures run { Run (meant S.Server server.old) (take result events.new) (meant S.Server server.new) }
    ensures exactly { S.Server.named → (take result events.new ≡ history S.Server.means S.Server.machine (S.Server.state server.old) (take result calls.now)) × (S.Server.state server.new ≡ ending S.Server.means S.Server.machine (S.Server.state server.old) (take result calls.now)) }
    ensures promised { Unused (meant S.Server server.old) → Promised (meant S.Server server.old).count (λ k. ((meant S.Server server.old).client k).terms.rate) (λ k. ((meant S.Server server.old).client k).terms.latency) (take result events.new) }
{
    let count = calls.len().min(events.len());
    // The events are written by their index: what `enumerate` or `zip` of an `iter_mut` wrote a proof does not learn.
    for (i, call) in calls[..count].iter().enumerate() {
        events[i] = make(server, *call);
    }
    count
}

/// Joins two servers and makes calls of the chain, as far as there is room for the events. Whatever the
/// two servers are and whatever the calls, the book of these events shows what is promised.
pub fn join_and_drive<A: Server, B: Server>(
    first: A,
    second: B,
    calls: &[Call],
    events: &mut [Event],
) -> Chain<A, B>
    ensures of { map call_of (take (made calls.now events.old) events.new) ≡ take (made calls.now events.old) calls.now }
    ensures rest { drop (made calls.now events.old) events.new ≡ drop (made calls.now events.old) events.old }
    ensures exactly { A.Server.named → B.Server.named
        → Exactly A.Server B.Server (A.Server.state first) (B.Server.state second) (take (made calls.now events.old) calls.now) (take (made calls.now events.old) events.new) (state_of A.Server B.Server result) }
    ensures promised { Promised (chain_clients (fitting (meant A.Server first) (meant B.Server second)) (meant A.Server first))
        (λ k. ((meant A.Server first).client k).terms.rate)
        (λ k. ((meant A.Server first).client k).terms.latency + ((meant B.Server second).client k).terms.latency)
        (take (made calls.now events.old) events.new) }
{
    let mut chain = Chain::join(first, second);
    drive(&mut chain, calls, events);
    chain
}
