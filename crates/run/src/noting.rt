// What is written of a server: its clients' latencies, and each event.
ghost use Rattle.std.specs.Prelude.{◌≡◌};
ghost use Rattle.server.specs.Calls.{asked};
ghost use Rattle.run.specs.Logs.{line_of, latency_line};
ghost use Rattle.server.specs.Meant.{meant};

use book::calls::Event;
use logs::{DepartureLine, GrantLine, LatencyLine, Line, RefusalLine};
use server::block::Served;
use server::refusal::Refusal;
use server::server::Server;

/// The line of an event that left the server at this slot, if it has one.
pub(crate) fn line_of(slot: u32, event: Event) -> Option<Line>
    ensures { result ≡ line_of slot event }
{
    match event {
        Event::Submit(order, Ok(due)) => Some(Line::Grant(GrantLine {
            slot,
            client: order.client,
            label: order.label,
            due,
        })),
        Event::Submit(order, Err(refusal)) => Some(Line::Refusal(RefusalLine {
            slot,
            client: order.client,
            label: order.label,
            number: refusal.number(),
        })),
        Event::Slot(Ok(Served::Departed(block))) => Some(Line::Departure(DepartureLine {
            slot,
            client: block.client,
            label: block.label,
        })),
        Event::Slot(Ok(Served::Unit(_) | Served::Nothing) | Err(_)) | Event::Ask(_, _) => None,
    }
}

/// The line of a client's latency.
pub(crate) fn latency_line<S: Server>(server: &S, client: u8) -> Result<Line, Refusal>
    ensures { result ≡ asked (meant S.Server server.now) client (λ x. latency_line client x) }
{
    let terms = server.view(client)?.terms;
    Ok(Line::Latency(LatencyLine {
        client,
        latency: terms.latency,
        slots: terms.slots(),
    }))
}
