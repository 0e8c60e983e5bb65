use crate::words::Words;
use book::calls::Event;
use std::io;

// Tells of a refused submission, and of a question with its answer; the rest is told by the book.
pub fn tell(rt: &impl Print, now: u32, event: Event) -> io::Result<()> {
    match event {
        Event::Submit(order, Err(refusal)) => {
            println!(rt; "  slot {now:>3}  {}: {}", Words(order), Words(refusal))
        }
        Event::Ask(question, reply) => {
            println!(rt; "  slot {now:>3}  {} {}", Words(question), Words(reply))
        }
        _ => Ok(()),
    }
}
