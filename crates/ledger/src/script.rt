use crate::sources::{SCIENCE, STRANGER, Source, TELEMETRY};
use book::calls::{Call, Order, Question};
use std::alloc::{AllocError, Global};
use std::iter::repeat_n;

// A line of the script: so many slots, or a block of a source by its label and length, or a question. Fields
// go by position, so that each call of the script is one line of the table.
#[derive(Clone, Copy)]
enum Line {
    Slots(usize),
    Submit(Source, u32, u8),
    Ask(Question),
}

const SCRIPT: &[Line] = &[
    Line::Ask(Question::Clients),
    Line::Submit(Source::Telemetry, 11, 2),
    Line::Submit(Source::Science, 21, 4),
    Line::Submit(Source::Science, 22, 3),
    Line::Submit(Source::Stranger, 31, 1),
    Line::Submit(Source::Telemetry, 12, 0),
    Line::Ask(Question::Waiting(SCIENCE)),
    Line::Ask(Question::Clock(SCIENCE)),
    Line::Slots(8),
    Line::Submit(Source::Telemetry, 13, 3),
    Line::Slots(14),
    Line::Ask(Question::Now),
    Line::Ask(Question::Rate(SCIENCE)),
    Line::Ask(Question::Latency(STRANGER)),
    Line::Submit(Source::Science, 23, 2),
    Line::Submit(Source::Science, 24, 2),
    Line::Submit(Source::Science, 25, 2),
    Line::Submit(Source::Science, 26, 2),
    Line::Submit(Source::Science, 27, 2),
    Line::Submit(Source::Science, 28, 2),
    Line::Submit(Source::Science, 29, 2),
    Line::Submit(Source::Science, 30, 2),
    Line::Submit(Source::Telemetry, 14, 16),
    Line::Slots(12),
    Line::Ask(Question::Waiting(TELEMETRY)),
    Line::Ask(Question::Waiting(SCIENCE)),
    Line::Ask(Question::Clock(SCIENCE)),
];

// The calls of the script, one by one.
pub fn calls(heap: Global) -> Result<Vec<Call>, AllocError> {
    let mut calls = Vec::new(heap);
    for line in SCRIPT {
        match *line {
            Line::Slots(count) => calls.extend(repeat_n(Call::Slot, count))?,
            Line::Submit(source, label, length) => calls.push(Call::Submit(Order {
                client: source.into(),
                label,
                length,
            }))?,
            Line::Ask(question) => calls.push(Call::Ask(question))?,
        }
    }
    Ok(calls)
}
