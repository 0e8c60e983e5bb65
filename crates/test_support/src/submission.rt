/// A block that a client submits in a slot, and the due that this grants or the number of its refusal.
#[derive(Clone, Copy, PartialEq, Eq, Debug)]
pub struct Submission {
    pub slot: u32,
    pub client: u8,
    pub length: u8,
    pub answer: Result<u64, u8>,
}

// A table of submissions, a row for each: slot, client, length and answer.
#[macro_export]
macro_rules! submissions {
    ($($slot:literal $client:literal $length:literal $answer:expr,)*) => {
        [$($crate::submission::Submission {
            slot: $slot,
            client: $client,
            length: $length,
            answer: $answer,
        }),*]
    };
}

// A table of what a server must refuse in its first slot: a client that it does not have, the lengths 0 and 17,
// and one block more than may wait. Before it come the blocks that may, of one length, each with its due.
#[macro_export]
macro_rules! refusals {
    (absent $absent:literal, client $client:literal, length $length:literal, dues $($due:literal)+) => {
        $crate::submissions![
            0 $absent 1 Err(1),
            0 $client 0 Err(2),
            0 $client 17 Err(2),
            $(0 $client $length Ok($due),)+
            0 $client 1 Err(3),
        ]
    };
}
