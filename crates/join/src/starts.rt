ghost use Rattle.std.specs.Prelude.{◌≡◌, [], drop, slice_get};

use server::block::{Departure, Served};
use server::refusal::Refusal;
use tables::Table;

// For each client the starts in the first server of its blocks that wait in the second, oldest first. A row is
// written by its index: of `get_mut` of an array a proof does not learn what the array is after it.
#[derive(Clone, Copy)]
pub(crate) struct Starts {
    pub(crate) rows: [Table<u64, 8>; 8],
}

impl Starts {
    ghost use Rattle.join.specs.Starts.{starts_in, at_row, put_in, told, staying, noted};

    // No starts. A derived `Default` would say of the rows what this says of the starts in them.
    pub(crate) fn new() -> Starts
        ensures { starts_in result ≡ (λ k. []) }
    {
        Starts {
            rows: [Table::new(0); 8],
        }
    }

    // The oldest start of a client, which is kept no more.
    fn take(&mut self, client: u8) -> Option<u64>
        ensures answers { result ≡ slice_get (starts_in self.old client) 0 }
        ensures leaves { starts_in self.new ≡ at_row client (drop 1) (starts_in self.old) }
    {
        if client >= 8 {
            return None;
        }
        let place = usize::from(client);
        let start = self.rows[place].as_slice().first().copied();
        self.rows[place].remove_first();
        start
    }

    // One more start of a client, where there is room.
    fn put(&mut self, client: u8, start: u64)
        ensures { starts_in self.new ≡ put_in client start (starts_in self.old) }
    {
        if client < 8 {
            let _ = self.rows[usize::from(client)].push(start);
        }
    }

    // The second has answered: what the chain answers, a departed block with its start in the first. A start is
    // kept of each block of the second; what is said of a block without one is never told.
    pub(crate) fn tell(&mut self, answer: Result<Served, Refusal>) -> Served
        ensures answers { result ≡ told answer (starts_in self.old) }
        ensures leaves { starts_in self.new ≡ staying answer (starts_in self.old) }
    {
        match answer {
            Ok(Served::Departed(block)) => Served::Departed(Departure {
                start: self.take(block.client).unwrap_or(0),
                ..block
            }),
            Ok(served) => served,
            Err(_) => Served::Nothing,
        }
    }

    // The first has answered: the start of a departed block is kept. This and what the second is handed are two
    // effects of one departure, and each has an equation of its own.
    pub(crate) fn note(&mut self, answer: Result<Served, Refusal>)
        ensures { starts_in self.new ≡ noted answer (starts_in self.old) }
    {
        if let Ok(Served::Departed(block)) = answer {
            self.put(block.client, block.start);
        }
    }
}
