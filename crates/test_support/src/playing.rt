ghost use Rattle.std.specs.Prelude.{◌≡◌, [], OnOk};
ghost use Rattle.test_support.specs.Letters.{letter_of};
ghost use Rattle.test_support.specs.Runs.{Plays, Submits, SubmitsAll, numbered};

use crate::letters::letter;
use crate::submission::Submission;
use server::refusal::Refusal;
use server::server::Server;

/// What a server did otherwise than it was expected to, by the slot.
#[derive(Clone, Copy, PartialEq, Eq, Debug)]
pub enum Mismatch {
    // It told another letter.
    Letter {
        slot: u32,
        told: u8,
        expected: u8,
    },
    // It gave another answer to a submission.
    Answer {
        slot: u32,
        told: Result<u64, u8>,
        expected: Result<u64, u8>,
    },
}

// The answer to a submission, with a refusal by its number.
fn numbered(answer: Result<u64, Refusal>) -> Result<u64, u8>
    ensures { result ≡ numbered answer }
{
    answer.map_err(Refusal::number)
}

// Hands a server the block of a row, labelled by the row's slot.
fn submit<S: Server>(server: &mut S, row: &Submission) -> Result<(), Mismatch>
    ensures { OnOk result (S.Server.named → Submits S.Server.means S.Server.machine row.now.slot (S.Server.state server.old) row.now (S.Server.state server.new)) }
{
    let told = numbered(server.submit(row.client, row.slot, row.length));
    if told != row.answer {
        return Err(Mismatch::Answer {
            slot: row.slot,
            told,
            expected: row.answer,
        });
    }
    Ok(())
}

/// Hands a server the blocks of a table that come in its present slot. `Ok` tells that each was answered as its row says,
/// and entered if it was granted. This is proved of a server whose calls are known wholly (`named`); of another, and of
/// what a mismatch leaves, nothing is.
pub fn submit_all<S: Server>(server: &mut S, submissions: &[Submission]) -> Result<(), Mismatch>
    ensures { OnOk result (S.Server.named → SubmitsAll S.Server.means S.Server.machine submissions.now (S.Server.state server.old) (S.Server.state server.new)) }
{
    let slot = server.now();
    // No `filter`: of a loop over a chain with a closure the check refuses a declaration of its own, where a function
    // with a type parameter has an invariant to keep.
    for row in submissions {
        if row.slot == slot {
            submit(server, row)?;
        }
    }
    Ok(())
}

// Serves a slot, which is to tell this letter.
fn serve_slot<S: Server>(server: &mut S, expected: u8) -> Result<(), Mismatch>
    ensures tells { OnOk result (S.Server.named → letter_of (S.Server.machine.says (S.Server.state server.old)) ≡ expected) }
    ensures leaves { S.Server.named → S.Server.state server.new ≡ S.Server.machine.next (S.Server.state server.old) }
{
    let slot = server.now();
    let told = letter(server.slot());
    if told != expected {
        return Err(Mismatch::Letter {
            slot,
            told,
            expected,
        });
    }
    Ok(())
}

/// Serves a slot for each letter of a run, with the submissions of a table before each slot. `Ok` tells that the server
/// did as table and run say, which is proved of the same servers as of `submit_all`.
pub fn play<S: Server>(
    server: &mut S,
    submissions: &[Submission],
    run: &[u8],
) -> Result<(), Mismatch>
    ensures { OnOk result (S.Server.named → Plays S.Server.means S.Server.machine submissions.now run.now (S.Server.state server.old) (S.Server.state server.new)) }
{
    for expected in run {
        submit_all(server, submissions)?;
        serve_slot(server, *expected)?;
    }
    Ok(())
}

/// Serves a slot for each letter of a run. `Ok` tells what it tells of `play`, with no submissions.
pub fn serve<S: Server>(server: &mut S, run: &[u8]) -> Result<(), Mismatch>
    ensures { OnOk result (S.Server.named → Plays S.Server.means S.Server.machine [] run.now (S.Server.state server.old) (S.Server.state server.new)) }
{
    play(server, &[], run)
}
