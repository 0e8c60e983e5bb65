// The calls of a run, one after the other.
ghost use Rattle.std.specs.Prelude.{◌≡◌, [], ◌∷◌};
ghost use Rattle.run.specs.Runs.{Ran};
ghost use Rattle.tables.specs.Tables.{listed};

use crate::noting::line_of;
use book::calls::Call;
use book::driving::make;
use lines::Table;
use logs::Line;
use server::server::Server;

/// Makes one call and writes its line, if it has one.
fn step<S: Server>(server: &mut S, call: Call, journal: &mut Table<Line, 1208>)
    ensures { Ran S.Server server.old (call ∷ []) server.new (listed journal.old) (listed journal.new) }
{
    let event = make(server, call);
    if let Some(line) = line_of(server.now(), event) {
        // A full journal keeps the lines that it has.
        let _ = journal.push(line);
    }
}
