ghost use Rattle.std.specs.Prelude.{◌≡◌};
ghost use Rattle.join.specs.Fit.{have_same_rate, idle, are_idle, is_in_reach, fitting};
ghost use Rattle.server.specs.Meant.{meant};

use crate::fit::Misfit;
use server::server::Server;
use server::view::View;

fn same_rate(a: View, b: View) -> bool
    ensures { result ≡ have_same_rate a b }
{
    a.terms.rate == b.terms.rate
}

// Whether no block has come yet.
fn is_idle(view: View) -> bool
    ensures { result ≡ idle view }
{
    view.clock == 0 && view.waiting == 0
}

fn both_idle(a: View, b: View) -> bool
    ensures { result ≡ are_idle a b }
{
    is_idle(a) && is_idle(b)
}

fn in_reach(a: View, b: View) -> bool
    ensures { result ≡ is_in_reach a b }
{
    u64::from(a.terms.latency) + u64::from(b.terms.latency) <= 4194304
}

/// Whether two servers fit, or why not; both are left as they were.
pub fn fit<A: Server, B: Server>(first: &A, second: &B) -> Result<(), Misfit>
    ensures { result ≡ fitting (meant A.Server first.now) (meant B.Server second.now) }
{
    let clients = first.clients();
    if clients != second.clients() {
        return Err(Misfit::Differ);
    }
    // What holds of each client so far. They are gone through once, since to view a client of a chain is to view it
    // in each of its hops.
    let mut same = true;
    let mut idle = first.now() == 0 && second.now() == 0;
    let mut near = true;
    for client in 0..clients {
        let (Ok(a), Ok(b)) = (first.view(client), second.view(client)) else {
            // Not reached, since both have each of these clients.
            return Err(Misfit::Differ);
        };
        same &= same_rate(a, b);
        idle &= both_idle(a, b);
        near &= in_reach(a, b);
    }
    if !same {
        return Err(Misfit::Differ);
    }
    if !idle {
        return Err(Misfit::Used);
    }
    if !near {
        return Err(Misfit::Late);
    }
    Ok(())
}
