// What one arc is to a search from a node: the one question that every walk over routes asks, whatever it does with the routes.
#![tactic(auto)]

ghost use Rattle.std.specs.Prelude.{◌≡◌, ◌≤◌, ◌<◌, length};
ghost use Rattle.problem.specs.Table.{most_reach};
ghost use Rattle.net.specs.Net.{IsNet, arcs_in};
ghost use Rattle.net.specs.Search.{behind};
ghost use Rattle.look.specs.Look.{leg_at};

use net::{Behind, Net};
use problem::Exposure;

// An arc looked at.
#[derive(Clone, Copy)]
pub enum Leg {
    // Its head was met before.
    Met,
    // All that goes over it passes the end of the window: it is at least so long.
    Past(u64),
    // It ends a route, and this lies behind that.
    Ends(Behind),
    // Routes may go on from its head, with this behind them.
    Leads(u64, Behind),
}

// What arc i is to a search for routes of at most hi metres.
pub fn look(net: &Net, i: u64, met: u64, metres: u64, exposure: Exposure, hi: u64) -> Leg
    requires { IsNet net.now × (i < length (arcs_in net.now)) × (metres ≤ most_reach) }
    ensures { result ≡ leg_at net.now hi (behind met metres exposure) i }
{
    let head = net.head(i);
    if sets::has(met, head as u8) {
        return Leg::Met;
    }
    let metres = metres + net.metres(i);
    let to = metres + net.lower(head);
    if hi < to {
        return Leg::Past(to);
    }
    let joined = exposure::joined(exposure, net.exposure(i));
    let on = Behind {
        met: sets::with(met, head as u8),
        metres,
        exposure: joined,
    };
    if head == net.terminal() {
        return Leg::Ends(on);
    }
    Leg::Leads(head, on)
}
