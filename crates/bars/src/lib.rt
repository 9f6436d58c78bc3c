// What the standbys of a main keep off. Where every pair is judged that is nothing; where pairs must be apart (T-05) it is the nodes between the main's ends,
// and for a main of one arc, which has none, the arc itself.
#![tactic(auto)]

ghost use Rattle.std.specs.Prelude.{◌≡◌};
ghost use Rattle.net.specs.Net.{IsNet, mesh_in};
ghost use Rattle.bars.specs.Bars.{nothing_barred, barred_by};

use net::Net;

// Nodes that a standby must not meet, and an arc that it must not end with.
#[derive(Clone, Copy)]
pub struct Barred {
    pub nodes: u64,
    pub last: u64,
}

// No arc has this number, and no Option says it: what a list of arcs ends with is compared with it, arc or none (`last_of` of net).
pub const NO_ARC: u64 = 255;

pub fn nothing() -> Barred
    ensures { result ≡ nothing_barred }
{
    Barred {
        nodes: 0,
        last: NO_ARC,
    }
}

// What a main bars that meets these nodes and ends with this arc.
pub fn barred_by(net: &Net, met: u64, last: u64) -> Barred
    requires { IsNet net.now }
    ensures { result ≡ barred_by net.now.apart (mesh_in net.now) met last }
{
    if !net.apart() {
        return nothing();
    }
    let source = sets::with(0, net.source() as u8);
    let ends = sets::with(source, net.terminal() as u8);
    let between = sets::without(met, ends);
    if between == 0 {
        return Barred {
            nodes: 0,
            last: last,
        };
    }
    Barred {
        nodes: between,
        last: NO_ARC,
    }
}
