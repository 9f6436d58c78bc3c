// A route as the code holds it: made of nothing, extended by one arc.
#![tactic(auto)]

ghost use Rattle.std.specs.Prelude.{◌+◌, ◌<◌, ◌^◌};
ghost use Rattle.problem.specs.Table.{most_arcs, most_in_table};
ghost use Rattle.problem.specs.Pairs.{no_route};
ghost use Rattle.track.specs.Track.{route_in, Fit, Holds, onward};

use problem::{Exposure, PLACES};

// The arc numbers stand in the first `count` places, and 255 in the others.
#[derive(Clone, Copy)]
pub struct Track {
    pub arcs: [u8; PLACES],
    pub count: u8,
    pub metres: u32,
    pub exposure: Exposure,
}

// The track of no arc: 0 metres, exposed to nothing.
pub fn empty() -> Track
    ensures { Holds result no_route }
{
    Track {
        arcs: [255; PLACES],
        count: 0,
        metres: 0,
        exposure: exposure::nothing(),
    }
}

// The track with one arc more at its end: its number, its metres, and what it is exposed to.
pub fn extend(t: Track, k: u8, metres: u32, e: Exposure) -> Track
    requires { Fit t × (t.count < most_arcs) × (k < most_in_table) × (t.metres + metres < 2 ^ 32) }
    ensures { Holds result (onward (route_in t) k metres e) }
{
    let mut arcs = t.arcs;
    arcs[t.count as usize] = k;
    Track {
        arcs,
        count: t.count + 1,
        metres: t.metres + metres,
        exposure: exposure::joined(t.exposure, e),
    }
}
