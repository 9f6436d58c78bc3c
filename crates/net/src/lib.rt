// What a search walks over, a table laid out node by node and arc by arc; and what lies behind a search.
#![tactic(auto)]

ghost use Rattle.std.specs.Prelude.{◌≡◌, ◌≤◌, ◌<◌, ◌^◌, length};
ghost use Rattle.problem.specs.Table.{last_node, most_arc_metres, most_reach};
ghost use Rattle.problem.specs.Exposures.{of_arc};
ghost use Rattle.problem.specs.Routes.{arc_at};
ghost use Rattle.net.specs.Net.{lower_at, first_at, next_of, next_in_of, arcs_in, mesh_in, blank_net, IsNet};

use problem::{Exposure, MOST_IN_TABLE, NODES};

// An arc as a search meets it, with the arcs that come next behind it among those of its tail and among those of its head; the number of arcs ends a chain.
// Of eight bytes, so that an arc is found by its number alone; what it is exposed to stands apart, since most arcs that are looked at are not gone over.
#[derive(Clone, Copy)]
pub struct Link {
    pub metres: u32,
    pub tail: u8,
    pub head: u8,
    pub next: u8,
    pub next_in: u8,
}

// A node as a search meets it: the first of the arcs that leave it, and a length that no way from it to the terminal is shorter than.
#[derive(Clone, Copy)]
pub struct Stop {
    pub first: u8,
    pub lower: u32,
}

// A table and a request, laid out. The table's arcs are the first `count` of the links, with what they are exposed to and their spans, which no search asks for;
// `first_door` is the first arc into the terminal; `spanned` is false only where no arc has a span; where `apart` is true, only pairs that are apart are judged.
// It is filled in place and lent to every search: two of them do not fit a small stack. So that it hangs together is asked of a lent one (`IsNet`), and is no invariant of the type.
#[derive(Drop)]
pub struct Net {
    pub links: [Link; MOST_IN_TABLE],
    pub exposures: [Exposure; MOST_IN_TABLE],
    pub spans: [u16; MOST_IN_TABLE],
    pub stops: [Stop; NODES],
    pub count: u8,
    pub source: u8,
    pub terminal: u8,
    pub first_door: u8,
    pub reach: u32,
    pub spanned: bool,
    pub apart: bool,
}

// More than any length: a least length begins with it, and needs no test of its own.
pub const NO_LENGTH: u64 = 1099511627776;

// What lies behind a search that stands at a node: the nodes met, that one among them, the metres, and what the arcs are exposed to.
// A search hands the three on one by one, which goes in registers; a route's end is handed the whole.
#[derive(Clone, Copy)]
pub struct Behind {
    pub met: u64,
    pub metres: u64,
    pub exposure: Exposure,
}

impl Net {
    // A net of no arc, to be filled in place.
    pub fn blank() -> Net
        ensures { result ≡ blank_net }
    {
        let link = Link {
            metres: 0,
            tail: 0,
            head: 0,
            next: 0,
            next_in: 0,
        };
        let nothing = Exposure {
            risks: 0,
            low: 0,
            high: 0,
        };
        let stop = Stop { first: 0, lower: 0 };
        Net {
            links: [link; MOST_IN_TABLE],
            exposures: [nothing; MOST_IN_TABLE],
            spans: [0; MOST_IN_TABLE],
            stops: [stop; NODES],
            count: 0,
            source: 0,
            terminal: 0,
            first_door: 0,
            reach: 0,
            spanned: false,
            apart: false,
        }
    }

    // What arc k is exposed to, and its risks alone.
    pub fn exposure(&self, k: u64) -> Exposure
        requires { IsNet self.now × (k < length (arcs_in self.now)) }
        ensures { result ≡ of_arc (arc_at (arcs_in self.now) k) }
    {
        self.exposures[k as usize]
    }

    pub fn risks(&self, k: u64) -> u64
        requires { IsNet self.now × (k < length (arcs_in self.now)) }
        ensures { result ≡ (of_arc (arc_at (arcs_in self.now) k)).risks }
    {
        self.exposures[k as usize].risks
    }

    pub fn low(&self, k: u64) -> u64
        requires { IsNet self.now × (k < length (arcs_in self.now)) }
        ensures { result ≡ (of_arc (arc_at (arcs_in self.now) k)).low }
    {
        self.exposures[k as usize].low
    }

    pub fn high(&self, k: u64) -> u64
        requires { IsNet self.now × (k < length (arcs_in self.now)) }
        ensures { result ≡ (of_arc (arc_at (arcs_in self.now) k)).high }
    {
        self.exposures[k as usize].high
    }

    pub fn metres(&self, k: u64) -> u64
        requires { IsNet self.now × (k < length (arcs_in self.now)) }
        ensures { (result ≡ (arc_at (arcs_in self.now) k).metres) × (result ≤ most_arc_metres) }
    {
        self.links[k as usize].metres as u64
    }

    pub fn head(&self, k: u64) -> u64
        requires { IsNet self.now × (k < length (arcs_in self.now)) }
        ensures { (result ≡ (arc_at (arcs_in self.now) k).head) × (result ≤ last_node) }
    {
        self.links[k as usize].head as u64
    }

    // The arc that comes next behind arc k among those of its tail, and among those of its head; and the first of node v.
    pub fn next(&self, k: u64) -> u64
        requires { IsNet self.now × (k < length (arcs_in self.now)) }
        ensures { result ≡ next_of self.now k }
    {
        self.links[k as usize].next as u64
    }

    pub fn next_in(&self, k: u64) -> u64
        requires { IsNet self.now × (k < length (arcs_in self.now)) }
        ensures { result ≡ next_in_of self.now k }
    {
        self.links[k as usize].next_in as u64
    }

    pub fn first(&self, v: u64) -> u64
        requires { IsNet self.now × (v ≤ last_node) }
        ensures { result ≡ first_at self.now v }
    {
        self.stops[v as usize].first as u64
    }

    // No way from v to the terminal is shorter.
    pub fn lower(&self, v: u64) -> u64
        requires { IsNet self.now × (v ≤ last_node) }
        ensures { (result ≡ lower_at self.now v) × (result < 2 ^ 32) }
    {
        self.stops[v as usize].lower as u64
    }

    // The first arc into the terminal, a door; the others come next behind it, as `next_in` says.
    pub fn first_door(&self) -> u64
        ensures { result ≡ self.now.first_door }
    {
        self.first_door as u64
    }

    // Whether some arc may have a span; false only where none has.
    pub fn spanned(&self) -> bool
        ensures { result ≡ self.now.spanned }
    {
        self.spanned
    }

    // Whether only pairs that are apart are judged.
    pub fn apart(&self) -> bool
        ensures { result ≡ self.now.apart }
    {
        self.apart
    }

    pub fn arc_count(&self) -> u64
        requires { IsNet self.now }
        ensures { result ≡ length (arcs_in self.now) }
    {
        self.count as u64
    }

    pub fn source(&self) -> u64
        requires { IsNet self.now }
        ensures { (result ≡ (mesh_in self.now).source) × (result ≤ last_node) }
    {
        self.source as u64
    }

    pub fn terminal(&self) -> u64
        requires { IsNet self.now }
        ensures { (result ≡ (mesh_in self.now).terminal) × (result ≤ last_node) }
    {
        self.terminal as u64
    }

    pub fn reach(&self) -> u64
        requires { IsNet self.now }
        ensures { (result ≡ (mesh_in self.now).reach) × (result ≤ most_reach) }
    {
        self.reach as u64
    }
}
