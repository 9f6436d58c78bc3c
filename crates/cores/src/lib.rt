// What searches for standbys taught, remembered in a lent store beside the labels: cores. A core says that no standby of any main that is exposed to so much, and
// bars such nodes, has a key below a bound; so a main that a core covers need not be searched for. Whatever a store remembers, the answers are the same.
#![tactic(auto)]

ghost use Rattle.std.specs.Prelude.{◌≡◌, true, ◌≤◌, ◌<◌, List, ℕ};
ghost use Rattle.problem.specs.Table.{hazards, last_node};
ghost use Rattle.net.specs.declared.Net.{Net};
ghost use Rattle.net.specs.Net.{IsNet, mesh_in};
ghost use Rattle.net.specs.Search.{no_arc};
ghost use Rattle.bars.specs.Bars.{barred};
ghost use Rattle.standby.specs.Ahead.{quest, NoneBelow, least_of};
ghost use Rattle.cores.specs.Cores.{CoreHolds, Sized, Stored, Covers, Covered, CoresKept, Remembers};

use bars::{Barred, NO_ARC};
use labels::Labels;
use net::Net;
use problem::Exposure;

// How many cores are remembered.
const MOST_CORES: usize = 24;

// A search is long that went on from so many nodes. A core is learnt from one long search in so many, and only while no more was spent on cores than on those.
const LONG: u64 = 64;

const EVERY: u64 = 4;

// No standby of a main that is exposed to so much, and bars such nodes, has a key below the bound.
#[derive(Clone, Copy)]
struct Core {
    exposure: Exposure,
    nodes: u64,
    bound: u64,
}

impl Core {
    // Whether it says that no standby of such a main has a key below the bound.
    fn covers(&self, main: Exposure, nodes: u64, bound: u64) -> bool
        ensures { result ≡ true → Covers self.now main nodes bound }
    {
        exposure::is_inside(self.exposure, main)
            && self.nodes | nodes == nodes
            && bound <= self.bound
    }
}

// How many cores there are, and these; how many long searches were made, and how many nodes they went on from; how many nodes those went on from that made
// cores smaller.
#[derive(Drop)]
pub struct Cores {
    count: usize,
    known: [Core; MOST_CORES],
    searches: u64,
    earned: u64,
    spent: u64,
}

impl Cores {
    // Whether some core says that no standby of such a main has a key below the bound.
    fn cover(&self, main: Exposure, nodes: u64, bound: u64) -> bool
        requires { Sized self.now }
        ensures { result ≡ true → Covered self.now main nodes bound }
    {
        for core in &self.known[..self.count] {
            if core.covers(main, nodes, bound) {
                return true;
            }
        }
        false
    }

    // Counts a search that went on from so many nodes, and says whether a core is to be learnt from it. Most searches are short, and are not even counted.
    fn is_due(&mut self, work: u64) -> bool
        ensures { CoresKept self.old self.new }
    {
        if work < LONG {
            return false;
        }
        self.searches = self.searches.saturating_add(1);
        self.earned = self.earned.saturating_add(work);
        if self.searches % EVERY != 0 {
            return false;
        }
        self.spent <= self.earned
    }

    // Counts a search, which went on from so many nodes, that was made to make a core smaller.
    fn spend(&mut self, work: u64)
        ensures { CoresKept self.old self.new }
    {
        self.spent = self.spent.saturating_add(work);
    }

    // Remembers a core. Where there is no room it takes the place of an old one, each in turn.
    fn remember(&mut self, core: Core)
        requires { Sized self.old }
        ensures { Remembers core self.old self.new }
    {
        if self.count < MOST_CORES {
            self.known[self.count] = core;
            self.count += 1;
            return;
        }
        let old = self.searches / EVERY % MOST_CORES as u64;
        self.known[old as usize] = core;
    }
}

// What searches leave: labels, each for the next one; and cores.
#[derive(Drop)]
pub struct Store {
    pub labels: Labels,
    pub cores: Cores,
}

impl Store {
    // Nothing is remembered.
    pub fn none() -> Store
        ensures stored { (net : Net) → Stored net result }
        ensures empty { result.cores.count ≡ 0 }
    {
        Store {
            labels: Labels::none(),
            cores: Cores {
                count: 0,
                known: [Core {
                    exposure: exposure::nothing(),
                    nodes: 0,
                    bound: 0,
                }; MOST_CORES],
                searches: 0,
                earned: 0,
                spent: 0,
            },
        }
    }
}

// Whether a search says that it holds as a core.
fn still_holds(net: &Net, store: &mut Store, core: Core) -> bool
    requires { IsNet net.now }
    ensures holds { result ≡ true → CoreHolds net.now core }
    ensures kept { CoresKept store.old.cores store.new.cores }
{
    let door = standby::door(net, core.exposure);
    // The standbys of a core may end with any arc.
    let off = Barred {
        nodes: core.nodes,
        last: NO_ARC,
    };
    let key = plain::search(net, &mut store.labels, core.exposure, door, off, core.bound);
    store.cores.spend(store.labels.work());
    core.bound <= key
}

// A part of the core that holds as well: each hazard that it is exposed to is left out in turn, where that does no harm.
fn less_exposed(net: &Net, store: &mut Store, core: Core) -> Core
    requires { IsNet net.now × CoreHolds net.now core }
    ensures holds { CoreHolds net.now result }
    ensures same { (result.nodes ≡ core.nodes) × (result.bound ≡ core.bound) }
    ensures kept { CoresKept store.old.cores store.new.cores }
{
    let mut least = core;
    for r in 0..problem::HAZARDS {
        if exposure::is_exposed(least.exposure, r) {
            let less = Core {
                exposure: exposure::all_but(least.exposure, r),
                ..least
            };
            if still_holds(net, store, less) {
                least = less;
            }
        }
    }
    least
}

// The core with fewer nodes, if it holds as well: each is left out in turn, where that does no harm. A core without nodes covers mains that go anywhere.
fn fewer_nodes(net: &Net, store: &mut Store, core: Core) -> Core
    requires { IsNet net.now × CoreHolds net.now core }
    ensures holds { CoreHolds net.now result }
    ensures same { (result.exposure ≡ core.exposure) × (result.bound ≡ core.bound) }
    ensures kept { CoresKept store.old.cores store.new.cores }
{
    let mut least = core;
    for v in 0..=problem::LAST_NODE {
        if sets::has(least.nodes, v) {
            let fewer = Core {
                nodes: sets::without(least.nodes, sets::only(v)),
                ..least
            };
            if still_holds(net, store, fewer) {
                least = fewer;
            }
        }
    }
    least
}

// The least of `bound` and the keys of all standbys of a main that is exposed to this, that keep off what is barred.
fn best(net: &Net, store: &mut Store, main: Exposure, off: Barred, bound: u64) -> u64
    requires { IsNet net.now × Stored net.now store.old }
    ensures least { result ≡ least_of (quest (mesh_in net.now) main off) bound }
    ensures stored { Stored net.now store.new }
{
    if store.cores.cover(main, off.nodes, bound) {
        return bound;
    }
    let door = standby::door(net, main);
    let shortest = net.lower(net.source());
    if bound <= keys::standby_key(door, shortest) {
        return bound;
    }
    let key = plain::search(net, &mut store.labels, main, door, off, bound);
    // What holds of the standbys that do not end with one arc says nothing of the others.
    if off.last != NO_ARC {
        return key;
    }
    if !store.cores.is_due(store.labels.work()) {
        return key;
    }
    let found = Core {
        exposure: main,
        nodes: off.nodes,
        bound: key,
    };
    let less = less_exposed(net, store, found);
    let fewer = fewer_nodes(net, store, less);
    store.cores.remember(fewer);
    key
}

// The least of `bound` and the keys of all standbys of a main that is exposed to this, that keep off what is barred. No standby is shorter than the shortest way,
// so a bound below that length is raised to it: more mains are then covered by the same core.
pub fn best_key(net: &Net, store: &mut Store, main: Exposure, off: Barred, bound: u64) -> u64
    requires { IsNet net.now × Stored net.now store.old }
    ensures least { result ≡ least_of (quest (mesh_in net.now) main off) bound }
    ensures stored { Stored net.now store.new }
{
    if bound == 0 {
        return 0;
    }
    let top = keys::raised(bound, net.lower(net.source()));
    let key = best(net, store, main, off, top);
    bound.min(key)
}
