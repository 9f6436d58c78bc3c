// The best standby of a main: the least key, shared count before metres, of all routes, found by a search that leaves out what cannot be better: by the doors, by
// the lower bounds, and by labels that it leaves at the nodes it has gone on from. What it carries of the exposure behind it is a type's to say (`Carried`).
#![tactic(auto)]

ghost use Rattle.std.specs.Prelude.{◌≡◌, ◌<◌, ◌≤◌, length, List, ℕ};
ghost use Rattle.problem.specs.Table.{hazards, most_reach};
ghost use Rattle.problem.specs.Exposures.{to_nothing, of_arc, joined, sharing};
ghost use Rattle.problem.specs.declared.Exposure.{Exposure};
ghost use Rattle.problem.specs.Routes.{arc_at};
ghost use Rattle.net.specs.declared.Net.{Net};
ghost use Rattle.net.specs.Net.{IsNet, arcs_in, mesh_in};
ghost use Rattle.standby.specs.Standby.{EveryDoor, NewlyShared, Seeking, hop_at};
ghost use Rattle.standby.specs.Trail.{behind_by, hop_by, IfLeads};
ghost use Rattle.standby.specs.Ahead.{quest, NoneBelow, least_of};
ghost use Rattle.standby.specs.Sought.{Sought};

use bars::Barred;
use labels::Labels;
use net::Net;
use problem::Exposure;

// No two share more.
const MOST_SHARED: u64 = problem::HAZARDS as u64;

// How much the main shares with arc k. Where there are no spans, they are not gone into.
fn shared_with(net: &Net, main: Exposure, k: u64) -> u64
    requires { IsNet net.now × (k < length (arcs_in net.now)) }
    ensures { (result ≡ sharing main (of_arc (arc_at (arcs_in net.now) k))) × (result ≤ hazards) }
{
    if !net.spanned() {
        return exposure::shared_risks(main.risks, net.risks(k));
    }
    exposure::sharing(main, net.exposure(k))
}

// The fewest that the main shares with a door. The last arc of a standby is a door, so every standby shares at least as many: a search
// that knows it need not walk up to the terminal to learn it.
pub fn door(net: &Net, main: Exposure) -> u64
    requires { IsNet net.now }
    ensures { EveryDoor (mesh_in net.now) main result }
{
    let n = net.arc_count();
    let mut least = MOST_SHARED;
    let mut k = net.first_door();
    while k < n {
        let shared = shared_with(net, main, k);
        if shared == 0 {
            return 0;
        }
        least = least.min(shared);
        k = net.next_in(k);
    }
    least
}

// A main to search for: what it is exposed to, the fewest that it shares with a door, and the arc that its standbys must not end with.
#[derive(Drop)]
struct Main {
    exposure: Exposure,
    door: u64,
    last: u64,
}

// What a search carries from arc to arc of what the arcs behind it are exposed to.
pub trait Carried: Copy {
    // To what that is.
    ghost exposed_to: { Self → Exposure };

    // A net over which it tells all.
    ghost fits: { Net → Type 0 };

    // It is true of a main that is exposed to this.
    ghost told: { Exposure → Self → Type 0 };

    // Where nothing lies behind.
    fn nothing() -> Self
        ensures exposed { exposed_to result ≡ to_nothing }
        ensures told { (main : Exposure) → told main result };

    // How much the main shares once arc i lies behind too.
    fn shared_over(&self, net: &Net, i: u64, main: &Exposure) -> u64
        requires { IsNet net.now × (i < length (arcs_in net.now)) × fits net.now × told main.now self.now }
        ensures is { result ≡ sharing main.now (joined (exposed_to self.now) (of_arc (arc_at (arcs_in net.now) i))) }
        ensures most { result ≤ hazards };

    // With arc i behind too, once that much is known: few arcs are gone over of those that are looked at.
    fn over(&self, net: &Net, i: u64, shared: u64) -> Self
        requires { IsNet net.now × (i < length (arcs_in net.now)) × fits net.now }
        ensures exposed { exposed_to result ≡ joined (exposed_to self.now) (of_arc (arc_at (arcs_in net.now) i)) }
        ensures told { (main : Exposure) → shared ≡ sharing main (joined (exposed_to self.now) (of_arc (arc_at (arcs_in net.now) i))) → told main result };

    fn exposure(&self) -> Exposure
        ensures { result ≡ exposed_to self.now };
}

// Risks and spans, and how much the main shares of them.
#[derive(Clone, Copy)]
pub struct BySpans {
    exposure: Exposure,
    shared: u64,
}

// How many more the main shares once arc i lies behind the search too. Most arcs add few, so that only what is new is counted.
fn newly_shared(net: &Net, i: u64, main: &Exposure, before: &Exposure) -> u64
    requires { IsNet net.now × (i < length (arcs_in net.now)) }
    ensures { NewlyShared main.now before.now (of_arc (arc_at (arcs_in net.now) i)) result }
{
    let new = exposure::newly(main.risks, before.risks, net.risks(i));
    let low = exposure::newly(main.low, before.low, net.low(i));
    let high = exposure::newly(main.high, before.high, net.high(i));
    new + low + high
}

impl Carried for BySpans {
    ghost exposed_to = { λ c. c.exposure };

    ghost fits = { λ net. Unit {0} };

    ghost told = { λ main c. c.shared ≡ sharing main c.exposure };

    fn nothing() -> BySpans {
        BySpans {
            exposure: exposure::nothing(),
            shared: 0,
        }
    }

    fn shared_over(&self, net: &Net, i: u64, main: &Exposure) -> u64 {
        self.shared + newly_shared(net, i, main, &self.exposure)
    }

    fn over(&self, net: &Net, i: u64, shared: u64) -> BySpans {
        BySpans {
            exposure: exposure::joined(self.exposure, net.exposure(i)),
            shared: shared,
        }
    }

    fn exposure(&self) -> Exposure {
        self.exposure
    }
}

// What lies behind a search that stands at a node: the nodes met, that one among them, the metres, and what is carried of what the arcs are exposed to.
#[derive(Clone, Copy)]
struct Trail<C> {
    met: u64,
    metres: u64,
    carried: C,
}

// An arc looked at.
#[derive(Clone, Copy)]
enum Hop<B> {
    // No standby over it is better.
    Passed,
    // It ends a better standby, of this key.
    Ends(u64),
    // A better standby may go on from its head, with this behind it.
    Leads(u64, B),
}

// What arc i is to the search for a standby of a key below `least`.
fn look<C: Carried>(net: &Net, i: u64, main: &Main, trail: &Trail<C>, least: u64) -> Hop<Trail<C>>
    requires { IsNet net.now × (i < length (arcs_in net.now)) × (trail.now.metres ≤ most_reach) × (main.now.door ≤ hazards)
        × C.fits net.now × C.told main.now.exposure trail.now.carried }
    ensures is { hop_by (behind_by C.exposed_to) result
        ≡ hop_at net.now main.now.exposure main.now.door main.now.last least (behind_by C.exposed_to trail.now) i }
    ensures told { IfLeads (λ on. C.told main.now.exposure on.carried) result }
{
    let head = net.head(i);
    if sets::has(trail.met, head as u8) {
        return Hop::Passed;
    }
    let metres = trail.metres + net.metres(i);
    let to = metres + net.lower(head);
    if net.reach() < to {
        return Hop::Passed;
    }
    let shared = trail.carried.shared_over(net, i, &main.exposure);
    let key = keys::standby_key(main.door.max(shared), to);
    if least <= key {
        return Hop::Passed;
    }
    if head == net.terminal() {
        if i == main.last {
            return Hop::Passed;
        }
        return Hop::Ends(key);
    }
    let on = Trail {
        met: sets::with(trail.met, head as u8),
        metres: metres,
        carried: trail.carried.over(net, i, shared),
    };
    Hop::Leads(head, on)
}

// The least of `bound` and the keys of the standbys that go on from `at` with so much behind them, but for those that a label or a node behind makes needless.
fn seek<C: Carried>(
    net: &Net,
    labels: &mut Labels,
    main: &Main,
    at: u64,
    trail: &Trail<C>,
    bound: u64,
) -> u64
    requires { Seeking net.now main.now.exposure main.now.door at trail.now.metres
        × C.fits net.now × C.told main.now.exposure trail.now.carried }
    ensures { Sought net.now main.now.exposure main.now.last at (behind_by C.exposed_to trail.now) bound labels.old labels.new result }
{
    let n = net.arc_count();
    let mut least = bound;
    let mut i = net.first(at);
    while i < n {
        let k = i;
        i = net.next(k);
        match look(net, k, main, trail, least) {
            Hop::Passed => {}
            Hop::Ends(key) => {
                least = key;
            }
            Hop::Leads(head, on) => {
                if !labels.known(head, on.metres, on.carried.exposure()) {
                    least = seek(net, labels, main, head, &on, least);
                }
            }
        }
    }
    labels.keep(
        at,
        trail.metres,
        exposure::common(main.exposure, trail.carried.exposure()),
    );
    least
}

// The least of `bound` and the keys of all standbys of a main that is exposed to this, that keep off what is barred. Which labels there were does not matter.
pub fn search<C: Carried>(
    net: &Net,
    labels: &mut Labels,
    main: Exposure,
    door: u64,
    off: Barred,
    bound: u64,
) -> u64
    requires { IsNet net.now × C.fits net.now × EveryDoor (mesh_in net.now) main door }
    ensures least { result ≡ least_of (quest (mesh_in net.now) main off) bound }
    ensures below { NoneBelow (quest (mesh_in net.now) main off) result }
{
    labels.clear();
    let source = net.source();
    let trail = Trail {
        met: sets::with(off.nodes, source as u8),
        metres: 0,
        carried: C::nothing(),
    };
    let main = Main {
        exposure: main,
        door: door,
        last: off.last,
    };
    seek(net, labels, &main, source, &trail, bound)
}
