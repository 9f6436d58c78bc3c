// Finds, in depth-first order, the first route of a wanted length that passes a test, and hands back its arcs. A lent store, in which searches for standbys
// remember what they learn, is handed on to the test; the search for a standby itself leaves labels in it.
#![tactic(auto)]

ghost use Rattle.std.specs.Prelude.{◌≡◌, true, false, ℕ, ◌+◌, ◌<◌, ◌≤◌, min, length, IfOk};
ghost use mathlib.Core.List.{Memᴰ};
ghost use Rattle.problem.specs.Table.{last_node, most_arcs, most_reach, most_allowance};
ghost use Rattle.problem.specs.Routes.{arc_at, route_of};
ghost use Rattle.net.specs.Net.{IsNet, arcs_in, mesh_in};
ghost use Rattle.bars.specs.Bars.{barred_by_list};
ghost use Rattle.labels.specs.Labels.{Shorter};
ghost use Rattle.cores.specs.Cores.{Stored};
ghost use Rattle.track.specs.Track.{route_in, Fit, Holds};
ghost use Rattle.find.specs.Find.{IsStandby, barred_for, is_wanted, shares_too_much, InRange, Sure, over_arc, OutcomeOverAll, Trails, Arrived};
ghost use Rattle.find.specs.Run.{places, is_found, arcs_found, behind_by, Begins, UnderWay, ArcsKnown, PutDown, Meets, Finding, Seeks};

use bars::Barred;
use cores::Store;
use labels::Labels;
use look::Leg;
use net::{Behind, Net};
use problem::{Exposure, PLACES};
use track::Track;

// No allowance is larger (01), so more are not counted.
const MOST_PASSED: u64 = problem::MOST_ALLOWANCE as u64;

// As what a route is wanted that keeps off what is barred: as a main; or as a standby, for a main exposed to `main`.
#[derive(Clone, Copy)]
pub enum Role {
    Main { off: Barred },
    Standby { main: Exposure, off: Barred },
}

impl Role {
    // What a route in this role keeps off.
    fn barred(&self) -> Barred
        ensures { result ≡ barred_for self.now }
    {
        match *self {
            Role::Main { off } => off,
            Role::Standby { off, .. } => off,
        }
    }
}

// What is wanted, a route of so many metres: as a main, one whose best standby has the key; as a standby, one that has it.
#[derive(Clone, Copy)]
pub struct Want {
    pub metres: u64,
    pub key: u64,
    pub role: Role,
}

// How many routes of the wanted length came before the one that was found, and that one. Only mains are counted: a search for a standby leaves routes out.
#[derive(Clone, Copy)]
pub struct Found {
    pub passed: u64,
    pub track: Track,
}

impl Want {
    // Whether a route of the wanted length, at whose end this lies behind and which ends with arc `last`, is the wanted one.
    fn accepts(&self, net: &Net, store: &mut Store, route: Behind, last: u64) -> bool
        requires { IsNet net.now × Stored net.now store.old × InRange self.now }
        ensures test { result ≡ is_wanted net.now.apart (mesh_in net.now) self.now route last }
        ensures stored { Stored net.now store.new }
        ensures same { IsStandby self.now.role → store.new ≡ store.old }
    {
        match self.role {
            Role::Main { .. } => {
                let off = bars::barred_by(net, route.met, last);
                cores::best_key(net, store, route.exposure, off, self.key + 1) == self.key
            }
            Role::Standby { main, off } => {
                last != off.last
                    && keys::standby_key(exposure::sharing(main, route.exposure), self.metres)
                        == self.key
            }
        }
    }

    // Whether what is exposed to this shares more with the main than the key of a wanted standby says: then nothing that goes on from there is wanted.
    fn shares_too_much(&self, e: Exposure) -> bool
        ensures { result ≡ shares_too_much self.now e }
    {
        match self.role {
            Role::Main { .. } => false,
            Role::Standby { main, .. } => {
                self.key < keys::standby_key(exposure::sharing(main, e), 0)
            }
        }
    }

    // Whether a way that is shorter than this, and shares no more with the main, came to v before: then nothing that goes on from here is wanted, if the wanted key
    // is the least that a standby has. Equal lengths are no reason: the first of equal routes is wanted. Where not, v is labelled. A main is never late.
    fn comes_late(&self, labels: &mut Labels, v: u64, metres: u64, e: Exposure) -> bool
        requires { v ≤ last_node }
        ensures late { result ≡ true → IsStandby self.now.role × Shorter labels.old v metres e }
        ensures arrived { Arrived self.now v metres e labels.old labels.new }
    {
        let Role::Standby { main, .. } = self.role else {
            return false;
        };
        if labels.shorter_known(v, metres, e) {
            return true;
        }
        labels.keep(v, metres, exposure::common(main, e));
        false
    }
}

// A search under way: what is wanted, how many have passed, and the arcs of the route, put down from its last to its first once it is found; none before. So one
// reference is handed on from call to call, and no call holds a track.
#[derive(Drop)]
struct Run {
    want: Want,
    passed: u64,
    count: usize,
    arcs: [u8; PLACES],
}

impl Run {
    // What a search for this begins with.
    fn new(want: Want) -> Self
        ensures { Begins want result }
    {
        Run {
            want,
            passed: 0,
            count: 0,
            arcs: [0; PLACES],
        }
    }

    fn is_found(&self) -> bool
        ensures { result ≡ is_found self.now }
    {
        0 < self.count
    }

    // Arc k goes in front of those put down.
    fn put_down(&mut self, k: u8)
        requires { self.old.count < places }
        ensures { PutDown k self.old self.new }
    {
        self.arcs[self.count] = k;
        self.count += 1;
    }
}

// A route ended with arc k, and `route` lies behind its end: if it is the wanted one, k is put down, and else only mains are counted.
fn meet(net: &Net, run: &mut Run, store: &mut Store, k: u64, route: Behind)
    requires { IsNet net.now × UnderWay run.old × Stored net.now store.old × (k < length (arcs_in net.now)) }
    ensures meets { Meets net.now k route run.old run.new }
    ensures stored { Stored net.now store.new }
    ensures same { IsStandby run.old.want.role → store.new ≡ store.old }
{
    if route.metres != run.want.metres {
        return;
    }
    if run.want.accepts(net, store, route, k) {
        run.put_down(k as u8);
        return;
    }
    if let Role::Main { .. } = run.want.role {
        run.passed = run.passed.saturating_add(1).min(MOST_PASSED);
    }
}

// The search over all that goes on from `at`, but for what is too long, shares too much or comes late. It stops at the first wanted route: then each call puts
// down the arc it went over, in front of those ahead. What lies behind is exposed to these risks and spans, handed on one by one, as in the sweep.
fn seek(
    net: &Net,
    run: &mut Run,
    store: &mut Store,
    at: u64,
    met: u64,
    metres: u64,
    risks: u64,
    low: u64,
    high: u64,
)
    requires finding { Finding net.now run.old at (behind_by met metres risks low high) }
    requires stored_2 { Stored net.now store.old × Trails (mesh_in net.now) run.old.want store.old.labels }
    ensures seeks { Seeks net.now at (behind_by met metres risks low high) run.old run.new }
    ensures stored { Stored net.now store.new }
    ensures trails { Trails (mesh_in net.now) run.old.want store.new.labels }
{
    let mut i = net.first(at);
    while i < net.arc_count() {
        let k = i;
        i = net.next(k);
        let e = Exposure { risks, low, high };
        match look::look(net, k, met, metres, e, run.want.metres) {
            Leg::Met => {}
            Leg::Past(_) => {}
            Leg::Ends(route) => {
                meet(net, run, store, k, route);
                if run.is_found() {
                    return;
                }
            }
            Leg::Leads(head, on) => {
                if run.want.shares_too_much(on.exposure) {
                    continue;
                }
                if run
                    .want
                    .comes_late(&mut store.labels, head, on.metres, on.exposure)
                {
                    continue;
                }
                seek(
                    net,
                    run,
                    store,
                    head,
                    on.met,
                    on.metres,
                    on.exposure.risks,
                    on.exposure.low,
                    on.exposure.high,
                );
                if run.is_found() {
                    run.put_down(k as u8);
                    return;
                }
            }
        }
    }
}

// The track t with arc k at its end.
fn over(net: &Net, k: u8, t: Track) -> Track
    requires { IsNet net.now × (k < length (arcs_in net.now)) × Fit t × (t.count < most_arcs) × (t.metres ≤ most_reach) }
    ensures { Holds result (over_arc (route_in t) k (arc_at (arcs_in net.now) k)) }
{
    let i = u64::from(k);
    track::extend(t, k, net.metres(i) as u32, net.exposure(i))
}

// The track of the arcs put down.
fn track_in(net: &Net, run: &Run) -> Track
    requires { IsNet net.now × ArcsKnown net.now run.now most_arcs }
    ensures { Holds result (route_of (arcs_in net.now) (arcs_found run.now)) }
{
    let mut t = track::empty();
    for k in run.arcs[..run.count].iter().rev() {
        t = over(net, *k, t);
    }
    t
}

// The first route, in depth-first order, that is wanted: as a main, or as a standby where its key is the least of all standbys of that main that keep off what
// is barred. Its arcs are arcs of the mesh. Where there is none, how many of the wanted length were passed over.
pub fn first_route(net: &Net, store: &mut Store, want: Want) -> Result<Found, u64>
    requires { IsNet net.now × Stored net.now store.old × InRange want }
    ensures fit { IfOk result (λ f. Fit f.track) }
    ensures first { Sure (mesh_in net.now) want
        → OutcomeOverAll net.now.apart (mesh_in net.now) want result }
    ensures known { IfOk result
        (λ f. (k : ℕ) → Memᴰ k (route_in f.track).arcs → k < length (arcs_in net.now)) }
    ensures stored { Stored net.now store.new }
{
    store.labels.clear();
    let source = net.source();
    let met = sets::with(want.role.barred().nodes, source as u8);
    let mut run = Run::new(want);
    seek(net, &mut run, store, source, met, 0, 0, 0, 0);
    if !run.is_found() {
        return Err(run.passed);
    }
    let track = track_in(net, &run);
    Ok(Found {
        passed: run.passed,
        track,
    })
}

// What a main bars its standbys from.
pub fn barred_by(net: &Net, main: &Track) -> Barred
    requires { IsNet net.now × Fit main.now × ((k : ℕ) → Memᴰ k (route_in main.now).arcs → k < length (arcs_in net.now)) }
    ensures { result ≡ barred_by_list net.now.apart (mesh_in net.now) (route_in main.now).arcs }
{
    let mut met = sets::with(0, net.source() as u8);
    let mut last = bars::NO_ARC;
    for k in &main.arcs[..main.count as usize] {
        last = u64::from(*k);
        met = sets::with(met, net.head(last) as u8);
    }
    bars::barred_by(net, met, last)
}
