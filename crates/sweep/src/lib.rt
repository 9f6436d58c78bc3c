// A sweep: every route of a window of lengths is handed to `mains` as a main, in whatever order it is met. It stores no route, and knows nothing of pairs.
#![tactic(auto)]

ghost use Rattle.std.specs.Prelude.{◌≡◌, ◌≤◌, false};
ghost use Rattle.problem.specs.Table.{most_reach};
ghost use Rattle.net.specs.Net.{IsNet, mesh_in};
ghost use Rattle.net.specs.Search.{behind};
ghost use Rattle.cores.specs.Cores.{Stored};
ghost use Rattle.sweep.specs.Sweep.{Sweeping, SweptAll};
ghost use Rattle.sweep.specs.Run.{cut_run, ended_run, Walks};

use cores::Store;
use look::Leg;
use net::{Behind, NO_LENGTH, Net};
use problem::Exposure;
use tally::Tally;

// The routes of lo to hi metres are mains; after `cap` of them in all, the sweep gives up.
#[derive(Clone, Copy)]
pub struct Window {
    pub lo: u64,
    pub hi: u64,
    pub cap: u64,
}

// A tally, and the least length at which anything was cut off for passing the window's end.
#[derive(Clone, Copy)]
pub struct Swept {
    pub tally: Tally,
    pub cut: u64,
}

// A sweep under way: its window, and what it has come to. One reference to it is handed on from call to call, and no struct is copied.
#[derive(Drop)]
struct Run {
    window: Window,
    swept: Swept,
}

// What is cut off is at least `to` metres long.
fn cut_at(run: &mut Run, to: u64)
    ensures { run.new ≡ cut_run to run.old }
{
    run.swept.cut = run.swept.cut.min(to);
}

// A route ended with arc `last` within the window's end, with `route` behind it.
fn meet_route(net: &Net, run: &mut Run, store: &mut Store, route: Behind, last: u64)
    requires { IsNet net.now × (route.metres ≤ most_reach) × Stored net.now store.old }
    ensures met { run.new ≡ ended_run net.now.apart (mesh_in net.now) route last run.old }
    ensures stored { Stored net.now store.new }
{
    if route.metres < run.window.lo {
        return;
    }
    run.swept.tally = mains::try_main(net, store, run.window.cap, route, last, run.swept.tally);
}

// The sweep of what grows from `at`. What lies behind it is exposed to these risks and spans, handed on one by one, which is quicker than one struct, by value or lent.
// Only a route's end passes the cap, so `over` is read after one and after a walk, and not at each arc.
fn walk(
    net: &Net,
    run: &mut Run,
    store: &mut Store,
    at: u64,
    met: u64,
    metres: u64,
    risks: u64,
    low: u64,
    high: u64,
)
    requires { Sweeping net.now run.old.window.hi at metres × (run.old.swept.tally.over ≡ false) × Stored net.now store.old }
    ensures walks { Walks net.now at (behind met metres (record { risks = risks; low = low; high = high })) run.old run.new }
    ensures stored { Stored net.now store.new }
{
    let mut i = net.first(at);
    while i < net.arc_count() {
        let k = i;
        i = net.next(k);
        let exposure = Exposure { risks, low, high };
        match look::look(net, k, met, metres, exposure, run.window.hi) {
            Leg::Met => {}
            Leg::Past(to) => {
                cut_at(run, to);
            }
            Leg::Ends(route) => {
                meet_route(net, run, store, route, k);
                if run.swept.tally.over {
                    return;
                }
            }
            Leg::Leads(head, on) => {
                walk(
                    net,
                    run,
                    store,
                    head,
                    on.met,
                    on.metres,
                    on.exposure.risks,
                    on.exposure.low,
                    on.exposure.high,
                );
                if run.swept.tally.over {
                    return;
                }
            }
        }
    }
}

// The tally after the routes of one window of lengths; past the cap nothing is walked.
pub fn sweep(net: &Net, store: &mut Store, w: Window, t: Tally) -> Swept
    requires { IsNet net.now × (w.hi ≤ (mesh_in net.now).reach) × Stored net.now store.old }
    ensures swept { SweptAll net.now.apart (mesh_in net.now) w t result }
    ensures stored { Stored net.now store.new }
{
    let swept = Swept {
        tally: t,
        cut: NO_LENGTH,
    };
    if t.over {
        return swept;
    }
    let source = net.source();
    let met = sets::with(0, source as u8);
    let mut run = Run { window: w, swept };
    walk(net, &mut run, store, source, met, 0, 0, 0, 0);
    run.swept
}
