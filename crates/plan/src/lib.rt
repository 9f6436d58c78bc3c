// Windows of lengths, one after the other: the tally of all routes shorter than some length grows until it says how the reply ends.
#![tactic(auto)]

ghost use Rattle.std.specs.Prelude.{◌≡◌, ◌≤◌};
ghost use Rattle.problem.specs.Table.{most_reach, most_allowance};
ghost use Rattle.net.specs.Net.{IsNet};
ghost use Rattle.cores.specs.Cores.{Stored};
ghost use Rattle.plan.specs.Plan.{met_by, ended_at, Turning, Turned, Planning, Ended};

use cores::Store;
use net::Net;
use std::ops::ControlFlow;
use sweep::{Swept, Window};
use tally::Tally;

// How planning ends, and the tally then: settled by length; with all routes ranked; or at the allowance.
#[derive(Clone, Copy)]
pub enum Run {
    ByLength(Tally),
    AllRanked(Tally),
    AtAllowance(Tally),
}

// Where to go on: the tally of all routes shorter than `cur`, and how wide the next window is to be.
#[derive(Clone, Copy)]
struct Next {
    tally: Tally,
    cur: u64,
    width: u64,
}

const WIDEST: u64 = problem::MOST_REACH as u64;

// The tally before any main.
const START: Tally = Tally {
    ranked: 0,
    last: 0,
    best: keys::NO_KEY,
    over: false,
};

// The length test.
fn is_met(t: Tally, floor: u64) -> bool
    requires { t.last ≤ most_reach }
    ensures { result ≡ met_by t floor }
{
    keys::shared_of(t.best) == floor && keys::total_of(t.best) <= 2 * t.last
}

// The cap of a window. A wide one gives up early, since what it found is thrown away; one of a single length goes on to the allowance.
fn cap_for(ranked: u64, allowance: u64, width: u64) -> u64
    requires { (ranked ≤ allowance) × (allowance ≤ most_allowance) }
    ensures { (width ≡ 0 → result ≡ allowance) × (ranked ≤ result) × (result ≤ allowance) }
{
    if width == 0 {
        return allowance;
    }
    allowance.min(aim::many_more(ranked))
}

// How wide the next window is to be, once one has taken the routes ranked from `before` to `ranked`. Each window walks again over what is
// shorter, so it should hold several times as many routes: where their number grows slowly, it is to be much wider.
fn wider(width: u64, before: u64, ranked: u64) -> u64
    ensures { result ≤ most_reach }
{
    if WIDEST / 8 <= width {
        return WIDEST;
    }
    if ranked < 16 {
        return 2 * width + 1;
    }
    if ranked / 2 < before {
        return 8 * width + 1;
    }
    if ranked / 4 < before {
        return 3 * width + 1;
    }
    2 * width + 1
}

// The end of a run at the allowance, whose last window gave up.
fn ended_at(u: Tally, floor: u64) -> Run
    requires { u.last ≤ most_reach }
    ensures { result ≡ ended_at u floor }
{
    let t = Tally { over: false, ..u };
    if is_met(t, floor) {
        return Run::ByLength(t);
    }
    Run::AtAllowance(t)
}

// One window, and what it says of how to go on.
fn try_window(
    net: &Net,
    store: &mut Store,
    allowance: u64,
    floor: u64,
    now: Next,
) -> ControlFlow<Run, Next>
    requires { IsNet net.now × Planning net.now allowance floor × Turning net.now allowance now.tally now.cur now.width × Stored net.now store.old }
    ensures turned { Turned net.now allowance floor now.tally now.cur now.width result }
    ensures stored { Stored net.now store.new }
{
    let hi = net.reach().min(now.cur + now.width);
    let w = Window {
        lo: now.cur,
        hi,
        cap: cap_for(now.tally.ranked, allowance, hi - now.cur),
    };
    let Swept { tally, cut } = sweep::sweep(net, store, w, now.tally);
    if tally.over {
        if hi == now.cur {
            return ControlFlow::Break(ended_at(tally, floor));
        }
        return ControlFlow::Continue(Next {
            width: (hi - now.cur) / 2,
            ..now
        });
    }
    if is_met(tally, floor) {
        return ControlFlow::Break(Run::ByLength(tally));
    }
    ControlFlow::Continue(Next {
        tally,
        cur: cut,
        width: wider(now.width, now.tally.ranked, tally.ranked),
    })
}

// Windows one after the other, from the shortest length on.
pub fn plan(net: &Net, store: &mut Store, allowance: u64, floor: u64) -> Run
    requires { IsNet net.now × Planning net.now allowance floor × Stored net.now store.old }
    ensures ended { Ended net.now allowance result }
    ensures stored { Stored net.now store.new }
{
    let reach = net.reach();
    let shortest = net.lower(net.source());
    let mut next = Next {
        tally: START,
        cur: shortest,
        width: WIDEST.min(shortest / 8),
    };
    let mut end = None;
    while next.cur <= reach {
        let aim = aim::take_aim(net, allowance, next.tally.ranked, next.cur, next.width, end);
        end = aim.end;
        let aimed = Next {
            width: aim.width,
            ..next
        };
        match try_window(net, store, allowance, floor, aimed) {
            ControlFlow::Break(run) => {
                return run;
            }
            ControlFlow::Continue(on) => {
                next = on;
            }
        }
    }
    Run::AllRanked(next.tally)
}
