// From the end of a run to the reply: the pair is known by its numbers alone until here, and its routes are looked for once.
#![tactic(auto)]

ghost use Rattle.std.specs.Prelude.{◌≡◌, ℕ, ◌≤◌};
ghost use Rattle.problem.specs.Table.{most_allowance};
ghost use Rattle.problem.specs.Routes.{count, shorter};
ghost use Rattle.net.specs.Net.{IsNet, mesh_in, routes_in, judged_in};
ghost use Rattle.cores.specs.Cores.{Stored};
ghost use Rattle.plan.specs.declared.Run.TheVariants.{ByLength};
ghost use Rattle.plan.specs.Plan.{Ended};
ghost use Rattle.choose.specs.Choose.{PairChosen, Chosen, Readable, ReadOff, OfStep, ByKey, AsRanked, step_by, Halved};

use cores::Store;
use find::{Role, Want};
use net::Net;
use plan::Run;
use problem::{Refusal, Verdict};
use sweep::Window;
use tally::Tally;
use track::Track;

// A pair that is chosen: whether the choice is final, how many routes were ranked, and the two.
#[derive(Clone, Copy)]
pub struct Choice {
    pub verdict: Verdict,
    pub ranked: u32,
    pub main: Track,
    pub standby: Track,
}

// How many routes are shorter than so many metres: a sweep in which no pair can get better.
fn count_shorter(net: &Net, store: &mut Store, metres: u64, cap: u64) -> u64
    requires net { IsNet net.now × (metres ≤ (mesh_in net.now).reach) × (count (shorter metres) (routes_in net.now) ≤ cap) }
    requires stored { Stored net.now store.old }
    ensures { result ≡ count (shorter metres) (routes_in net.now) }
{
    if metres == 0 {
        return 0;
    }
    let w = Window {
        lo: 0,
        hi: metres - 1,
        cap,
    };
    let t = Tally {
        ranked: 0,
        last: 0,
        best: 0,
        over: false,
    };
    sweep::sweep(net, store, w, t).tally.ranked
}

// A pair's numbers, read off its key: the standby's key, the main's metres and the standby's.
#[derive(Clone, Copy)]
struct Numbers {
    key: u64,
    main: u64,
    standby: u64,
}

fn read_off(best: u64) -> Numbers
    requires { Readable best }
    ensures { ReadOff best result }
{
    let main = keys::main_of(best);
    let standby = keys::total_of(best) - main;
    Numbers {
        key: keys::standby_key(keys::shared_of(best), standby),
        main,
        standby,
    }
}

// A pair, and how many routes of the main's length stand before the main.
#[derive(Clone, Copy)]
struct Pairing {
    main: Track,
    standby: Track,
    passed: u64,
}

// The pair whose key is `best`: the first main of its length, in depth-first order, that makes such a pair, and the first standby that makes it with that main and
// keeps off what the main bars. Some step's best pair has that key, so both are found.
fn pair_by(net: &Net, store: &mut Store, best: u64) -> Pairing
    requires words { IsNet net.now × Stored net.now store.old }
    requires of_step { (step : ℕ) × OfStep (judged_in net.now) (routes_in net.now) best step }
    ensures pair { ByKey (judged_in net.now) (routes_in net.now) best result }
    ensures stored { Stored net.now store.new }
{
    let n = read_off(best);
    let main_wanted = Want {
        metres: n.main,
        key: n.key,
        role: Role::Main {
            off: bars::nothing(),
        },
    };
    let main = find::first_route(net, store, main_wanted).unwrap();
    let standby_wanted = Want {
        metres: n.standby,
        key: n.key,
        role: Role::Standby {
            main: main.track.exposure,
            off: find::barred_by(net, &main.track),
        },
    };
    let standby = find::first_route(net, store, standby_wanted).unwrap();
    Pairing {
        main: main.track,
        standby: standby.track,
        passed: main.passed,
    }
}

// The step that a settled reply ranks: the routes shorter than half the total and one more, or the main's own place where the main is as long.
fn settled_step(
    net: &Net,
    store: &mut Store,
    allowance: u64,
    main: u64,
    total: u64,
    passed: u64,
) -> u64
    requires { IsNet net.now × Halved net.now allowance main total passed × Stored net.now store.old }
    ensures { result ≡ step_by (routes_in net.now) main total passed }
{
    let half = (total + 1) / 2;
    let shorter = count_shorter(net, store, half, allowance);
    if main == half {
        return shorter + passed + 1;
    }
    shorter + 1
}

// The reply of a run that ended settled by length: what is ranked is the step that settles, not where the run ended.
fn settled(net: &Net, store: &mut Store, allowance: u64, t: Tally) -> Choice
    requires { IsNet net.now × (allowance ≤ most_allowance) × Ended net.now allowance (ByLength t) × Stored net.now store.old }
    ensures { PairChosen (judged_in net.now) (routes_in net.now) allowance result }
{
    let p = pair_by(net, store, t.best);
    let main = p.main.metres as u64;
    let total = main + p.standby.metres as u64;
    let step = settled_step(net, store, allowance, main, total, p.passed);
    Choice {
        verdict: Verdict::Settled,
        ranked: step as u32,
        main: p.main,
        standby: p.standby,
    }
}

// The reply of a run that ranked no more than it replies; `none` where it found no pair.
fn as_ranked(
    net: &Net,
    store: &mut Store,
    allowance: u64,
    t: Tally,
    verdict: Verdict,
    none: Refusal,
) -> Result<Choice, Refusal>
    requires { IsNet net.now × (allowance ≤ most_allowance) × AsRanked (judged_in net.now) (routes_in net.now) allowance t verdict none × Stored net.now store.old }
    ensures { Chosen (judged_in net.now) (routes_in net.now) allowance result }
{
    if t.best == keys::NO_KEY {
        return Err(none);
    }
    let p = pair_by(net, store, t.best);
    Ok(Choice {
        verdict,
        ranked: t.ranked as u32,
        main: p.main,
        standby: p.standby,
    })
}

// The pair's routes, the number ranked and the verdict, from the end of a run; or why there is no pair.
pub fn choose(net: &Net, store: &mut Store, allowance: u64, run: Run) -> Result<Choice, Refusal>
    requires { IsNet net.now × (allowance ≤ most_allowance) × Ended net.now allowance run × Stored net.now store.old }
    ensures { Chosen (judged_in net.now) (routes_in net.now) allowance result }
{
    match run {
        Run::ByLength(t) => Ok(settled(net, store, allowance, t)),
        Run::AllRanked(t) => {
            as_ranked(net, store, allowance, t, Verdict::Settled, Refusal::NoPair)
        }
        Run::AtAllowance(t) => {
            as_ranked(
                net,
                store,
                allowance,
                t,
                Verdict::Stopped,
                Refusal::NoPairYet,
            )
        }
    }
}
