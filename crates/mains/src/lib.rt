// A route tried as a main: with every standby that it does not bar, and counted in the tally. What is a pair, and what makes one better, is said here and not where routes are walked.
#![tactic(auto)]

ghost use Rattle.std.specs.Prelude.{◌≡◌, ◌≤◌};
ghost use Rattle.problem.specs.Table.{most_reach};
ghost use Rattle.net.specs.Net.{IsNet, mesh_in};
ghost use Rattle.bars.specs.Bars.{barred_by};
ghost use Rattle.cores.specs.Cores.{Stored};
ghost use Rattle.mains.specs.Mains.{best_with, tried};

use cores::Store;
use net::{Behind, Net};
use tally::Tally;

// The key of the best pair after a main, at whose end `main` lies behind and which ends with arc `last`, was tried with every standby that it does not bar.
fn best_with(net: &Net, store: &mut Store, main: Behind, last: u64, best: u64) -> u64
    requires { IsNet net.now × (main.metres ≤ most_reach) × Stored net.now store.old }
    ensures best { result ≡ best_with (mesh_in net.now) main (barred_by net.now.apart (mesh_in net.now) main.met last) best }
    ensures stored { Stored net.now store.new }
{
    let bound = keys::bound_for(best, main.metres);
    let off = bars::barred_by(net, main.met, last);
    let key = cores::best_key(net, store, main.exposure, off, bound);
    if key < bound {
        return keys::pair_of(main.metres, key);
    }
    best
}

// The tally after one more main; past the cap it only says that there was one more.
pub fn try_main(net: &Net, store: &mut Store, cap: u64, main: Behind, last: u64, t: Tally) -> Tally
    requires { IsNet net.now × (main.metres ≤ most_reach) × Stored net.now store.old }
    ensures tally { result ≡ tried net.now.apart (mesh_in net.now) cap main last t }
    ensures stored { Stored net.now store.new }
{
    if t.over {
        return t;
    }
    if cap <= t.ranked {
        return Tally { over: true, ..t };
    }
    let best = best_with(net, store, main, last, t.best);
    tally::one_more(main.metres, best, t)
}
