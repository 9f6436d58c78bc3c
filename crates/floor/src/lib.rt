// What lies on every route, from which the floor is counted (01, Routes and their ranking).
#![tactic(auto)]

ghost use Rattle.std.specs.Prelude.{◌≡◌, true, ◌≤◌, ◌<◌, List};
ghost use Rattle.problem.specs.Table.{last_node, arcs_of, hazards, SoundArc};
ghost use Rattle.problem.specs.Exposures.{to_nothing};
ghost use Rattle.problem.specs.Routes.{ranking};
ghost use Rattle.problem.specs.Pairs.{on_every};
ghost use Rattle.problem.specs.Reply.{mesh_over, Checked};
ghost use Rattle.chain.specs.declared.End.{End};
ghost use Rattle.chain.specs.Chain.{end_of, ChainedBy};
ghost use Rattle.side.specs.Side.{SideTable};
ghost use Rattle.floor.specs.Clearing.{start_of, Begun, GoneOver, Finished};
ghost use Rattle.side.specs.declared.Distance.{Distance};
ghost use Rattle.floor.specs.Floor.{is_near, narrowed, Asked};

use chain::Chain;
use problem::{ARC_BYTES, Arc, Exposure, HAZARDS, NODES, Request};
use side::Distance;

// Clearing ends long before: a node is gone back to only when it has fewer risks left, and each turn of it is an arc or a node. No promise rests on the bound,
// which only makes it plain that it ends.
const MOST_TURNS: u32 = 1000000;

// A call whose checks have passed, and its arcs chained by their heads.
#[derive(Clone, Copy)]
struct Call<'a> {
    table: &'a [u8],
    into: &'a Chain,
    q: Request,
    ghost checked: { Checked table.now q },
    ghost chained: { ChainedBy (end_of End.Head) (arcs_of table.now) into.now },
}

// What clearing holds of a node: whether a way leads to the terminal, a length, and what no way found of at most that length avoids; each
// other risk is avoided by one of these.
#[derive(Clone, Copy)]
struct Held {
    entry: Distance,
    exposure: Exposure,
}

// Before any arc: no way is known that avoids anything. From the terminal, no arc at all avoids every risk. Filled place by place: what `map` makes of the entries
// stands on the stack three times over.
fn start(plain: [Distance; NODES], terminal: usize) -> [Held; NODES]
    requires { terminal ≤ last_node }
    ensures { result ≡ start_of plain terminal }
{
    let all = Held {
        entry: plain[terminal],
        exposure: exposure::all(),
    };
    let mut ways = [all; NODES];
    for v in 0..NODES {
        ways[v] = Held {
            entry: plain[v],
            ..all
        };
    }
    ways[terminal].exposure = exposure::nothing();
    ways
}

// What going over an arc does: its tail avoids no more, or it avoids more, or the reach keeps it from that.
enum Over {
    Same,
    More,
    OutOfReach,
}

// Goes over an arc: the tail can avoid what the head can, but for what the arc is exposed to.
fn go_over(ways: &mut [Held; NODES], a: Arc, reach: u32) -> Over
    requires { SoundArc a }
    ensures { GoneOver reach ways.old a result ways.new }
{
    let tail = a.tail as usize;
    let old = ways[tail];
    if exposure::is_nothing(old.exposure) {
        return Over::Same;
    }
    let to = ways[a.head as usize];
    let new = exposure::left_over(old.exposure, a, to.exposure);
    if !to.entry.reached || exposure::is_same(new, old.exposure) {
        return Over::Same;
    }
    // As wide as it takes, since the reach may be any number.
    let metres = to.entry.metres as u64 + a.metres as u64;
    if metres > reach as u64 {
        return Over::OutOfReach;
    }
    let entry = Distance {
        metres: old.entry.metres.max(metres as u32),
        reached: old.entry.reached,
    };
    ways[tail] = Held {
        entry,
        exposure: new,
    };
    Over::More
}

// Clears risks from the terminal outward. All risks are cleared side by side, so that this does what would take a side table for each risk. `pending` is the
// nodes that can avoid more since the arcs into them were gone over, k the next arc into the node at hand. It ends where none is pending, or the source has no
// risk left, and says whether what the source is still exposed to is sure to lie on every way. The ways are lent as they are before any arc (`start`): a fill
// of them by value would stand on the stack twice.
fn clear(call: &Call, ways: &mut [Held; NODES]) -> bool
    requires { (plain : List Distance) × Begun plain call.now.q.terminal ways.old }
    ensures { (plain : List Distance) → SideTable (arcs_of call.now.table.now) call.now.q.terminal to_nothing plain
        → Begun plain call.now.q.terminal ways.old → Finished (mesh_over (arcs_of call.now.table.now) call.now.q) plain ways.new result }
{
    let q = call.q;
    let n = call.table.len() / ARC_BYTES;
    let mut pending = sets::with(0, q.terminal as u8);
    let mut cut = false;
    let mut k = n;
    for _ in 0..MOST_TURNS {
        if n <= k {
            if pending == 0 {
                return !cut;
            }
            if exposure::is_nothing(ways[q.source as usize].exposure) {
                return true;
            }
            let head = sets::lowest(pending);
            pending &= pending - 1;
            k = call.into.first(head) as usize;
            continue;
        }
        let a = arcs::arc_at(call.table, k);
        k = call.into.next(k) as usize;
        match go_over(ways, a, q.reach) {
            Over::Same => {}
            Over::More => pending = sets::with(pending, a.tail),
            Over::OutOfReach => cut = true,
        }
    }
    false
}

// Whether an entry says a way within reach.
#[tactic(auto, unfolding(crate::specs::Floor::is_near))]
fn is_near(e: Distance, reach: u32) -> bool
    ensures { result ≡ is_near e reach }
{
    e.reached && e.metres <= reach
}

// Only what the source is exposed to as well, where its entry's length is within reach; else all of it.
fn narrow(left: Exposure, ways: &[Held; NODES], q: Request) -> Exposure
    requires { q.source ≤ last_node }
    ensures { result ≡ narrowed left ways.now q.source q.reach }
{
    let there = ways[q.source as usize];
    if is_near(there.entry, q.reach) {
        exposure::common(left, there.exposure)
    } else {
        left
    }
}

// What is left once risk r of it is asked about: r is taken out where a way within reach is free of it.
fn ask(call: &Call, left: Exposure, r: u8) -> Exposure
    requires { r < hazards }
    ensures { Asked (mesh_over (arcs_of call.now.table.now) call.now.q) left r result }
{
    if !exposure::is_exposed(left, r) {
        return left;
    }
    let q = call.q;
    let only = exposure::one(r);
    let s = side::side_table(call.table, call.into, q.terminal as u8, only);
    if is_near(s[q.source as usize], q.reach) {
        exposure::all_but(left, r)
    } else {
        left
    }
}

// What lies on every route; all that there is where there is no route. `into` is the arcs chained by their heads, `side` the side table with nothing
// banned. Clearing mostly says what that is; where the reach has kept it from being sure, what it leaves is asked about risk by risk.
pub fn common_exposure(table: &[u8], into: &Chain, q: Request, side: [Distance; NODES]) -> Exposure
    requires checked { Checked table.now q × ChainedBy (end_of End.Head) (arcs_of table.now) into.now }
    requires side_table { SideTable (arcs_of table.now) q.terminal to_nothing side }
    ensures { result ≡ on_every (ranking (mesh_over (arcs_of table.now) q)) }
{
    let call = Call { table, into, q };
    let mut ways = start(side, q.terminal as usize);
    let is_sure = clear(&call, &mut ways);
    let mut left = narrow(exposure::all(), &ways, q);
    if !is_sure {
        for r in 0..HAZARDS {
            left = ask(&call, left, r);
        }
    }
    left
}
