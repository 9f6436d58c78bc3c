// What plans a call whose checks have passed: from the table and the request to the floor and the pair, or to why there is none.
#![tactic(auto)]

ghost use Rattle.std.specs.Prelude.{◌≡◌, false, ◌%◌, ◌≤◌, ◌<◌, length, take};
ghost use Rattle.problem.specs.Table.{most_table_bytes, most_allowance, arcs_of};
ghost use Rattle.problem.specs.Spans.{marked_arcs};
ghost use Rattle.problem.specs.Closed.{shut_in};
ghost use Rattle.problem.specs.Reply.{mesh_over, Checked};
ghost use Rattle.closed.specs.Turned.{set_of};
ghost use Rattle.spans.specs.Marks.{NoSpan};
ghost use Rattle.net.specs.Net.{mesh_in};
ghost use Rattle.planner.specs.Planner.{Laid, Reads, PlannedOver};

use choose::Choice;
use closed::Closed;
use cores::Store;
use net::Net;
use problem::{Refusal, Request};

// What planning makes of a call that has a pair: the floor, and what else a reply says.
#[derive(Clone, Copy)]
pub struct Made {
    pub floor: u8,
    pub choice: Choice,
}

// Reads the arcs of a table as they are into a net, and says the floor, where there is a route: exactly where the shortest way fits the reach. `spanned` is
// false only where no arc has a span, `apart` where every pair is judged.
fn read_table(net: &mut Net, table: &[u8], q: Request, spanned: bool, apart: bool) -> Option<u8>
    requires { Checked table.now q × (spanned ≡ false → NoSpan (arcs_of table.now)) }
    ensures { Reads apart (mesh_over (arcs_of table.now) q) net.new result }
{
    let into = chain::chained(table, chain::End::Head);
    let side = side::side_table(table, &into, q.terminal as u8, exposure::nothing());
    let entry = side[q.source as usize];
    if !entry.reached || q.reach < entry.metres {
        return None;
    }
    let common = floor::common_exposure(table, &into, q, side);
    let floor = exposure::size(common);
    layout::lay_out(net, table, &into, q, side, spanned, apart);
    Some(floor as u8)
}

// Reads a call whose checks have passed. A table without spans is read as it is, any other with its spans known by their first arcs.
fn read_checked(net: &mut Net, table: &[u8], q: Request, apart: bool) -> Option<u8>
    requires { Checked table.now q }
    ensures { Reads apart (mesh_over (marked_arcs table.now) q) net.new result }
{
    if !spans::any(table) {
        return read_table(net, table, q, false, apart);
    }
    let mut marked = [0; problem::MOST_TABLE_BYTES];
    spans::put_all(&mut marked, table);
    read_table(net, &marked[0..table.len()], q, true, apart)
}

// Writes the table so, into a longer buffer, and says whether any arc has a span.
fn write_marked(out: &mut [u8], table: &[u8]) -> bool
    requires { (length table.now ≤ length out.old) × (length table.now ≤ most_table_bytes) × (length table.now % 16 ≡ 0) }
    ensures arcs { arcs_of (take (length table.now) out.new) ≡ marked_arcs table.now }
    ensures spanned { result ≡ false → NoSpan (arcs_of table.now) }
{
    if spans::any(table) {
        spans::put_all(out, table);
        return true;
    }
    octets::copy(out, 0, table);
    false
}

// Reads a call around the arcs that are closed. A set that closes none leaves the table as it is; else it is written anew, with the closed arcs turned round, where no route goes over them.
// Not built into its caller, so that what reading takes, copies of the table among it, is off the stack when the search begins.
#[inline(never)]
fn read_around(net: &mut Net, table: &[u8], set: Closed, q: Request, apart: bool) -> Option<u8>
    requires { Checked table.now q }
    ensures { Reads apart (mesh_over (shut_in (set_of set) (marked_arcs table.now)) q) net.new result }
{
    if !closed::any(set) {
        return read_checked(net, table, q, apart);
    }
    let mut around = [0; problem::MOST_TABLE_BYTES];
    let spanned = write_marked(&mut around, table);
    closed::turn_all(&mut around[0..table.len()], set, q);
    read_table(net, &around[0..table.len()], q, spanned, apart)
}

// Plans over a net that says some route, of which `floor` is the floor.
// Not built into its caller, so that the store of the search is not on the stack yet while the call is read.
#[inline(never)]
fn plan_net(net: &Net, allowance: u32, floor: u8) -> Result<Made, Refusal>
    requires { Laid net.now.apart (mesh_in net.now) net.now floor × (0 < allowance) × (allowance ≤ most_allowance) }
    ensures { PlannedOver net.now.apart (mesh_in net.now) allowance result }
{
    let most = allowance as u64;
    let mut store = Store::none();
    let run = plan::plan(net, &mut store, most, floor as u64);
    let choice = choose::choose(net, &mut store, most, run)?;
    Ok(Made { floor, choice })
}

// Plans a call whose checks have passed around the arcs that are closed: of every pair, or where `apart` of those that are apart.
pub fn plan_around(table: &[u8], set: Closed, q: Request, apart: bool) -> Result<Made, Refusal>
    requires { Checked table.now q }
    ensures { PlannedOver apart (mesh_over (shut_in (set_of set) (marked_arcs table.now)) q) q.allowance result }
{
    let mut net = Net::blank();
    let floor = read_around(&mut net, table, set, q, apart).ok_or(Refusal::NoRoute)?;
    plan_net(&net, q.allowance, floor)
}

// Plans one with nothing closed, of every pair.
pub fn plan_checked(table: &[u8], q: Request) -> Result<Made, Refusal>
    requires { Checked table.now q }
    ensures { PlannedOver false (mesh_over (marked_arcs table.now) q) q.allowance result }
{
    plan_around(table, Closed { arcs: 0 }, q, false)
}
