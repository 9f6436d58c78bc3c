// A checked table laid out in the net that searches walk over.
#![tactic(auto)]

ghost use Rattle.std.specs.Prelude.{◌≡◌, false, ◌≤◌, ◌<◌, length};
ghost use Rattle.problem.specs.Table.{most_table_bytes, arcs_of};
ghost use Rattle.problem.specs.Exposures.{to_nothing};
ghost use Rattle.problem.specs.Reply.{mesh_over, Checked};
ghost use Rattle.spans.specs.Marks.{NoSpan};
ghost use Rattle.side.specs.Side.{SideTable};
ghost use Rattle.chain.specs.declared.End.{End};
ghost use Rattle.chain.specs.Chain.{end_of, ChainedBy};
ghost use Rattle.layout.specs.Layout.{lower_of, ArcsLaid, StopsLaid, LaidOut};

use chain::Chain;
use net::{Link, Net, Stop};
use problem::{ARC_BYTES, NODES, Request};
use side::Distance;

// The lower bound of a node from which no way leads on: past every reach.
pub const FAR: u32 = 4000000000;

// Writes every arc: its link, what it is exposed to, and its span. `chain` is the arcs chained by their tails, `into` by their heads.
fn lay_arcs(net: &mut Net, table: &[u8], chain: &Chain, into: &Chain)
    requires { length table.now ≤ most_table_bytes }
    ensures { ArcsLaid (arcs_of table.now) chain.now into.now net.new.links net.new.exposures net.new.spans }
{
    for k in 0..table.len() / ARC_BYTES {
        let arc = arcs::arc_at(table, k);
        net.links[k] = Link {
            metres: arc.metres,
            tail: arc.tail,
            head: arc.head,
            next: chain.next(k),
            next_in: into.next(k),
        };
        net.exposures[k] = exposure::of_arc(arc);
        net.spans[k] = arc.span;
    }
}

// A length that no way from a node to the terminal is shorter than, by the node's entry in the side table.
fn lower_of(entry: Distance) -> u32
    ensures { result ≡ lower_of entry }
{
    if entry.reached { entry.metres } else { FAR }
}

// Writes the stop of every node: its first arc and its lower bound.
fn lay_stops(stops: &mut [Stop; NODES], chain: &Chain, side: [Distance; NODES])
    ensures { StopsLaid chain.now side stops.new }
{
    for v in 0..NODES {
        stops[v] = Stop {
            first: chain.first(v as u8),
            lower: lower_of(side[v]),
        };
    }
}

// Lays out the table and the request, over whatever stands in the net. `into` is the arcs chained by their heads, `side` the side table with nothing banned;
// `spanned` is false only where no arc has a span, `apart` where every pair is judged.
pub fn lay_out(
    net: &mut Net,
    table: &[u8],
    into: &Chain,
    q: Request,
    side: [Distance; NODES],
    spanned: bool,
    apart: bool,
)
    requires checked { Checked table.now q × (spanned ≡ false → NoSpan (arcs_of table.now)) }
    requires chain { ChainedBy (end_of End.Head) (arcs_of table.now) into.now × SideTable (arcs_of table.now) q.terminal to_nothing side }
    ensures { LaidOut (mesh_over (arcs_of table.now) q) side apart net.new }
{
    let chain = chain::chained(table, chain::End::Tail);
    lay_arcs(net, table, &chain, into);
    lay_stops(&mut net.stops, &chain, side);
    net.count = (table.len() / ARC_BYTES) as u8;
    net.source = q.source as u8;
    net.terminal = q.terminal as u8;
    net.reach = q.reach;
    net.first_door = into.first(q.terminal as u8);
    net.spanned = spanned;
    net.apart = apart;
}
