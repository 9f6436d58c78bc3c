// The arcs of one tail, chained, so that a search at a node passes over the arcs that leave other nodes; and so the arcs of one head.
#![tactic(auto)]

ghost use Rattle.std.specs.Prelude.{◌≡◌, ◌≤◌, ◌<◌};
ghost use Rattle.problem.specs.Table.{last_node, most_in_table, arcs_of};
ghost use Rattle.chain.specs.Chain.{first_in, next_in, end_of, Chainable, ChainedBy};

use problem::{ARC_BYTES, Arc, MOST_IN_TABLE, NODES};

// For each node its first arc, and for each arc the next of the same end; the number of arcs ends a chain.
#[derive(Clone, Copy)]
pub struct Chain {
    first: [u8; NODES],
    next: [u8; MOST_IN_TABLE],
}

impl Chain {
    // The first arc with this end at v.
    pub fn first(&self, v: u8) -> u8
        requires { v ≤ last_node }
        ensures { result ≡ first_in self.now v }
    {
        self.first[v as usize]
    }

    // The next arc of the same end as arc k.
    pub fn next(&self, k: usize) -> u8
        requires { k < most_in_table }
        ensures { result ≡ next_in self.now k }
    {
        self.next[k]
    }
}

// By which end arcs are chained: an enum and no closure, since what a chain says (`ChainedBy`) names the end, and a clause knows a closure by its calls alone.
#[derive(Clone, Copy)]
pub enum End {
    Tail,
    Head,
}

// The arc's node at that end.
fn end_of(a: Arc, end: End) -> u8
    ensures { result ≡ end_of end a }
{
    match end {
        End::Tail => a.tail,
        End::Head => a.head,
    }
}

// The chain of a table by one end, made from its last arc down: each arc comes before those of its node.
pub fn chained(table: &[u8], end: End) -> Chain
    requires { Chainable (end_of end) (arcs_of table.now) }
    ensures { ChainedBy (end_of end) (arcs_of table.now) result }
{
    let n = table.len() / ARC_BYTES;
    let none = n as u8;
    let mut chain = Chain {
        first: [none; NODES],
        next: [none; MOST_IN_TABLE],
    };
    for i in (0..n).rev() {
        let a = arcs::arc_at(table, i);
        let node = end_of(a, end) as usize;
        let behind = chain.first[node];
        chain.next[i] = behind;
        chain.first[node] = i as u8;
    }
    chain
}
