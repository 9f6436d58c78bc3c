// A closed set (T-06): which arcs it closes, whether all of them are in the table, and a table written so that no route goes over them.
#![tactic(auto)]

ghost use Rattle.std.specs.Prelude.{◌≡◌, not, ◌+◌, ◌*◌, ◌≤◌, ◌<◌, ◌^◌, eqb, ltb, length};
ghost use Rattle.problem.specs.Table.{last_node, most_in_table, most_table_bytes, arcs_of};
ghost use Rattle.problem.specs.Closed.{closed_size, closed_in, is_open};
ghost use Rattle.closed.specs.Turned.{set_of, turned_at, turned_in};

use problem::{ARC_BYTES, MOST_IN_TABLE, Request};

// All arcs of the largest table: how many bits a closed set has.
const ALL_ARCS: u8 = MOST_IN_TABLE as u8;

// The arcs that are closed: bit k is arc k's.
#[derive(Clone, Copy)]
pub struct Closed {
    pub arcs: u128,
}

// The set that sixteen bytes say.
pub fn read(bytes: &[u8]) -> Closed
    requires { length bytes.now ≡ closed_size }
    ensures { set_of result ≡ closed_in bytes.now }
{
    let low = u128::from(octets::number8(bytes, 0));
    let high = u128::from(octets::number8(bytes, 8));
    Closed {
        arcs: low + (high << 64),
    }
}

// Whether it closes any arc.
pub fn any(set: Closed) -> bool
    ensures { result ≡ not (eqb (set_of set) 0) }
{
    set.arcs != 0
}

// Whether it closes arc k.
fn has(set: Closed, k: u8) -> bool
    requires { k < most_in_table }
    ensures { result ≡ not (is_open (set_of set) k) }
{
    (set.arcs >> k) & 1 == 1
}

// Whether it closes none but the first n arcs.
pub fn inside(set: Closed, n: u8) -> bool
    requires { n ≤ most_in_table }
    ensures { result ≡ ltb (set_of set) (2 ^ n) }
{
    n == ALL_ARCS || set.arcs >> n == 0
}

// Turns arc k round, to lead from `tail` to `head`.
fn turn(table: &mut [u8], k: usize, tail: u8, head: u8)
    requires { 16 * k + 16 ≤ length table.old }
    ensures { table.new ≡ turned_at table.old k tail head }
{
    let start = ARC_BYTES * k;
    table[start] = tail;
    table[start + 1] = head;
}

// Turns each closed arc round, to lead from the terminal to the source. No route leaves the terminal, no shortest way to it goes over such an arc, and it is no door: so whatever is
// planned over the table then is planned over its open arcs, and what plans need not know of closed ones.
pub fn turn_all(table: &mut [u8], set: Closed, q: Request)
    requires { (length table.old ≤ most_table_bytes) × (q.source ≤ last_node) × (q.terminal ≤ last_node) }
    ensures { arcs_of table.new ≡ turned_in (set_of set) q.terminal q.source (arcs_of table.old) }
{
    for k in 0..table.len() / ARC_BYTES {
        if has(set, k as u8) {
            turn(table, k, q.terminal as u8, q.source as u8);
        }
    }
}
