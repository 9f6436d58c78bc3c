// The side table: for each node the shortest length to the terminal over arcs that are exposed to nothing banned (01, When a reply is settled).
#![tactic(auto)]

ghost use Rattle.std.specs.Prelude.{◌≡◌, true, ◌+◌, ◌≤◌, ◌<◌, ◌^◌, length, filter};
ghost use Rattle.std.specs.Iterator.{YieldsFirst, item_count};
ghost use Rattle.problem.specs.Table.{last_node, nodes, most_in_table, arcs_of, all_sound};
ghost use Rattle.problem.specs.Exposures.{of_arc, disjoint};
ghost use Rattle.chain.specs.declared.End.{End};
ghost use Rattle.chain.specs.Chain.{end_of, ChainedBy};
ghost use Rattle.side.specs.Side.{SideTable};
ghost use Rattle.side.specs.Relaxing.{Fits, is_nearer, nearer_of, relaxed_in, start_of, Nearest, free_into, frees_from, Finishing, finished_in, tails_into};

use chain::Chain;
use problem::{ARC_BYTES, Arc, Exposure, NODES};

// What the table says of a node: the shortest length, and whether the terminal can be reached at all. Two fields and no Option: 01 has a lent slice of such
// structs relaxed arc by arc.
#[derive(Clone, Copy)]
pub struct Distance {
    pub metres: u32,
    pub reached: bool,
}

// Whether an arc of these metres brings its tail nearer, by the entries of its tail and its head.
#[tactic(auto, unfolding(crate::specs::Relaxing::is_nearer))]
fn is_nearer(tail: Distance, head: Distance, metres: u32) -> bool
    requires { head.metres + metres < 2 ^ 32 }
    ensures { result ≡ is_nearer tail head metres }
{
    head.reached && (!tail.reached || head.metres + metres < tail.metres)
}

// The tail's entry once the arc is relaxed: over the arc and on as its head's entry says, where that is nearer.
fn nearer(tail: Distance, head: Distance, metres: u32) -> Distance
    requires { head.metres + metres < 2 ^ 32 }
    ensures { result ≡ nearer_of tail head metres }
{
    if is_nearer(tail, head, metres) {
        Distance {
            metres: head.metres + metres,
            reached: true,
        }
    } else {
        tail
    }
}

// Relaxes an arc in a lent table: its tail's entry becomes what `nearer` says.
fn relax(entries: &mut [Distance], tail: usize, head: usize, metres: u32)
    requires { Fits entries.old tail head metres }
    ensures { entries.new ≡ relaxed_in entries.old tail head metres }
{
    entries[tail] = nearer(entries[tail], entries[head], metres);
}

// The entries before any arc is relaxed: only the terminal is reached.
fn start(terminal: usize) -> [Distance; NODES]
    requires { terminal ≤ last_node }
    ensures { result ≡ start_of terminal }
{
    let unreached = Distance {
        metres: 0,
        reached: false,
    };
    let mut entries = [unreached; NODES];
    entries[terminal] = Distance {
        metres: 0,
        reached: true,
    };
    entries
}

// The nearest of some nodes. No others are looked at: from the lowest on, each is taken away.
fn nearest(entries: &[Distance; NODES], among: u64) -> u8
    requires { (0 < among) × (among < 2 ^ nodes) }
    ensures { Nearest entries.now among result }
{
    let mut best = sets::lowest(among);
    let mut rest = among & (among - 1);
    while rest != 0 {
        let v = sets::lowest(rest);
        rest &= rest - 1;
        let here = entries[v as usize];
        let there = entries[best as usize];
        if here.metres < there.metres {
            best = v;
        }
    }
    best
}

// Whether the arc is free. Mostly nothing is banned, and then what it is exposed to is not looked at.
fn is_free(a: Arc, banned: Exposure) -> bool
    ensures { result ≡ disjoint (of_arc a) banned }
{
    exposure::is_nothing(banned) || exposure::is_disjoint(exposure::of_arc(a), banned)
}

// A sound table, its arcs chained by their heads, and what is banned: the arcs that are exposed to nothing of that are free.
#[derive(Clone, Copy)]
struct Arcs<'a> {
    table: &'a [u8],
    into: &'a Chain,
    banned: Exposure,
    ghost few: { length (arcs_of table.now) ≤ most_in_table },
    ghost sound: { all_sound (arcs_of table.now) ≡ true },
    ghost chained: { ChainedBy (end_of End.Head) (arcs_of table.now) into.now },
}

impl<'a> Arcs<'a> {
    // The free arcs into v.
    fn free_into(&self, v: u8) -> FreeArcs<'a>
        requires { v ≤ last_node }
        ensures { let own = result.arcs in frees_from own.banned (arcs_of own.table.now) result.next ≡ filter (free_into self.now.banned v) (arcs_of self.now.table.now) }
    {
        FreeArcs {
            arcs: *self,
            next: self.into.first(v) as usize,
        }
    }
}

// The free arcs into a node, from arc `next` on.
#[derive(Drop)]
struct FreeArcs<'a> {
    arcs: Arcs<'a>,
    next: usize,
    ghost inside: { next ≤ length (arcs_of arcs.table.now) },
}

impl Iterator for FreeArcs<'_> {
    type Item = Arc;

    ghost remaining = { item_count (λ s. frees_from s.arcs.banned (arcs_of s.arcs.table.now) s.next) };

    ghost next_gives = { YieldsFirst (λ s. frees_from s.arcs.banned (arcs_of s.arcs.table.now) s.next) };

    fn next(&mut self) -> Option<Arc> {
        let arcs = self.arcs;
        let count = arcs.table.len() / ARC_BYTES;
        while self.next < count {
            let a = arcs::arc_at(arcs.table, self.next);
            self.next = arcs.into.next(self.next) as usize;
            if is_free(a, arcs.banned) {
                return Some(a);
            }
        }
        None
    }
}

// Finishes v in a lent table: relaxes every free arc into v, one after the other, and returns the tails of these arcs.
fn finish(entries: &mut [Distance], arcs: &Arcs, v: u8) -> u64
    requires { Finishing entries.old v }
    ensures entries { entries.new ≡ finished_in arcs.now.banned v entries.old (arcs_of arcs.now.table.now) }
    ensures tails { result ≡ tails_into arcs.now.banned v (arcs_of arcs.now.table.now) }
{
    let head = v as usize;
    let mut tails = 0;
    for a in arcs.free_into(v) {
        relax(entries, a.tail as usize, head, a.metres);
        tails = sets::with(tails, a.tail);
    }
    tails
}

// The side table, filled from the terminal outward: a node is open where it is reached and not finished, and each time the nearest open one is finished.
// The entries are lent once a node; which nodes are finished is one word, and so is which are open. `into`, the table's arcs chained by their heads, is made
// once by the caller, lent and only read.
pub fn side_table(table: &[u8], into: &Chain, terminal: u8, banned: Exposure) -> [Distance; NODES]
    requires terminal_le_last_node { terminal ≤ last_node }
    requires table_value { all_sound (arcs_of table.now) ≡ true }
    requires table_len_bound { length (arcs_of table.now) ≤ most_in_table }
    requires chain { ChainedBy (end_of End.Head) (arcs_of table.now) into.now }
    ensures { SideTable (arcs_of table.now) terminal banned result }
{
    let arcs = Arcs {
        table,
        into,
        banned,
    };
    let mut entries = start(terminal as usize);
    let mut finished: u64 = 0;
    let mut opened = sets::with(0, terminal);
    while opened != 0 {
        let v = nearest(&entries, opened);
        let tails = finish(&mut entries, &arcs, v);
        finished = sets::with(finished, v);
        opened = sets::without(opened | tails, finished);
    }
    entries
}
