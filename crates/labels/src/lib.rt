// Labels of nodes, which a search leaves: how far, and exposed to what, it came to a node from which it has gone on. What they are good for is told by those who
// leave them (`standby`, `find`).
#![tactic(auto)]

ghost use Rattle.std.specs.Prelude.{◌≡◌, true, ◌≤◌};
ghost use Rattle.problem.specs.Table.{last_node};
ghost use Rattle.labels.specs.Labels.{Known, Shorter, Cleared, Labelled};

use problem::{Exposure, NODES};

// How far a search came to a node, and exposed to what.
#[derive(Clone, Copy)]
struct Label {
    metres: u64,
    exposure: Exposure,
}

// The nodes that have a label, as a set, so that a search takes all away by one write; the label of each; and how many nodes the last search has gone on from.
#[derive(Drop)]
pub struct Labels {
    labelled: u64,
    of_node: [Label; NODES],
    work: u64,
}

impl Labels {
    // No node has a label.
    pub fn none() -> Labels
        ensures { Cleared result }
    {
        Labels {
            labelled: 0,
            of_node: [Label {
                metres: 0,
                exposure: exposure::nothing(),
            }; NODES],
            work: 0,
        }
    }

    // How many nodes the last search has gone on from.
    pub fn work(&self) -> u64
        ensures { result ≡ self.now.work }
    {
        self.work
    }

    // Takes all labels away.
    pub fn clear(&mut self)
        ensures { Cleared self.new }
    {
        self.labelled = 0;
        self.work = 0;
    }

    // Whether the label of a node is as good as this: what goes on from there was looked at with no more behind it.
    pub fn known(&self, v: u64, metres: u64, exposure: Exposure) -> bool
        requires { v ≤ last_node }
        ensures { result ≡ true → Known self.now v metres exposure }
    {
        if !sets::has(self.labelled, v as u8) {
            return false;
        }
        let label = &self.of_node[v as usize];
        if metres < label.metres {
            return false;
        }
        exposure::is_inside(label.exposure, exposure)
    }

    // Whether the label of a node is shorter than this and exposed to no more.
    pub fn shorter_known(&self, v: u64, metres: u64, exposure: Exposure) -> bool
        requires { v ≤ last_node }
        ensures { result ≡ true → Shorter self.now v metres exposure }
    {
        if metres == 0 {
            return false;
        }
        self.known(v, metres - 1, exposure)
    }

    // Labels a node.
    pub fn keep(&mut self, v: u64, metres: u64, exposure: Exposure)
        requires { v ≤ last_node }
        ensures { Labelled v metres exposure self.old self.new }
    {
        self.work = self.work.saturating_add(1);
        self.labelled = sets::with(self.labelled, v as u8);
        self.of_node[v as usize] = Label {
            metres: metres,
            exposure: exposure,
        };
    }
}
