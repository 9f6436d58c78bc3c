// The best standby of a main. Where no arc has a span, the search carries risks alone, which is quicker; where some arc has one, it carries spans too.
#![tactic(auto)]

ghost use Rattle.std.specs.Prelude.{◌≤◌, ◌≡◌, length};
ghost use Rattle.net.specs.Net.{mesh_in, IsNet};
ghost use Rattle.standby.specs.Standby.{EveryDoor};
ghost use Rattle.standby.specs.Ahead.{quest, NoneBelow, least_of};
ghost use Rattle.plain.specs.Plain.{by_risks, Plain};

use bars::Barred;
use labels::Labels;
use net::Net;
use problem::Exposure;
use standby::{BySpans, Carried};

// Risks alone.
#[derive(Clone, Copy)]
pub struct ByRisks {
    risks: u64,
}

impl Carried for ByRisks {
    ghost exposed_to = { λ c. by_risks c.risks };

    ghost fits = { Plain };

    ghost told = { λ main c. Unit {0} };

    fn nothing() -> ByRisks {
        ByRisks { risks: 0 }
    }

    fn shared_over(&self, net: &Net, i: u64, main: &Exposure) -> u64 {
        exposure::shared_risks(main.risks, self.risks | net.risks(i))
    }

    fn over(&self, net: &Net, i: u64, shared: u64) -> ByRisks {
        ByRisks {
            risks: self.risks | net.risks(i),
        }
    }

    fn exposure(&self) -> Exposure {
        Exposure {
            risks: self.risks,
            low: 0,
            high: 0,
        }
    }
}

// The least of `bound` and the keys of all standbys of a main that is exposed to this, that keep off what is barred. Which labels there were does not matter.
pub fn search(
    net: &Net,
    labels: &mut Labels,
    main: Exposure,
    door: u64,
    off: Barred,
    bound: u64,
) -> u64
    requires { IsNet net.now × EveryDoor (mesh_in net.now) main door }
    ensures least { result ≡ least_of (quest (mesh_in net.now) main off) bound }
    ensures below { NoneBelow (quest (mesh_in net.now) main off) result }
{
    if net.spanned() {
        return standby::search::<BySpans>(net, labels, main, door, off, bound);
    }
    standby::search::<ByRisks>(net, labels, main, door, off, bound)
}
