// The arcs of a span table: read from their sixteen bytes, and looked over for faults and for blanks.
#![tactic(auto)]

ghost use Rattle.std.specs.Prelude.{◌≡◌, ◌+◌, ◌*◌, ◌≤◌, length};
ghost use Rattle.problem.specs.Table.{most_table_bytes, arc_of, arcs_of, fault_of, arcs_number};
ghost use Rattle.problem.specs.Blanks.{is_blank, blanks_number};
ghost use Rattle.problem.specs.Routes.{arc_at};
ghost use Rattle.problem.specs.Refusals.{told};
ghost use Rattle.arcs.specs.Looked.{FirstRefused};

use problem::{ARC_BYTES, Arc, Fault, LAST_NODE, MOST_ARC_METRES, Refusal};

// The arc that sixteen bytes say.
pub fn read_arc(bytes: &[u8]) -> Arc
    requires { length bytes.now ≡ 16 }
    ensures { result ≡ arc_of bytes.now }
{
    Arc {
        tail: bytes[0],
        head: bytes[1],
        span: octets::number2(bytes, 2),
        metres: octets::number4(bytes, 4),
        risks: octets::number8(bytes, 8),
    }
}

// Arc number i of the table: its bytes begin at sixteen times i, and the reader is handed just those.
pub fn arc_at(table: &[u8], i: usize) -> Arc
    requires { 16 * i + 16 ≤ length table.now }
    ensures { result ≡ arc_at (arcs_of table.now) i }
{
    let start = ARC_BYTES * i;
    let end = start + ARC_BYTES;
    read_arc(&table[start..end])
}

// The first fault of an arc, if it has any.
#[tactic(auto, using(laws::proofs::Picks::picks), unfolding(problem::specs::Table::fault_of))]
pub fn fault(a: Arc) -> Option<Fault>
    ensures { result ≡ fault_of a }
{
    // By returns, not as one expression: as that the compiler computes both tests of a length and of the ends for every arc, before it goes on by either.
    if LAST_NODE < a.tail || LAST_NODE < a.head {
        return Some(Fault::Node);
    }
    if a.tail == a.head {
        return Some(Fault::EqualEnds);
    }
    if MOST_ARC_METRES < a.metres {
        return Some(Fault::Length);
    }
    None
}

// An arc of more than 0 metres for which no risk is listed (T-09). That is no fault of the arc: the mender, which asks for faults alone, leaves it.
#[tactic(auto, unfolding(problem::specs::Blanks::is_blank))]
pub fn is_blank(a: Arc) -> bool
    ensures { result ≡ is_blank a }
{
    0 < a.metres && a.risks == 0
}

// Refuses the lowest arc of the table of which `refused` tells a refusal.
// Asked for once the table is known to be no longer than the largest, so that the arc's number fits.
fn check_each<F: Fn(Arc, u8) -> Option<Refusal> + Drop>(
    table: &[u8],
    refused: F,
) -> Result<(), Refusal>
    requires few { length table.now ≤ most_table_bytes }
    requires callable { F.IsAlwaysCallable refused }
    ensures { FirstRefused (F.post refused) (arcs_of table.now) result }
{
    for k in 0..table.len() / ARC_BYTES {
        if let Some(r) = refused(arc_at(table, k), k as u8) {
            return Err(r);
        }
    }
    Ok(())
}

// Refuses the lowest arc that has a fault, by its first one.
pub fn check_faults(table: &[u8]) -> Result<(), Refusal>
    requires { length table.now ≤ most_table_bytes }
    ensures { told result ≡ arcs_number (arcs_of table.now) }
{
    check_each(table, |a, k| fault(a).map(|f| Refusal::FaultyArc(f, k)))
}

// Refuses the lowest arc that is blank.
pub fn check_blanks(table: &[u8]) -> Result<(), Refusal>
    requires { length table.now ≤ most_table_bytes }
    ensures { told result ≡ blanks_number (arcs_of table.now) }
{
    check_each(table, |a, k| is_blank(a).then_some(Refusal::BlankArc(k)))
}
