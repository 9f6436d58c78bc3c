// The checks of a call before anything is planned: numbers 2 to 8, those of a faulty arc, that of a blank one, and 16, in their order (the lists of checks of the problem's specs/Reply.antt).
#![tactic(auto)]

ghost use Rattle.std.specs.Prelude.{◌≡◌};
ghost use Rattle.problem.specs.Reply.{first_number, request_checks, plain_checks, refusal};
ghost use Rattle.problem.specs.Refusals.{told};

use problem::{
    ARC_BYTES, CLOSED_SIZE, MOST_ALLOWANCE, MOST_REACH, MOST_TABLE_BYTES, REPLY_SIZE, Refusal,
    Request,
};

const LAST_NODE: u32 = problem::LAST_NODE as u32;

// The checks that look at the request alone.
#[tactic(auto, using(laws::proofs::Picks::picks), unfolding(problem::specs::Reply::first_number, problem::specs::Reply::request_checks))]
fn check_request(q: Request) -> Result<(), Refusal>
    ensures { told result ≡ first_number (request_checks q) }
{
    if LAST_NODE < q.source || LAST_NODE < q.terminal {
        return Err(Refusal::NodeTooHigh);
    }
    if q.source == q.terminal {
        return Err(Refusal::EndsEqual);
    }
    if MOST_REACH < q.reach {
        return Err(Refusal::ReachTooFar);
    }
    if q.allowance == 0 || MOST_ALLOWANCE < q.allowance {
        return Err(Refusal::BadAllowance);
    }
    Ok(())
}

// The checks of a call that brings no closed set; `size` is the reply buffer's.
#[tactic(auto, using(laws::proofs::Picks::picks), unfolding(problem::specs::Reply::first_number, problem::specs::Reply::size_checks))]
pub fn check(table: &[u8], size: usize, q: Request) -> Result<(), Refusal>
    ensures { told result ≡ first_number (plain_checks table.now q size) }
{
    if MOST_TABLE_BYTES < table.len() {
        return Err(Refusal::TableTooLong);
    }
    if table.len() % ARC_BYTES != 0 {
        return Err(Refusal::TableTorn);
    }
    if size < REPLY_SIZE {
        return Err(Refusal::ReplyTooShort);
    }
    check_request(q)?;
    arcs::check_faults(table)?;
    arcs::check_blanks(table)
}

// The checks of a call that brings a closed set: that is looked at where none of the others refuses.
pub fn check_around(table: &[u8], closed: &[u8], size: usize, q: Request) -> Result<(), Refusal>
    ensures { told result ≡ refusal table.now closed.now q size }
{
    check(table, size, q)?;
    if closed.len() != CLOSED_SIZE {
        return Err(Refusal::BadClosedSet);
    }
    let set = closed::read(closed);
    let arcs = table.len() / ARC_BYTES;
    if !closed::inside(set, arcs as u8) {
        return Err(Refusal::BadClosedSet);
    }
    Ok(())
}
