// The planning entries, which entry_c exports for C: each checks everything itself, plans, and writes the reply.
#![tactic(auto)]

ghost use Rattle.std.specs.Prelude.{◌≡◌, false, ◌++◌, ◌≤◌, length, drop};
ghost use Rattle.problem.specs.Table.{reply_size};
ghost use Rattle.problem.specs.Closed.{none_closed};
ghost use Rattle.problem.specs.Reply.{request};
ghost use Rattle.problem.specs.Calls.{CalledAmong, CalledAround, CalledApart, Called};
ghost use Rattle.track.specs.Track.{Fit};
ghost use Rattle.reply.specs.Record.{record_of};
ghost use Rattle.entry.specs.Told.{number_told};

use planner::Made;
use problem::{Refusal, Request, Verdict};

// The number that a host is told.
fn number_told(outcome: Result<Verdict, Refusal>) -> u32
    ensures { result ≡ number_told outcome }
{
    match outcome {
        Ok(verdict) => u32::from(u8::from(verdict)),
        Err(refusal) => u32::from(refusal),
    }
}

// Gives what planning has made: the reply, and whether it is final.
fn give(reply: &mut [u8], made: &Made) -> Verdict
    requires { (reply_size ≤ length reply.old) × Fit made.now.choice.main × Fit made.now.choice.standby }
    ensures { (result ≡ made.now.choice.verdict) × (reply.new ≡ record_of made.now ++ drop reply_size reply.old) }
{
    reply::write_made(reply, made);
    made.choice.verdict
}

// Plans a call that brings no closed set.
fn plan(table: &[u8], reply: &mut [u8], q: Request) -> Result<Verdict, Refusal>
    ensures { CalledAmong false table.now none_closed q reply.old (number_told result) reply.new }
{
    checks::check(table, reply.len(), q)?;
    let made = planner::plan_checked(table, q)?;
    Ok(give(reply, &made))
}

// Plans a call around closed arcs: of every pair, or where `apart` of those that are apart.
fn plan_among(
    table: &[u8],
    closed: &[u8],
    reply: &mut [u8],
    q: Request,
    apart: bool,
) -> Result<Verdict, Refusal>
    ensures { CalledAmong apart table.now closed.now q reply.old (number_told result) reply.new }
{
    checks::check_around(table, closed, reply.len(), q)?;
    let set = closed::read(closed);
    let made = planner::plan_around(table, set, q, apart)?;
    Ok(give(reply, &made))
}

// Plans, for any table, request and buffer: the number is 0 or 1 and the reply is written, or it is a refusal's and nothing is.
pub fn feshangul_plan(
    table: &[u8],
    reply: &mut [u8],
    source: u32,
    terminal: u32,
    reach: u32,
    allowance: u32,
) -> u32
    ensures { Called table.now (request source terminal reach allowance) reply.old result reply.new }
{
    let q = Request {
        source,
        terminal,
        reach,
        allowance,
    };
    number_told(plan(table, reply, q))
}

// Plans around closed arcs (T-06), for any table, closed set, request and buffer.
pub fn feshangul_plan_around(
    table: &[u8],
    closed: &[u8],
    reply: &mut [u8],
    source: u32,
    terminal: u32,
    reach: u32,
    allowance: u32,
) -> u32
    ensures { CalledAround table.now closed.now (request source terminal reach allowance) reply.old result reply.new }
{
    let q = Request {
        source,
        terminal,
        reach,
        allowance,
    };
    number_told(plan_among(table, closed, reply, q, false))
}

// Plans pairs that meet in no node but the two ends and have no arc in common (T-05), around closed arcs. 14 where there is no such pair, 15 where the allowance ends
// before the first main of one: neither writes anything.
pub fn feshangul_plan_apart(
    table: &[u8],
    closed: &[u8],
    reply: &mut [u8],
    source: u32,
    terminal: u32,
    reach: u32,
    allowance: u32,
) -> u32
    ensures { CalledApart table.now closed.now (request source terminal reach allowance) reply.old result reply.new }
{
    let q = Request {
        source,
        terminal,
        reach,
        allowance,
    };
    number_told(plan_among(table, closed, reply, q, true))
}
