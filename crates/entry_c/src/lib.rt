// The planning entries as a C host calls them, by the same names as in entry: each hands its call on.
#![tactic(auto)]

ghost use Rattle.problem.specs.Reply.{request};
ghost use Rattle.problem.specs.Calls.{CalledAround, CalledApart, Called};

// Plans, for any table, request and buffer: the number is 0 or 1 and the reply is written, or it is a refusal's and nothing is.
#[unsafe(no_mangle)]
pub extern "C" fn feshangul_plan(
    table: &[u8],
    reply: &mut [u8],
    source: u32,
    terminal: u32,
    reach: u32,
    allowance: u32,
) -> u32
    ensures { Called table.now (request source terminal reach allowance) reply.old result reply.new }
{
    entry::feshangul_plan(table, reply, source, terminal, reach, allowance)
}

// Plans around closed arcs (T-06), for any table, closed set, request and buffer.
#[unsafe(no_mangle)]
pub extern "C" fn feshangul_plan_around(
    table: &[u8],
    closed: &[u8],
    reply: &mut [u8],
    source: u32,
    terminal: u32,
    reach: u32,
    allowance: u32,
) -> u32
    ensures { CalledAround table.now closed.now (request source terminal reach allowance) reply.old result reply.new }
{
    entry::feshangul_plan_around(table, closed, reply, source, terminal, reach, allowance)
}

// Plans pairs that meet in no node but the two ends and have no arc in common (T-05), around closed arcs. 14 where there is no such pair, 15 where the allowance ends
// before the first main of one: neither writes anything.
#[unsafe(no_mangle)]
pub extern "C" fn feshangul_plan_apart(
    table: &[u8],
    closed: &[u8],
    reply: &mut [u8],
    source: u32,
    terminal: u32,
    reach: u32,
    allowance: u32,
) -> u32
    ensures { CalledApart table.now closed.now (request source terminal reach allowance) reply.old result reply.new }
{
    entry::feshangul_plan_apart(table, closed, reply, source, terminal, reach, allowance)
}
