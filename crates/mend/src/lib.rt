// Tables from the field mended (T-01): a clean table, and the list of what was lost. The mender's entry, which mend_c exports for C, stands at the end.
#![tactic(auto)]

ghost use Rattle.std.specs.Prelude.{◌≡◌, ◌+◌, ◌≤◌, length};
ghost use Rattle.problem.specs.Reply.{first_number};
ghost use Rattle.problem.specs.Mending.{reason_for, reason_number, lost, change_bytes, mend_checks};
ghost use Rattle.octets.specs.Puts.{Puts};
ghost use Rattle.mend.specs.Steps.{torn_bytes, Ready, Stepped, Roomy, AllStepped, MendsBy};
ghost use Rattle.mend.specs.Refusals.{refusal_number, told, Outcome};

use problem::{ARC_BYTES, Fault, MOST_FIELD_BYTES, MOST_IN_TABLE, Reason};

// In place of a new number, where there is none.
const NO_NUMBER: u16 = 65535;

// ---- One arc

// Why an arc with this first fault is lost, if it is; `new` is its number afterwards: a sound arc past 128 is lost all the same.
fn reason_for(fault: Option<Fault>, new: usize) -> Option<Reason>
    ensures { result ≡ reason_for fault new }
{
    match fault {
        Some(Fault::Node) => Some(Reason::BadNode),
        Some(Fault::EqualEnds) => Some(Reason::SameEnds),
        Some(Fault::Length) => Some(Reason::TooLong),
        None if new < MOST_IN_TABLE => None,
        None => Some(Reason::PastLimit),
    }
}

// Puts the record of a lost arc.
fn put_lost(list: &mut [u8], at: usize, old: usize, why: Reason) -> usize
    requires { at + 16 ≤ length list.old }
    ensures { Puts (change_bytes (lost old (reason_number why))) list.old at list.new result }
{
    // Field by field: sixteen bytes that are first put together elsewhere and then copied take twice the instructions.
    let reason = u8::from(why);
    let next = octets::put_number(list, at, 2, old as u64);
    let next = octets::put(list, next, reason);
    let next = octets::put(list, next, 0);
    let next = octets::put_number(list, next, 2, NO_NUMBER as u64);
    octets::put_number(list, next, ARC_BYTES - 6, 0)
}

// How far the mending is: how many of the arcs looked at stay, and the places behind what is written of table and list.
#[derive(Drop)]
struct Done {
    staying: usize,
    table: usize,
    list: usize,
}

// Mends arc k: its bytes go to the table, or the record of its loss to the list.
fn mend_arc(input: &[u8], table: &mut [u8], list: &mut [u8], k: usize, done: &mut Done)
    requires { Ready input.now k done.old (length table.old) (length list.old) }
    ensures { Stepped input.now k done.old done.new table.old table.new list.old list.new }
{
    let fault = arcs::fault(arcs::arc_at(input, k));
    let new = done.staying;
    // Counted before the arms, not behind them: there the compiler goes to each reason by a table of jumps.
    if fault.is_none() {
        done.staying = new + 1;
    }
    match reason_for(fault, new) {
        None => {
            let start = ARC_BYTES * k;
            done.table = octets::copy(table, done.table, &input[start..start + ARC_BYTES]);
        }
        Some(why) => done.list = put_lost(list, done.list, k, why),
    }
}

// ---- All arcs

// Mends all whole arcs.
fn mend_arcs(input: &[u8], table: &mut [u8], list: &mut [u8]) -> Done
    requires { Roomy input.now (length table.old) (length list.old) }
    ensures { AllStepped input.now result table.old table.new list.old list.new }
{
    let mut done = Done {
        staying: 0,
        table: 0,
        list: 0,
    };
    for k in 0..input.len() / ARC_BYTES {
        mend_arc(input, table, list, k, &mut done);
    }
    done
}

// Notes a torn end, where there is one, as the arc that it would have been.
fn note_torn(input: &[u8], list: &mut [u8], at: usize) -> usize
    requires { at + length (torn_bytes input.now) ≤ length list.old }
    ensures { Puts (torn_bytes input.now) list.old at list.new result }
{
    if input.len() % ARC_BYTES == 0 {
        return at;
    }
    put_lost(list, at, input.len() / ARC_BYTES, Reason::TornEnd)
}

// ---- A call

// Why a call mends nothing, in the order of the checks.
#[derive(Clone, Copy, Debug, PartialEq, Eq)]
enum Refusal {
    InputTooLong,
    OutputTooShort,
}

// The number of each, which a host in C is told.
impl From<Refusal> for u32 {
    ghost from_gives = { λ r n. n ≡ refusal_number r };

    fn from(r: Refusal) -> u32 {
        match r {
            Refusal::InputTooLong => 2,
            Refusal::OutputTooShort => 13,
        }
    }
}

// The checks of a call; the sizes are those of the two outputs.
#[tactic(auto, using(laws::proofs::Picks::picks), unfolding(problem::specs::Reply::first_number, problem::specs::Mending::mend_checks))]
fn check(input: &[u8], table_size: usize, list_size: usize) -> Result<(), Refusal>
    ensures { told result ≡ first_number (mend_checks input.now table_size list_size) }
{
    if MOST_FIELD_BYTES < input.len() {
        return Err(Refusal::InputTooLong);
    }
    let room = input.len().next_multiple_of(ARC_BYTES);
    if table_size < room || list_size < room {
        return Err(Refusal::OutputTooShort);
    }
    Ok(())
}

// How many bytes of table and list are written.
#[derive(Drop)]
struct Written {
    table_len: u32,
    list_len: u32,
}

// Mends where no check refuses, and else writes nothing.
fn mend(input: &[u8], table: &mut [u8], list: &mut [u8]) -> Result<Written, Refusal>
    ensures { Outcome input.now table.old list.old result table.new list.new }
{
    check(input, table.len(), list.len())?;
    let done = mend_arcs(input, table, list);
    let list_end = note_torn(input, list, done.list);
    Ok(Written {
        table_len: done.table as u32,
        list_len: list_end as u32,
    })
}

// What a call of the mender returns: a number, and how many bytes of table and list it has written.
#[repr(C)]
#[derive(Clone, Copy)]
pub struct Mended {
    pub number: u32,
    pub table_len: u32,
    pub list_len: u32,
}

// Mends, for any input and outputs: the number is 0 and both outputs are written, or it is a refusal's and neither is.
pub fn feshangul_mend(input: &[u8], table: &mut [u8], list: &mut [u8]) -> Mended
    ensures { MendsBy input.now table.old list.old result table.new list.new }
{
    match mend(input, table, list) {
        Ok(written) => Mended {
            number: 0,
            table_len: written.table_len,
            list_len: written.list_len,
        },
        Err(r) => Mended {
            number: u32::from(r),
            table_len: 0,
            list_len: 0,
        },
    }
}
