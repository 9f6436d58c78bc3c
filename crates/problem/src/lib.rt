// The kinds of data that the definitions and the code have in common, and the definitions' limits and the numbers of faults and reasons as the code has them (specs/Table.antt, specs/Mending.antt).
// Everything else of this crate is definitions (specs/) and what is true of them (proofs/).
#![tactic(auto)]

ghost use Rattle.std.specs.Prelude.{◌≡◌};
ghost use Rattle.problem.specs.Table.{fault_number};
ghost use Rattle.problem.specs.Mending.{reason_number};
ghost use Rattle.problem.specs.Refusals.{refusal_number, verdict_number};

// Nodes are numbered from 0 to LAST_NODE.
pub const LAST_NODE: u8 = 31;

pub const NODES: usize = LAST_NODE as usize + 1;

// Risks are numbered from 0 to one below RISK_WIDTH.
pub const RISK_WIDTH: u8 = 64;

pub const MOST_ARC_METRES: u32 = 2000000;

pub const MOST_REACH: u32 = 62000000;

pub const MOST_ALLOWANCE: u32 = 1000000;

// A record of the table, the largest table, and how many arcs it has.
pub const ARC_BYTES: usize = 16;

pub const MOST_TABLE_BYTES: usize = 2048;

pub const MOST_IN_TABLE: usize = MOST_TABLE_BYTES / ARC_BYTES;

// What an exposure can tell apart: the risks, and a span for each arc of the largest table.
pub const HAZARDS: u8 = RISK_WIDTH + MOST_IN_TABLE as u8;

// The bytes of a closed set (T-06): a bit for each arc of the largest table.
pub const CLOSED_SIZE: usize = MOST_IN_TABLE / 8;

// The longest table that is mended (T-01).
pub const MOST_FIELD_BYTES: usize = 4096;

pub const REPLY_SIZE: usize = 96;

// A route's places in the reply.
pub const PLACES: usize = 32;

// One direction of one span: the fields of a table's record of 16 bytes (01, The span table; T-03: the span's number, 0 where it is not known).
#[derive(Clone, Copy, Debug, PartialEq, Eq)]
pub struct Arc {
    pub tail: u8,
    pub head: u8,
    pub span: u16,
    pub metres: u32,
    pub risks: u64,
}

// What is wrong with an arc, in the order in which it is looked for.
#[derive(Clone, Copy, Debug, PartialEq, Eq)]
pub enum Fault {
    Node,
    EqualEnds,
    Length,
}

// The number of each.
impl From<Fault> for u32 {
    ghost from_gives = { λ f n. n ≡ fault_number f };

    fn from(f: Fault) -> u32 {
        match f {
            Fault::Node => 20,
            Fault::EqualEnds => 21,
            Fault::Length => 22,
        }
    }
}

// Why an arc of a table from the field is lost in mending.
#[derive(Clone, Copy, Debug, PartialEq, Eq)]
pub enum Reason {
    BadNode,
    SameEnds,
    TooLong,
    PastLimit,
    TornEnd,
}

// The number of each, as the list of changes has it.
impl From<Reason> for u8 {
    ghost from_gives = { λ r n. n ≡ reason_number r };

    fn from(r: Reason) -> u8 {
        match r {
            Reason::BadNode => 1,
            Reason::SameEnds => 2,
            Reason::TooLong => 3,
            Reason::PastLimit => 5,
            Reason::TornEnd => 6,
        }
    }
}

// Why a call gives no reply, in the order of the checks; of a faulty or a blank arc, also which arc it is.
#[derive(Clone, Copy, Debug, PartialEq, Eq)]
pub enum Refusal {
    TableTooLong,
    TableTorn,
    ReplyTooShort,
    NodeTooHigh,
    EndsEqual,
    ReachTooFar,
    BadAllowance,
    FaultyArc(Fault, u8),
    BlankArc(u8),
    BadClosedSet,
    NoRoute,
    // There is no pair to be judged (T-05): none of all routes, or none whose main is within the allowance.
    NoPair,
    NoPairYet,
}

// The number of each, which a host in C is told.
impl From<Refusal> for u32 {
    ghost from_gives = { λ r n. n ≡ refusal_number r };

    fn from(r: Refusal) -> u32 {
        match r {
            Refusal::TableTooLong => 2,
            Refusal::TableTorn => 3,
            Refusal::ReplyTooShort => 4,
            Refusal::NodeTooHigh => 5,
            Refusal::EndsEqual => 6,
            Refusal::ReachTooFar => 7,
            Refusal::BadAllowance => 8,
            Refusal::FaultyArc(f, k) => u32::from(f) + 256 * k as u32,
            Refusal::BlankArc(k) => 24 + 256 * k as u32,
            Refusal::BadClosedSet => 16,
            Refusal::NoRoute => 10,
            Refusal::NoPair => 14,
            Refusal::NoPairYet => 15,
        }
    }
}

// Whether a reply is final.
#[derive(Clone, Copy, Debug, PartialEq, Eq)]
pub enum Verdict {
    Settled,
    Stopped,
}

// The number of each, which a reply begins with.
impl From<Verdict> for u8 {
    ghost from_gives = { λ v n. n ≡ verdict_number v };

    fn from(v: Verdict) -> u8 {
        match v {
            Verdict::Settled => 0,
            Verdict::Stopped => 1,
        }
    }
}

// What an arc or a route is exposed to, and may have in common with another: its risks, bit r for risk r, and its spans, bit s - 1 for span s, the first 64 of them in
// one field and the others in another. Asked through crate exposure alone; the reply has the risks that two share.
#[derive(Clone, Copy, Debug, PartialEq, Eq)]
pub struct Exposure {
    pub risks: u64,
    pub low: u64,
    pub high: u64,
}

// What a call asks for: two nodes, the longest that a route may be, and how many routes may be tried as main.
#[derive(Clone, Copy, Debug, PartialEq, Eq)]
pub struct Request {
    pub source: u32,
    pub terminal: u32,
    pub reach: u32,
    pub allowance: u32,
}
