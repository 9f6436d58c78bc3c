// The judgement of pairs, and of the standbys of one main, as one number: the search compares two of them by one comparison at every node, and keeps the best in a register.
#![tactic(auto)]

ghost use Rattle.std.specs.Prelude.{◌≡◌, ◌-◌, ◌≤◌, ◌<◌, ◌^◌};
ghost use Rattle.problem.specs.Table.{most_reach};
ghost use Rattle.keys.specs.Keys.{standby_key, OfStandby, raised, shared_of, total_of, main_of, shared_room, bound_for, pair_of};

const STANDBY_UNIT: u64 = 1 << 32;

const TOTAL_UNIT: u64 = 1 << 26;

const TOTAL_LIMIT: u64 = 1 << 27;

// More than the key of any pair, so that "none yet" loses every comparison and needs no test of its own.
pub const NO_KEY: u64 = (problem::HAZARDS as u64 + 1) * TOTAL_LIMIT * TOTAL_UNIT;

// What the key of a pair says: the shared count, the total, the main's metres.
#[tactic(auto, unfolding(crate::specs::Keys::shared_of))]
pub fn shared_of(key: u64) -> u64
    ensures { (result ≡ shared_of key) × (result ≤ shared_room) }
{
    key / TOTAL_UNIT / TOTAL_LIMIT
}

#[tactic(auto, unfolding(crate::specs::Keys::total_of))]
pub fn total_of(key: u64) -> u64
    ensures { (result ≡ total_of key) × (result < 2 ^ 27) }
{
    key / TOTAL_UNIT % TOTAL_LIMIT
}

#[tactic(auto, unfolding(crate::specs::Keys::main_of))]
pub fn main_of(key: u64) -> u64
    ensures { result ≡ main_of key }
{
    key % TOTAL_UNIT
}

// The key of a standby.
#[tactic(auto, unfolding(crate::specs::Keys::standby_key))]
pub fn standby_key(shared: u64, metres: u64) -> u64
    requires { (shared ≤ shared_room) × (metres < 2 ^ 34) }
    ensures { result ≡ standby_key shared metres }
{
    shared * STANDBY_UNIT + metres
}

// A bound for keys of standbys of which none is shorter than so many metres.
#[tactic(auto, unfolding(crate::specs::Keys::raised, crate::specs::Keys::standby_key))]
pub fn raised(bound: u64, metres: u64) -> u64
    requires { metres < 2 ^ 32 }
    ensures { result ≡ raised bound metres }
{
    bound / STANDBY_UNIT * STANDBY_UNIT + (bound % STANDBY_UNIT).max(metres)
}

// What the key of a standby must stay below so that a main of so many metres makes a better pair than the best.
#[tactic(auto, unfolding(crate::specs::Keys::bound_for))]
pub fn bound_for(best: u64, metres: u64) -> u64
    ensures { result ≡ bound_for best metres }
{
    let total = total_of(best);
    let limit = if metres < main_of(best) {
        total + 1
    } else {
        total
    };
    standby_key(shared_of(best), limit.saturating_sub(metres))
}

// The key of the pair that a main of so many metres makes with a standby of that key.
#[tactic(auto, unfolding(crate::specs::Keys::pair_of, crate::specs::Keys::pair_key))]
pub fn pair_of(metres: u64, key: u64) -> u64
    requires { (metres ≤ most_reach) × OfStandby key }
    ensures { result ≡ pair_of metres key }
{
    let shared = key / STANDBY_UNIT;
    let total = metres + key % STANDBY_UNIT;
    (shared * TOTAL_LIMIT + total) * TOTAL_UNIT + metres
}
