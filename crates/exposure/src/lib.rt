// What an arc or a route is exposed to, what two of them have in common, and how many that is: risks and spans (the problem's specs/Exposures.antt).
// Where there are no spans, which is often, their two fields are not gone into.
#![tactic(auto)]

ghost use Rattle.std.specs.Prelude.{◌≡◌, ◌↔◌, true, ◌+◌, ◌≤◌, ◌<◌, ◌^◌, eqb, length};
ghost use Rattle.std.specs.Int.Bits.{bit_and, bit_or};
ghost use Rattle.std.specs.Int.Count.{ones_in};
ghost use Rattle.laws.specs.Sets.{bit};
ghost use Rattle.problem.specs.Table.{most_in_table, hazards};
ghost use Rattle.problem.specs.Exposures.{exposed, to_nothing, to_all, to_one, of_arc, joined, common, field_of, span_field, spans_in, size, sharing, disjoint};
ghost use Rattle.exposure.specs.Parts.{all_but, inside};
ghost use Rattle.exposure.specs.Words.{exposure_words, exposure_at, put_at};

use problem::{Arc, Exposure, RISK_WIDTH};

const FIELD_WIDTH: u16 = RISK_WIDTH as u16;

#[tactic(auto, unfolding(problem::specs::Exposures::to_nothing))]
pub fn nothing() -> Exposure
    ensures { result ≡ to_nothing }
{
    Exposure {
        risks: 0,
        low: 0,
        high: 0,
    }
}

// To all that there is.
#[tactic(auto, unfolding(problem::specs::Exposures::to_all))]
pub fn all() -> Exposure
    ensures { result ≡ to_all }
{
    Exposure {
        risks: u64::MAX,
        low: u64::MAX,
        high: u64::MAX,
    }
}

// To hazard r alone: its field, and its bit there.
#[tactic(auto, unfolding(problem::specs::Exposures::to_one, problem::specs::Exposures::to_nothing))]
pub fn one(r: u8) -> Exposure
    requires { r < hazards }
    ensures { result ≡ to_one r }
{
    let alone = sets::only(r / 3);
    match r % 3 {
        0 => Exposure {
            risks: alone,
            ..nothing()
        },
        1 => Exposure {
            low: alone,
            ..nothing()
        },
        _ => Exposure {
            high: alone,
            ..nothing()
        },
    }
}

// The field of 64 spans from `first` on that says span s alone; none where s is no such span.
#[tactic(auto, unfolding(problem::specs::Exposures::span_field))]
fn span_field(first: u16, s: u16) -> u64
    requires { first ≤ 65 }
    ensures { result ≡ span_field first s }
{
    match s.checked_sub(first) {
        Some(i) if i < FIELD_WIDTH => sets::only(i as u8),
        _ => 0,
    }
}

// To what an arc is. No `From`: both types are the problem's, so that it could stand only there.
#[tactic(auto, unfolding(problem::specs::Exposures::of_arc))]
pub fn of_arc(a: Arc) -> Exposure
    ensures { result ≡ of_arc a }
{
    Exposure {
        risks: a.risks,
        low: span_field(1, a.span),
        high: span_field(1 + FIELD_WIDTH, a.span),
    }
}

// The field of its risks: bit r for risk r.
pub fn risks(e: Exposure) -> u64
    ensures { result ≡ e.risks }
{
    e.risks
}

// One of the three fields.
#[tactic(auto, unfolding(problem::specs::Exposures::field_of))]
fn field(e: Exposure, i: u8) -> u64
    ensures { result ≡ field_of e i }
{
    match i {
        0 => e.risks,
        1 => e.low,
        _ => e.high,
    }
}

// Whether it is exposed to hazard r.
#[tactic(auto, unfolding(problem::specs::Exposures::exposed))]
pub fn is_exposed(e: Exposure, r: u8) -> bool
    requires { r < hazards }
    ensures { result ≡ eqb (exposed e r) 1 }
{
    sets::has(field(e, r % 3), r / 3)
}

// To what either is.
#[tactic(auto, unfolding(problem::specs::Exposures::joined, problem::specs::Exposures::field_of))]
pub fn joined(a: Exposure, b: Exposure) -> Exposure
    ensures { result ≡ joined a b }
{
    Exposure {
        risks: a.risks | b.risks,
        low: a.low | b.low,
        high: a.high | b.high,
    }
}

// Whether it is exposed to no span.
fn is_spanless(e: Exposure) -> bool
    ensures { result ≡ true → (e.low ≡ 0) × (e.high ≡ 0) }
{
    e.low == 0 && e.high == 0
}

// To what both are.
#[tactic(auto, using(crate::proofs::WordLaws::common_spanless), unfolding(problem::specs::Exposures::common, problem::specs::Exposures::field_of))]
pub fn common(a: Exposure, b: Exposure) -> Exposure
    ensures { result ≡ common a b }
{
    if is_spanless(a) {
        return Exposure {
            risks: a.risks & b.risks,
            low: 0,
            high: 0,
        };
    }
    Exposure {
        risks: a.risks & b.risks,
        low: a.low & b.low,
        high: a.high & b.high,
    }
}

// Of what is left, what an arc and what lies on from it are exposed to as well.
pub fn left_over(left: Exposure, a: Arc, on: Exposure) -> Exposure
    ensures { result ≡ common left (joined (of_arc a) on) }
{
    if is_spanless(left) {
        return Exposure {
            risks: left.risks & (a.risks | on.risks),
            low: 0,
            high: 0,
        };
    }
    let over = joined(of_arc(a), on);
    common(left, over)
}

// To all of it but hazard r.
#[tactic(auto, unfolding(crate::specs::Parts::all_but, problem::specs::Exposures::common, problem::specs::Exposures::field_of, laws::specs::Sets::without))]
pub fn all_but(e: Exposure, r: u8) -> Exposure
    requires { r < hazards }
    ensures { result ≡ all_but e r }
{
    let out = one(r);
    Exposure {
        risks: sets::without(e.risks, out.risks),
        low: sets::without(e.low, out.low),
        high: sets::without(e.high, out.high),
    }
}

// The ones in a field (01, The form each place takes: the language's count of ones).
fn ones(field: u64) -> u32
    ensures { (result ≡ ones_in 64 field) × (result ≤ 64) }
{
    field.count_ones()
}

// How many spans that are.
#[tactic(auto, unfolding(problem::specs::Exposures::spans_in))]
pub fn spans(e: Exposure) -> u64
    ensures { (result ≡ spans_in e) × (result ≤ most_in_table) }
{
    if is_spanless(e) {
        return 0;
    }
    u64::from(ones(e.low) + ones(e.high))
}

// How many risks and spans that are.
#[tactic(auto, unfolding(problem::specs::Exposures::size))]
pub fn size(e: Exposure) -> u64
    ensures { (result ≡ size e) × (result ≤ hazards) }
{
    u64::from(ones(e.risks)) + spans(e)
}

// How many two have in common: the ones in the common field (01, Routes and their ranking), and the common spans (T-03).
#[tactic(auto, unfolding(problem::specs::Exposures::sharing))]
pub fn sharing(a: Exposure, b: Exposure) -> u64
    ensures { (result ≡ sharing a b) × (result ≤ hazards) }
{
    size(common(a, b))
}

// How many risks two fields have in common.
pub fn shared_risks(a: u64, b: u64) -> u64
    ensures { (result ≡ ones_in 64 (bit_and a b)) × (result ≤ 64) }
{
    u64::from(ones(a & b))
}

// Whether two have nothing in common.
#[tactic(auto, using(problem::proofs::ExposureLaws::common_comm), unfolding(problem::specs::Exposures::disjoint))]
pub fn is_disjoint(a: Exposure, b: Exposure) -> bool
    ensures { result ≡ disjoint a b }
{
    let both = common(b, a);
    both.risks == 0 && both.low == 0 && both.high == 0
}

// Whether two are exposed to the same.
pub fn is_same(a: Exposure, b: Exposure) -> bool
    ensures { (result ≡ true) ↔ (a ≡ b) }
{
    a == b
}

// Whether it is exposed to nothing.
#[tactic(auto, using(laws::proofs::SetLaws::or_none), unfolding(problem::specs::Exposures::to_nothing))]
pub fn is_nothing(e: Exposure) -> bool
    ensures { (result ≡ true) ↔ (e ≡ to_nothing) }
{
    e.risks | e.low | e.high == 0
}

// Whether b is exposed to all that a is.
#[tactic(auto, unfolding(crate::specs::Parts::inside))]
pub fn is_inside(a: Exposure, b: Exposure) -> bool
    ensures { result ≡ inside a b }
{
    a.risks | b.risks == b.risks && a.low | b.low == b.low && a.high | b.high == b.high
}

// How many words hold an exposure.
pub const WORDS: usize = 3;

// What the words from a place on say.
#[tactic(auto, unfolding(crate::specs::Words::exposure_at))]
pub fn read(words: &[u64], at: usize) -> Exposure
    requires { at + exposure_words ≤ length words.now }
    ensures { result ≡ exposure_at words.now at }
{
    Exposure {
        risks: words[at],
        low: words[at + 1],
        high: words[at + 2],
    }
}

// Puts an exposure there.
#[tactic(auto, unfolding(crate::specs::Words::put_at))]
pub fn put(words: &mut [u64], at: usize, e: Exposure)
    requires { at + exposure_words ≤ length words.old }
    ensures { words.new ≡ put_at words.old at e }
{
    words[at] = e.risks;
    words[at + 1] = e.low;
    words[at + 2] = e.high;
}

// How many ones a field has, by taking them away one by one: where there are few, that is quicker than to count them all.
#[tactic(auto, using(laws::proofs::SetLaws::ones_le, laws::proofs::SetLaws::ones_empty))]
fn few_ones(field: u64) -> u64
    ensures { (result ≡ ones_in 64 field) × (result ≤ 64) }
{
    let mut left = field;
    let mut count: u64 = 0;
    while left != 0 {
        left &= left - 1;
        count += 1;
    }
    count
}

// How many of a main's are met over a field that were not met before.
#[tactic(auto, using(laws::proofs::SetLaws::ones_new), unfolding(laws::specs::Sets::without))]
pub fn newly(main: u64, before: u64, own: u64) -> u64
    ensures { (result + ones_in 64 (bit_and main before) ≡ ones_in 64 (bit_and main (bit_or before own))) × (result ≤ 64) }
{
    let both = main & own;
    few_ones(sets::without(both, before))
}
