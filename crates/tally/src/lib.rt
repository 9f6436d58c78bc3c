// The tally of a run: what is known of the routes tried as main so far.
#![tactic(auto)]

ghost use Rattle.std.specs.Prelude.{◌≡◌, ◌<◌, ◌-◌, ◌^◌};
ghost use Rattle.tally.specs.Tally.{counted};

// How many routes were ranked, the length of the last main, the key of the best pair, and whether there was a main past the cap. That goes on beside the
// three: a tally past the cap still says them.
#[derive(Clone, Copy)]
pub struct Tally {
    pub ranked: u64,
    pub last: u64,
    pub best: u64,
    pub over: bool,
}

// The tally after one more main of so many metres, with which the best pair's key is `best`.
#[tactic(auto, unfolding(crate::specs::Tally::counted))]
fn count_main(metres: u64, best: u64, t: Tally) -> Tally
    requires { t.ranked < 2 ^ 64 - 1 }
    ensures { result ≡ counted metres best t }
{
    Tally {
        ranked: t.ranked + 1,
        last: t.last.max(metres),
        best,
        over: false,
    }
}

// Brings a lent tally up to date by one more main (01, When a reply is settled). Thin, as the project's rules want the one function that a tally is lent to: the work is
// `count_main`'s, and the standbys were tried before.
fn step(t: &mut Tally, metres: u64, best: u64)
    requires { t.old.ranked < 2 ^ 64 - 1 }
    ensures { t.new ≡ counted metres best t.old }
{
    *t = count_main(metres, best, *t);
}

// The tally after it was lent to one step. Who calls this holds the tally by value.
pub fn one_more(metres: u64, best: u64, t: Tally) -> Tally
    requires { t.ranked < 2 ^ 64 - 1 }
    ensures { result ≡ counted metres best t }
{
    let mut s = t;
    step(&mut s, metres, best);
    s
}
