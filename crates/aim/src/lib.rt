// Where a window should end to hold as many routes as may still be ranked. What is found here only narrows a window, and any width is right:
// no promise rests on it. Without it a stopped request would halve its way down to one length, with a sweep each time.
#![tactic(auto)]

ghost use Rattle.std.specs.Prelude.{◌+◌, ◌-◌, ◌*◌, ◌≤◌, ◌<◌, ◌≡◌, IfSome};
ghost use Rattle.problem.specs.Table.{most_reach, most_allowance};
ghost use Rattle.net.specs.Net.{IsNet, mesh_in};
ghost use Rattle.sweep.specs.Sweep.{Sweeping};
ghost use Rattle.aim.specs.Aim.{Between, Closer, InReach};

use look::Leg;
use net::Net;

const STEPS: usize = 1024;

// A count of routes by length: from which length on, in steps of how many metres, how many more are counted; and the number for each step.
// No more routes are counted than 32 bits hold, so that a count is half as large as in words.
#[derive(Drop)]
struct Counts {
    from: u32,
    step: u32,
    room: u32,
    steps: [u32; STEPS],
}

impl Counts {
    // Which step a length lies in, if it lies in one.
    fn step_of(&self, metres: u64) -> Option<usize>
        ensures { IfSome result (λ j. j < STEPS) }
    {
        let further = metres.checked_sub(u64::from(self.from))?;
        let j = further.checked_div(u64::from(self.step))?;
        if j < STEPS as u64 {
            return Some(j as usize);
        }
        None
    }

    // Counts a route of so many metres.
    fn count(&mut self, metres: u64) {
        if let Some(j) = self.step_of(metres) {
            self.steps[j] = self.steps[j].saturating_add(1);
            self.room = self.room.saturating_sub(1);
        }
    }
}

// Several times as many routes: what a window or a count may hold before it is given up for a narrower one.
pub fn many_more(routes: u64) -> u64
    requires { routes ≤ most_allowance }
    ensures { result ≡ 8 * routes + 64 }
{
    8 * routes + 64
}

// Counts every route of at most `hi` metres that goes on from `at`, until there is no room.
fn count_from(net: &Net, counts: &mut Counts, hi: u64, at: u64, met: u64, metres: u64)
    requires { Sweeping net.now hi at metres }
{
    let n = net.arc_count();
    let mut i = net.first(at);
    while i < n {
        let k = i;
        i = net.next(k);
        match look::look(net, k, met, metres, exposure::nothing(), hi) {
            Leg::Met | Leg::Past(_) => {}
            Leg::Ends(route) => {
                counts.count(route.metres);
            }
            Leg::Leads(head, on) => {
                count_from(net, counts, hi, head, on.met, on.metres);
                if counts.room == 0 {
                    return;
                }
            }
        }
    }
}

// The lengths among which the end is looked for, and how many routes from there on are still to be ranked.
#[derive(Clone, Copy)]
struct Stretch {
    from: u64,
    to: u64,
    left: u64,
}

// The step of a stretch in which the routes counted pass `left`, and how many are left there; none where they do not pass it.
fn pick(counts: &[u32; STEPS], s: Stretch, step: u64) -> Option<Stretch>
    requires { (s.from ≤ s.to) × (s.to ≤ most_reach) × (0 < step) × (step ≤ most_reach) }
    ensures { IfSome result (λ r. (s.from ≤ r.from) × (r.from ≤ r.to) × (r.to ≤ s.to) × (r.to - r.from < step) × (r.left ≤ s.left)) }
{
    let mut left = s.left;
    let mut from = s.from;
    for n in counts {
        let n = u64::from(*n);
        if left < n {
            return Some(Stretch {
                from,
                to: s.to.min(from + step - 1),
                left,
            });
        }
        left -= n;
        from = s.to.min(from + step);
    }
    None
}

// One count of the lengths in a stretch. Where there are too many routes the stretch is cut to a quarter; else the end lies within one step, or past it.
// It is not built into its caller, so that its counts are off the stack while a window is swept and while the pair's routes are looked for.
#[inline(never)]
fn closer(net: &Net, s: Stretch) -> Option<Stretch>
    requires { IsNet net.now × Between net.now s × (s.from < s.to) }
    ensures { IfSome result (λ r. Closer s r) }
{
    let step = (s.to - s.from) / STEPS as u64 + 1;
    let room = many_more(s.left);
    let mut counts = Counts {
        from: s.from as u32,
        step: step as u32,
        room: room as u32,
        steps: [0; STEPS],
    };
    let source = net.source();
    let met = sets::with(0, source as u8);
    count_from(net, &mut counts, s.to, source, met, 0);
    if counts.room == 0 {
        return Some(Stretch {
            to: s.from + (s.to - s.from) / 4,
            ..s
        });
    }
    pick(&counts.steps, s, step)
}

// Where the routes from a length on pass a number of them: at this length, or past this one.
#[derive(Clone, Copy)]
enum End {
    At(u64),
    Past(u64),
}

// Where the routes from `from` on pass `left`.
fn find_end(net: &Net, from: u64, to: u64, left: u64) -> End
    requires { IsNet net.now × (from ≤ to) × (to ≤ (mesh_in net.now).reach) × (left ≤ most_allowance) }
    ensures { InReach net.now result }
{
    let mut s = Stretch { from, to, left };
    while s.from < s.to {
        match closer(net, s) {
            Some(shorter) => {
                s = shorter;
            }
            None => {
                return End::Past(s.to);
            }
        }
    }
    End::At(s.from)
}

// How wide the next window is to be, and where the allowance ends, once that is known.
#[derive(Clone, Copy)]
pub struct Aim {
    pub width: u64,
    pub end: Option<u64>,
}

// The width of a window from `cur` that ends before `end`.
fn before(cur: u64, end: u64, width: u64) -> u64
    ensures { result ≤ width }
{
    if end <= cur {
        return 0;
    }
    width.min(end - 1 - cur)
}

// Narrows the next window, if there is one, where the allowance is likely to end within it: to the lengths before its end, and then to that one length.
pub fn take_aim(
    net: &Net,
    allowance: u64,
    ranked: u64,
    cur: u64,
    width: u64,
    end: Option<u64>,
) -> Aim
    requires { IsNet net.now × (ranked ≤ allowance) × (allowance ≤ most_allowance) × (width ≤ most_reach) }
    ensures { result.width ≤ width }
{
    let reach = net.reach();
    if reach < cur {
        return Aim { width, end };
    }
    if let Some(at) = end {
        return Aim {
            width: before(cur, at, width),
            end,
        };
    }
    if many_more(ranked) < allowance {
        return Aim { width, end };
    }
    let hi = reach.min(cur + width);
    match find_end(net, cur, hi, allowance - ranked) {
        End::Past(to) => Aim {
            width: before(cur, to + 1, width),
            end,
        },
        // It ends at the reach in any case.
        End::At(at) => Aim {
            width: before(cur, at, width).min(hi - cur),
            end: Some(at),
        },
    }
}
