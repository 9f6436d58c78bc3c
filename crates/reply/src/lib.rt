// The reply record: 96 bytes, field after field (01, The reply record).
#![tactic(auto)]

ghost use Rattle.std.specs.Prelude.{◌≡◌, ◌++◌, ◌≤◌, length, drop};
ghost use Rattle.problem.specs.Table.{reply_size};
ghost use Rattle.problem.specs.Reply.{reply_of};
ghost use Rattle.track.specs.Track.{Fit, pair_in};
ghost use Rattle.reply.specs.Record.{record_of};

use planner::Made;
use track::Track;

// Writes the reply for a pair; bytes from 96 on are kept.
pub fn write(reply: &mut [u8], verdict: u8, floor: u8, ranked: u32, main: Track, standby: Track)
    requires { (reply_size ≤ length reply.old) × Fit main × Fit standby }
    ensures { reply.new ≡ reply_of verdict floor ranked (pair_in main standby) ++ drop reply_size reply.old }
{
    let both = exposure::common(main.exposure, standby.exposure);
    let shared = exposure::size(both) as u8;
    let spans = exposure::spans(both) as u8;
    let counts = [
        verdict,
        shared,
        floor,
        main.count,
        standby.count,
        spans,
        0,
        0,
    ];
    let at = octets::copy(reply, 0, &counts);
    let at = octets::put_number(reply, at, 4, ranked as u64);
    let at = octets::put_number(reply, at, 4, main.metres as u64);
    let at = octets::put_number(reply, at, 4, standby.metres as u64);
    let at = octets::put_number(reply, at, 4, 0);
    let at = octets::put_number(reply, at, 8, exposure::risks(both));
    let at = octets::copy(reply, at, &main.arcs);
    octets::copy(reply, at, &standby.arcs);
}

// Writes the reply of what planning has made; bytes from 96 on are kept.
pub fn write_made(reply: &mut [u8], made: &Made)
    requires { (reply_size ≤ length reply.old) × Fit made.now.choice.main × Fit made.now.choice.standby }
    ensures { reply.new ≡ record_of made.now ++ drop reply_size reply.old }
{
    let choice = &made.choice;
    write(
        reply,
        u8::from(choice.verdict),
        made.floor,
        choice.ranked,
        choice.main,
        choice.standby,
    );
}
