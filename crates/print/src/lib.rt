// The text that the program `routes` prints for an answer (01, The program `routes`).
// What is written goes into a buffer from a place on, and the place behind it is returned.
#![tactic(auto)]

ghost use Rattle.std.specs.Prelude.{◌≡◌, ◌∷◌, ◌++◌, ◌+◌, ◌-◌, ◌*◌, ◌≤◌, eqb, length, take, drop, if◌then◌else◌};
ghost use Rattle.problem.specs.Table.{reply_size};
ghost use Rattle.problem.specs.Printed.{kilometres, text, digits, fields, lines, printed};
ghost use Rattle.octets.specs.Puts.{Puts};
ghost use Rattle.print.specs.Print.{print_room, verdict_line};

// Enough for any answer's text.
pub const ROOM: usize = 480;

// Metres as kilometres, rounded up.
#[tactic(auto, unfolding(problem::specs::Printed::kilometres))]
pub fn kilometres(metres: u32) -> u32
    ensures { result ≡ kilometres metres }
{
    metres.div_ceil(1000)
}

// The first `count` bytes from a place on, or as many as there are.
fn part(bytes: &[u8], from: usize, count: u8) -> &[u8]
    requires { from ≤ length bytes.now }
    ensures result_value { result.now ≡ take count (drop from bytes.now) }
    ensures result_in_bounds { length result.now ≤ length bytes.now - from }
{
    let rest = &bytes[from..];
    &rest[..rest.len().min(count as usize)]
}

// A number in decimal. Digit by digit: `write!` says what it has written where it returns Ok, and not that a buffer of this size is room enough for it to.
fn decimal(out: &mut [u8], at: usize, x: u32) -> usize
    requires { at + 10 ≤ length out.old }
    ensures { Puts (digits 10 x) out.old at out.new result }
{
    if x < 10 {
        return octets::put(out, at, b'0' + x as u8);
    }
    let next = decimal(out, at, x / 10);
    octets::put(out, next, b'0' + (x % 10) as u8)
}

// A number behind a space.
fn field(out: &mut [u8], at: usize, x: u32) -> usize
    requires { at + 11 ≤ length out.old }
    ensures puts { Puts (text " " ++ digits 10 x) out.old at out.new result }
    ensures upper_bound { result ≤ at + 11 }
{
    let next = octets::put(out, at, b' ');
    decimal(out, next, x)
}

// Small numbers, each behind a space, then a line feed.
fn numbers(out: &mut [u8], at: usize, bytes: &[u8]) -> usize
    requires { at + 4 * length bytes.now + 8 ≤ length out.old }
    ensures puts { Puts (fields bytes.now) out.old at out.new result }
    ensures upper_bound { result ≤ at + 4 * length bytes.now + 1 }
{
    let mut next = at;
    for byte in bytes {
        next = field(out, next, u32::from(*byte));
    }
    octets::put(out, next, b'\n')
}

// A line: a word, a number, and small numbers.
fn line(out: &mut [u8], at: usize, word: &[u8], first: u32, rest: &[u8]) -> usize
    requires { at + length word.now + 4 * length rest.now + 19 ≤ length out.old }
    ensures puts { Puts (word.now ++ fields (first ∷ rest.now)) out.old at out.new result }
    ensures upper_bound { result ≤ at + length word.now + 4 * length rest.now + 12 }
{
    let next = octets::copy(out, at, word);
    let next = field(out, next, first);
    numbers(out, next, rest)
}

// The verdict's word.
fn verdict_word(out: &mut [u8], verdict: u8) -> usize
    requires { 7 ≤ length out.old }
    ensures puts { Puts (if eqb verdict 0 then text "settled" else text "stopped") out.old 0 out.new result }
    ensures value { result ≡ 7 }
{
    let word: &[u8] = if verdict == 0 { b"settled" } else { b"stopped" };
    octets::copy(out, 0, word)
}

// The verdict's word and its numbers: shared count, floor, ranked.
fn verdict_line(out: &mut [u8], reply: &[u8]) -> usize
    requires { (print_room ≤ length out.old) × (length reply.now ≡ reply_size) }
    ensures puts { Puts (verdict_line reply.now) out.old 0 out.new result }
    ensures upper_bound { result ≤ 41 }
{
    let next = verdict_word(out, reply[0]);
    let next = field(out, next, u32::from(reply[1]));
    let next = field(out, next, u32::from(reply[2]));
    let next = field(out, next, octets::number4(reply, 8));
    octets::put(out, next, b'\n')
}

// The three lines for a reply record.
fn lines(out: &mut [u8], reply: &[u8]) -> usize
    requires { (print_room ≤ length out.old) × (length reply.now ≡ reply_size) }
    ensures { Puts (lines reply.now) out.old 0 out.new result }
{
    let next = verdict_line(out, reply);
    let main = part(reply, 32, reply[3]);
    let next = line(
        out,
        next,
        b"main",
        kilometres(octets::number4(reply, 12)),
        main,
    );
    let standby = part(reply, 64, reply[4]);
    line(
        out,
        next,
        b"standby",
        kilometres(octets::number4(reply, 16)),
        standby,
    )
}

// Writes the text for an answer into `out` from its beginning, and returns its length; with a refusal the reply is not looked at.
pub fn render(number: u32, reply: &[u8], out: &mut [u8]) -> usize
    requires { (print_room ≤ length out.old) × (length reply.now ≡ reply_size) }
    ensures { Puts (printed (record { number = number; reply = reply.now })) out.old 0 out.new result }
{
    if number < 2 {
        return lines(out, reply);
    }
    line(out, 0, b"refused", number, b"")
}
