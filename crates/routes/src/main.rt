// The program `routes`: a request and a table on standard input, three lines or a refusal on standard output.
#![tactic(auto)]

ghost use Rattle.std.specs.Prelude.{◌≡◌, ◌≤◌, length, drop};
ghost use Rattle.problem.specs.Calls.{Called};
ghost use Rattle.problem.specs.Printed.{request_of, faulty, output};
ghost use Rattle.octets.specs.Puts.{Puts};
ghost use Rattle.print.specs.Print.{print_room};

const INPUT_FAULT: u32 = 12;

const REQUEST_BYTES: usize = 16;

// One byte more than the largest table that is not refused tells a table that is too large.
const INPUT_ROOM: usize = REQUEST_BYTES + problem::MOST_TABLE_BYTES + 1;

// Whether the input is too short for a request, or a spare byte of it is not zero.
#[tactic(auto, unfolding(problem::specs::Printed::faulty))]
fn is_faulty(input: &[u8]) -> bool
    ensures { result ≡ faulty input.now }
{
    input.len() < REQUEST_BYTES || octets::number2(input, 2) != 0 || octets::number4(input, 12) != 0
}

// Plans what the input asks for.
fn plan(input: &[u8], reply: &mut [u8]) -> u32
    requires { 16 ≤ length input.now }
    ensures { Called (drop 16 input.now) (request_of input.now) reply.old result reply.new }
{
    let source = u32::from(input[0]);
    let terminal = u32::from(input[1]);
    let reach = octets::number4(input, 4);
    let allowance = octets::number4(input, 8);
    entry::feshangul_plan(
        &input[REQUEST_BYTES..],
        reply,
        source,
        terminal,
        reach,
        allowance,
    )
}

// Writes the text for what is read.
fn respond(input: &[u8], out: &mut [u8]) -> usize
    requires { print_room ≤ length out.old }
    ensures text { Puts (output input.now) out.old 0 out.new result }
    ensures inside { result ≤ length out.new }
{
    let mut reply = [0u8; problem::REPLY_SIZE];
    if is_faulty(input) {
        return print::render(INPUT_FAULT, &reply, out);
    }
    let number = plan(input, &mut reply);
    print::render(number, &reply, out)
}

// By the kit's crate io, whose calls give no error: whatever ends the input, what came before is what is planned, and the exit status is 0.
fn main() {
    let mut input = [0u8; INPUT_ROOM];
    let n = io::read_full(0, &mut input);
    let mut out = [0u8; print::ROOM];
    let len = respond(&input[..n], &mut out);
    io::write_all(1, &out[..len]);
}
