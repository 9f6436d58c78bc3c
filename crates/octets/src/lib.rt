// Numbers read from bytes, and bytes and numbers put into a buffer, little-endian.
// What is put begins at a place, and the place behind it is returned, where the next may go on.
#![tactic(auto)]

ghost use Rattle.std.specs.Prelude.{◌≡◌, [], ◌∷◌, ◌+◌, ◌*◌, ◌≤◌, ◌<◌, length};
ghost use Rattle.problem.specs.Table.{number_at, bytes_of};
ghost use Rattle.octets.specs.Puts.{Puts};

// The number that 2 bytes from a place on say.
#[tactic(auto, unfolding(problem::specs::Table::number_at))]
pub fn number2(bytes: &[u8], at: usize) -> u16
    requires { at + 2 ≤ length bytes.now }
    ensures { result ≡ number_at bytes.now at 2 }
{
    u16::from_le_bytes([bytes[at], bytes[at + 1]])
}

// The number that 4 bytes say; without a loop, since every arc is read by it.
#[tactic(auto, unfolding(problem::specs::Table::number_at))]
pub fn number4(bytes: &[u8], at: usize) -> u32
    requires { at + 4 ≤ length bytes.now }
    ensures { result ≡ number_at bytes.now at 4 }
{
    u32::from_le_bytes([bytes[at], bytes[at + 1], bytes[at + 2], bytes[at + 3]])
}

// The number that 8 bytes say.
#[tactic(auto, unfolding(problem::specs::Table::number_at))]
pub fn number8(bytes: &[u8], at: usize) -> u64
    requires { at + 8 ≤ length bytes.now }
    ensures { result ≡ number_at bytes.now at 8 }
{
    u64::from_le_bytes([
        bytes[at],
        bytes[at + 1],
        bytes[at + 2],
        bytes[at + 3],
        bytes[at + 4],
        bytes[at + 5],
        bytes[at + 6],
        bytes[at + 7],
    ])
}

// Puts one byte.
pub fn put(out: &mut [u8], at: usize, b: u8) -> usize
    requires { at < length out.old }
    ensures { Puts (b ∷ []) out.old at out.new result }
{
    out[at] = b;
    at + 1
}

// Puts all bytes of a slice.
pub fn copy(out: &mut [u8], at: usize, bytes: &[u8]) -> usize
    requires { at + length bytes.now ≤ length out.old }
    ensures { Puts bytes.now out.old at out.new result }
{
    let next = at + bytes.len();
    out[at..next].copy_from_slice(bytes);
    next
}

// Puts a number as n bytes.
pub fn put_number(out: &mut [u8], at: usize, n: usize, x: u64) -> usize
    requires { at + n ≤ length out.old }
    ensures { Puts (bytes_of n x) out.old at out.new result }
{
    let mut left = x;
    let next = at + n;
    for byte in &mut out[at..next] {
        *byte = (left % 256) as u8;
        left /= 256;
    }
    next
}
