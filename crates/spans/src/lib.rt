// The spans of a table, each known by the first arc that has its number (T-03; the problem's specs/Spans.antt): the table is written anew, with those marks in the place
// of the numbers, so that what follows has at most 128 spans to tell apart.
#![tactic(auto)]

ghost use Rattle.std.specs.Prelude.{◌≡◌, true, false, ◌+◌, ◌*◌, ◌≤◌, ◌<◌, length};
ghost use Rattle.problem.specs.Table.{most_table_bytes, arcs_of, over};
ghost use Rattle.problem.specs.Spans.{first_with, mark};
ghost use Rattle.octets.specs.Puts.{Puts};
ghost use Rattle.spans.specs.Marks.{SomeSpan, NoSpan, respanned, marked_record, marked_table};

use problem::ARC_BYTES;

// Whether some arc has a span. By a `for`: what `any` finds among numbers would have to be brought to the arcs, by a longer proof than this loop has.
pub fn any(table: &[u8]) -> bool
    ensures { (result ≡ true → SomeSpan (arcs_of table.now)) × (result ≡ false → NoSpan (arcs_of table.now)) }
{
    for k in 0..table.len() / ARC_BYTES {
        let a = arcs::arc_at(table, k);
        if a.span != 0 {
            return true;
        }
    }
    false
}

// The number of the first arc that has this span; where none has, that of all arcs.
fn first_with(table: &[u8], span: u16) -> usize
    requires { length table.now ≤ most_table_bytes }
    ensures { (result ≡ first_with span 0 (arcs_of table.now)) × (result ≤ most_table_bytes) }
{
    let n = table.len() / ARC_BYTES;
    for k in 0..n {
        let a = arcs::arc_at(table, k);
        if a.span == span {
            return k;
        }
    }
    n
}

// What the span of this number is known by; 0 where it is not known.
fn mark(table: &[u8], span: u16) -> u64
    requires { length table.now ≤ most_table_bytes }
    ensures { result ≡ mark (arcs_of table.now) span }
{
    if span == 0 {
        return 0;
    }
    first_with(table, span) as u64 + 1
}

// Puts an arc's sixteen bytes, with another span.
fn put_respanned(out: &mut [u8], at: usize, bytes: &[u8], span: u64) -> usize
    requires { (at + 16 ≤ length out.old) × (length bytes.now ≡ 16) }
    ensures { Puts (respanned bytes.now span) out.old at out.new result }
{
    let next = octets::copy(out, at, &bytes[0..2]);
    let next = octets::put_number(out, next, 2, span);
    octets::copy(out, next, &bytes[4..])
}

// Puts arc k of the table with its span's mark.
fn put_marked(out: &mut [u8], at: usize, table: &[u8], k: usize) -> usize
    requires { (at + 16 ≤ length out.old) × (16 * k + 16 ≤ length table.now) × (length table.now ≤ most_table_bytes) }
    ensures { Puts (marked_record table.now k) out.old at out.new result }
{
    let a = arcs::arc_at(table, k);
    let span = mark(table, a.span);
    let start = ARC_BYTES * k;
    let end = start + ARC_BYTES;
    put_respanned(out, at, &table[start..end], span)
}

// Puts the whole table so.
pub fn put_all(out: &mut [u8], table: &[u8])
    requires { (length table.now ≤ length out.old) × (length table.now ≤ most_table_bytes) }
    ensures { out.new ≡ over (marked_table table.now) out.old }
{
    let mut at = 0;
    for k in 0..table.len() / ARC_BYTES {
        at = put_marked(out, at, table, k);
    }
}
