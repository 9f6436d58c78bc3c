// The mender's entry as a C host calls it, by the same name as in mend: it hands its call on.
#![tactic(auto)]

ghost use Rattle.mend.specs.Steps.{MendsBy};

use mend::Mended;

// Mends, for any input and outputs: the number is 0 and both outputs are written, or it is a refusal's and neither is.
#[unsafe(no_mangle)]
pub extern "C" fn feshangul_mend(input: &[u8], table: &mut [u8], list: &mut [u8]) -> Mended
    ensures { MendsBy input.now table.old list.old result table.new list.new }
{
    mend::feshangul_mend(input, table, list)
}
