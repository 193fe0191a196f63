// The look-up of a tie as a call by itself, which bench/run times: a static library with one function of C's calling convention.
// It is the table's `tied`, and promises what that promises, and no gap where a slice isn't a table or a number no point of it.
#![tactic(auto)]

ghost use Rattle.std.specs.Prelude.{◌≡◌};
ghost use Rattle.lookup.specs.LookedUp.{looked_up};

#[unsafe(no_mangle)]
pub extern "C" fn baruvkesh_tied(d: &[u32], a: usize, b: usize) -> u32
    ensures { result ≡ looked_up d.now a b }
{
    if d.len() == table::CELLS && a < table::STRIDE && b < table::STRIDE {
        table::tied(d, a, b).0
    } else {
        gap::NONE
    }
}
