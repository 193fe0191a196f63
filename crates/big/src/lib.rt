// Numbers of one to eight bytes, the most significant first: read and written at any width, by one law for all of them.
// It rests on the bytes alone; two's complement is a definition of specs/, with its laws in proofs/.
#![tactic(auto)]

ghost use Rattle.std.specs.Prelude.{◌≡◌, ◌+◌, ◌^◌, ◌≤◌, ◌<◌, length};
ghost use Rattle.big.specs.Big.{big_of, Kept};

// The number of the width bytes from at on.
pub fn read(b: &[u8], at: usize, width: usize) -> u64
    requires { (at + width ≤ length b.now) × (width ≤ 8) }
    ensures { (result ≡ big_of b.now at width) × (result < 256 ^ width) }
{
    let mut v: u64 = 0;
    for k in 0..width {
        v = v * 256 + u64::from(b[at + k]);
    }
    v
}

// Writes v into the width bytes from at on.
pub fn write(out: &mut [u8], at: usize, width: usize, v: u64)
    requires { (at + width ≤ length out.old) × (v < 256 ^ width) }
    ensures { (big_of out.new at width ≡ v) × Kept out.old out.new at width }
{
    let mut rest = v;
    for k in (0..width).rev() {
        out[at + k] = (rest % 256) as u8;
        rest /= 256;
    }
}
