// The bytes of a plan, laid into a buffer that has room for them: each step keeps all the other bytes.
ghost use Rattle.std.specs.Prelude.{◌≡◌, ◌+◌, ◌*◌, ◌≤◌, length};
ghost use Rattle.std.proofs.lemmas.List.Edits.{sets};
ghost use Rattle.fields.specs.Bytes.{bytes_of_all};
ghost use Rattle.plan.specs.PlanFile.{plan_bytes};

use plan::{HEAD, RENT};

// The whole plan, from the buffer's start: the mark, the version and the zero byte, n in two bytes, the cost in eight, a byte for
// each flag and four for each rent.
pub fn plan(buffer: &mut [u8], cost: u64, flags: &[u8], rents: &[u32])
    requires { 16 + length flags.now + 4 * length rents.now ≤ length buffer.old }
    ensures { buffer.new ≡ sets buffer.old 0 (plan_bytes cost flags.now rents.now) }
{
    let n = flags.len();
    lay(buffer, 0, b"CPL\x01\0\0");
    lay(buffer, 6, &n.to_le_bytes()[..2]);
    lay(buffer, 8, &cost.to_le_bytes());
    lay(buffer, HEAD, flags);
    lay_rents(buffer, HEAD + n, rents);
}

// Bytes, from place `at` on. One by one: with `copy_from_slice` the library for C would need `memmove` from outside.
fn lay(buffer: &mut [u8], at: usize, bytes: &[u8])
    requires { at + length bytes.now ≤ length buffer.old }
    ensures { buffer.new ≡ sets buffer.old at bytes.now }
{
    for (i, byte) in bytes.iter().enumerate() {
        buffer[at + i] = *byte;
    }
}

// The rents, four bytes each, from place `at` on.
fn lay_rents(buffer: &mut [u8], at: usize, rents: &[u32])
    requires { at + 4 * length rents.now ≤ length buffer.old }
    ensures { buffer.new ≡ sets buffer.old at (bytes_of_all 4 rents.now) }
{
    for (t, rent) in rents.iter().enumerate() {
        lay(buffer, at + RENT * t, &rent.to_le_bytes());
    }
}
