// Operands of fixed width, stored low byte first, signed ones in two's complement.
ghost use Rattle.std.specs.Prelude.{◌≡◌, [], ◌∷◌, ◌+◌, ◌≤◌, ◌<◌, length};
ghost use Rattle.std.proofs.lemmas.List.Edits.{sets};
ghost use Rattle.saving.specs.Encoding.{to_bytes, signed_bytes};

use integers::of_i64;

pub fn write_byte(d: &mut [u8], at: usize, b: u8)
    requires { at < length d.old }
    ensures { d.new ≡ sets d.old at (b ∷ []) }
{
    d[at] = b;
}

// Stores the k low bytes of x from an offset on.
pub fn write_le(d: &mut [u8], at: usize, k: usize, x: u64)
    requires { (k ≤ 8) × (at + k ≤ length d.old) }
    ensures { d.new ≡ sets d.old at (to_bytes k x) }
{
    d[at..at + k].copy_from_slice(&x.to_le_bytes()[..k]);
}

pub fn write_i64(d: &mut [u8], at: usize, z: i64)
    requires { at + 8 ≤ length d.old }
    ensures { d.new ≡ sets d.old at (signed_bytes z) }
{
    write_le(d, at, 8, of_i64(z));
}
