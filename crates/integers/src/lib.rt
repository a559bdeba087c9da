// Laws of whole numbers, and a number's 64 bits in two's complement.
#![tactic(auto)]

ghost use Rattle.std.specs.Prelude.{◌≡◌};
ghost use Rattle.std.specs.Int.{w64};
ghost use Rattle.std.proofs.Common.{to_z, of_z};

// The bits of a number in two's complement. The compiler makes no instruction of it.
pub fn of_i64(z: i64) -> u64
    ensures { result ≡ of_z w64 z }
{
    z.cast_unsigned()
}

// The number that 64 bits stand for. The compiler makes no instruction of it.
pub fn to_i64(n: u64) -> i64
    ensures { result ≡ to_z w64 n }
{
    n.cast_signed()
}
