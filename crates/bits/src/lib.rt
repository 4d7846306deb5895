// One bit of a byte, some bits of it, and the bytes of a two-byte number, by shifts and masks whose contracts say / and %, so that no caller divides:
// bit, field, le_bytes.
// Elsewhere a shift and a mask by numerals need no function: x >> 3 reads as x / 8 by itself, and x & 31 as x % 32 by std's and_numeral.
#![tactic(auto)]

ghost use Rattle.std.specs.Prelude.{◌≡◌, ◌/◌, ◌%◌, ◌^◌, ◌<◌, eqb, [], ◌∷◌};

// Bit k of a byte is set.
pub fn bit(b: u8, k: usize) -> bool
    requires { k < 8 }
    ensures { result ≡ eqb (b / 2 ^ k % 2) 1 }
{
    b >> k & 1 == 1
}

// n bits of a byte from bit k.
pub fn field(b: u8, k: usize, n: usize) -> u8
    requires { (k < 8) × (n < 8) }
    ensures { result ≡ b / 2 ^ k % 2 ^ n }
{
    b >> k & ((1 << n) - 1)
}

// The bytes of n, the low one first. Not to_le_bytes, which divides: nothing that running lines reaches may.
pub fn le_bytes(n: u16) -> [u8; 2]
    ensures { result ≡ n % 256 ∷ n / 256 ∷ [] }
{
    [(n & 255) as u8, (n >> 8) as u8]
}
