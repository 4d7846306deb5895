// Eight pixels in a 64-bit word, the leftmost in the lowest byte. Inner functions, not public calls.
// spread, numbers: a byte's bits one to a byte; pixel numbers from two bytes' bits. byte: one of the eight.
// sprite_bytes: the eight pixels of a sprite's row, from either side (sided).
#![tactic(auto)]

ghost use Rattle.std.specs.Prelude.{◌≡◌, cond, ℕ, ◌+◌, ◌-◌, ◌*◌, ◌/◌, ◌%◌, ◌<◌, ◌≤◌};
ghost use Rattle.model.specs.Unit.{bit};
ghost use Rattle.model.specs.Background.{colour_of, number_of};
ghost use Rattle.words.specs.Pack.{pack, byte_of, spread_of, back_of, pixels_by};

use model::Sprite;

// 1 in each byte.
const ONES: u64 = 0x0101010101010101;
// The highest bit of each byte.
const HIGHEST: u64 = 0x8080808080808080;
// Times a byte: its bit 7 - k, for k from 0 to 6, comes to the highest bit of byte k, 9k places up. No two bits meet.
const SPREAD: u64 = 0x0040201008040201;
// Byte k has bit 7 - k: the bit of a byte that pixel k takes.
const FROM_LEFT: u64 = 0x0102040810204080;
// Byte k has bit k: the one that it takes in a sprite that is flipped.
const FROM_RIGHT: u64 = 0x8040201008040201;
// 127 in each byte: one bit and 127 more is 128 or more.
const ALMOST: u64 = 0x7F7F7F7F7F7F7F7F;

// The bits of b, one in each byte, bit 7 leftmost. Of what is moved up by 63 only bit 0 stays: that makes one product of all eight.
pub fn spread(b: u8) -> u64
    ensures { (result ≡ spread_of b) × (result ≤ 0x0101010101010101) }
{
    let x = b as u64;
    (x * SPREAD + (x << 63) & HIGHEST) >> 7
}

// The pixel numbers of eight colours, given by their low bits and their high bits: 0 where both are 0, else 4q + colour.
#[tactic(auto, using(crate::proofs::Colours::numbers_fit), unfolding(crate::specs::Pack::pixels_by))]
pub fn numbers(low: u64, high: u64, q: u64) -> u64
    requires { (low ≤ 0x0101010101010101) × (high ≤ 0x0101010101010101) × (q < 16) }
    ensures { result ≡ pixels_by low high q }
{
    low + 2 * high + (low | high) * (4 * q)
}

// Byte k of n.
#[tactic(auto, unfolding(crate::specs::Pack::byte_of))]
pub fn byte(n: u64, k: usize) -> u8
    requires { k < 8 }
    ensures { result ≡ byte_of n k }
{
    (n >> (8 * k) & 255) as u8
}

// The bits of b, one in each byte, bit 7 leftmost, or bit 0 if the sprite is flipped.
#[tactic(auto, using(crate::proofs::Spreads::taken_cases))]
fn sided(b: u8, flip: bool) -> u64
    ensures { (result ≡ cond flip (back_of b) (spread_of b)) × (result ≤ 0x0101010101010101) }
{
    let order = if flip { FROM_RIGHT } else { FROM_LEFT };
    ((b as u64 * ONES & order) + ALMOST) >> 7 & ONES
}

// The eight pixels of a sprite's row: 0, or 16 + 4 × palette + colour, and 32 more where attribute bit 5 puts it behind.
#[tactic(auto, using(crate::proofs::Colours::sprite_pack, std::proofs::lemmas::Grind::and_numeral))]
pub fn sprite_bytes(s: Sprite) -> u64
    ensures { result ≡ pack (λ (j : ℕ). number_of (4 + s.attribute % 4 + s.attribute / 32 % 2 * 8)
        (colour_of s.low s.high (cond (bit 64 s.attribute) j (7 - j)))) 8 }
{
    let flip = bits::bit(s.attribute, 6);
    let q = 4 + (s.attribute & 3) + bits::field(s.attribute, 5, 1) * 8;
    numbers(sided(s.low, flip), sided(s.high, flip), q as u64)
}
