// The two-byte numbers that C lends as bytes, low byte first. Inner functions, not public calls.
// take; store, put, put_same. Loops go by index: the place of a number gives that of its bytes.
#![tactic(auto)]

ghost use Rattle.std.specs.Prelude.{◌≡◌, ◌+◌, ◌*◌, ◌/◌, ◌%◌, ◌<◌, length};
ghost use Rattle.model.specs.Line.{tab};
ghost use Rattle.model.specs.Colours.{numbers_of};
ghost use Rattle.memory_pairs.specs.Pairs.{stored_pair, always};

// 256 numbers, from 512 bytes.
#[tactic(auto, using(crate::proofs::Cases::taken), unfolding(crate::specs::Pairs::pair_at))]
pub fn take(bytes: &[u8; 512], numbers: &mut [u16; 256])
    ensures { numbers.new ≡ numbers_of bytes.now }
{
    for i in 0..256 {
        numbers[i] = u16::from_le_bytes([bytes[2 * i], bytes[2 * i + 1]]);
    }
}

// Number k, into its two bytes.
#[tactic(auto, unfolding(crate::specs::Pairs::stored_pair))]
pub fn store(bytes: &mut [u8], k: usize, n: u16)
    requires { 2 * k + 1 < length bytes.old }
    ensures { bytes.new ≡ stored_pair bytes.old k n }
{
    let [low, high] = bits::le_bytes(n);
    bytes[2 * k] = low;
    bytes[2 * k + 1] = high;
}

// 256 numbers, into 512 bytes.
#[tactic(auto, using(crate::proofs::Cases::put_more, crate::proofs::Cases::put_done))]
pub fn put(numbers: &[u16; 256], bytes: &mut [u8; 512])
    ensures { numbers_of bytes.new ≡ numbers.now }
{
    for i in 0..256 {
        store(bytes, i, numbers[i]);
    }
}

// One number 256 times, into 512 bytes. Beside put: an array of it would be filled first.
#[tactic(auto, using(crate::proofs::Cases::same_more, crate::proofs::Cases::given_done))]
pub fn put_same(n: u16, bytes: &mut [u8; 512])
    ensures { numbers_of bytes.new ≡ tab (always n) 256 }
{
    for i in 0..256 {
        store(bytes, i, n);
    }
}
