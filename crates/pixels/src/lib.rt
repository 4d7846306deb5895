// Rows of pixels, filled eight at a time from words. Inner functions, not public calls.
// put8, put_tile: eight pixels stored in a row; those of a background tile. put_over: stored only where nothing opaque stands.
// clear, merge8, meets: the left columns hidden, eight columns of sprites over background, sprite 0 hit.
#![tactic(auto)]

ghost use Rattle.std.specs.Prelude.{◌≡◌, cond, ◌&&◌, ℕ, ◌+◌, ◌-◌, ◌%◌, ◌<◌, ◌≤◌, eqb, ltb, length, get_or};
ghost use Rattle.model.specs.Unit.{bit};
ghost use Rattle.model.specs.Record.{bit_byte};
ghost use Rattle.model.specs.Background.{colour_of, number_of};
ghost use Rattle.model.specs.Line.{merged};
ghost use Rattle.words.specs.Pack.{byte_of};
ghost use Rattle.pixels.specs.Row.{store_tab, over_one, over_tab, placed, merged_in, meets_of};

use words::{byte, numbers, spread};

// Eight pixels stored from column at on. No to_le_bytes: its body divides, and code that draws a line may not (tests/no-divide).
#[tactic(auto, using(crate::proofs::Store::store_loop))]
pub fn put8(row: &mut [u8], at: usize, n: u64)
    requires { at + 8 ≤ length row.old }
    ensures { row.new ≡ store_tab (byte_of n) at 8 row.old }
{
    for j in 0..8 {
        row[at + j] = byte(n, j);
    }
}

// The eight pixels of a background tile's row, stored from column at on.
pub fn put_tile(row: &mut [u8], at: usize, low: u8, high: u8, palette: u8)
    requires { (at + 8 ≤ length row.old) × (palette < 4) }
    ensures { row.new ≡ store_tab (λ (j : ℕ). number_of palette (colour_of low high (7 - j))) at 8 row.old }
{
    put8(row, at, numbers(spread(low), spread(high), palette as u64));
}

// The old pixel if it is opaque, else the new one.
fn over_one(old: u8, new: u8) -> u8
    ensures { result ≡ over_one old new }
{
    if old == 0 { new } else { old }
}

// Eight pixels stored from column at on, where nothing opaque stands. Columns are counted here: of what a `zip` of `iter_mut` writes, a proof knows nothing.
#[tactic(auto, using(crate::proofs::Over::over_loop))]
pub fn put_over(row: &mut [u8], at: usize, n: u64)
    requires { at + 8 ≤ length row.old }
    ensures { row.new ≡ over_tab (byte_of n) at 8 row.old }
{
    for j in 0..8 {
        row[at + j] = over_one(row[at + j], byte(n, j));
    }
}

// The first n columns are not opaque.
pub fn clear(row: &mut [u8], n: usize)
    requires { n ≤ length row.old }
    ensures { (p : ℕ) → get_or row.new p 0 ≡ cond (ltb p n) 0 (get_or row.old p 0) }
{
    row[..n].fill(0);
}

// The sprites' pixel s over the background's pixel b. Each test picks one of two values, so that eight pixels are merged with no branch.
#[tactic(auto, unfolding(model::specs::Line::merged))]
fn merge_one(b: u8, s: u8) -> u8
    ensures { result ≡ merged b s }
{
    let over = if bits::bit(s, 5) && b != 0 { b } else { s & 31 };
    if s == 0 { b } else { over }
}

// The sprites' row over the background's line, in eight columns from column at on.
#[tactic(auto, unfolding(crate::specs::Row::merged_in))]
pub fn merge8(line: &mut [u8; 256], s: &[u8; 264], at: usize)
    requires { at ≤ 248 }
    ensures { (p : ℕ) → get_or line.new p 0 ≡ merged_in line.old s.now at 8 p }
{
    for p in at..at + 8 {
        line[p] = merge_one(line[p], s[p]);
    }
}

// 1 in a column where both pixels are opaque.
fn both(b: u8, s: u8) -> u8
    ensures { (result ≡ bit_byte (ltb 0 b && ltb 0 s)) × (result < 2) }
{
    (b != 0 && s != 0) as u8
}

// Eight pixels from column at on, hidden in the first `skip` columns: some column below 255 where the line is opaque too.
#[tactic(auto, using(crate::proofs::Hit::met_loop))]
pub fn meets(line: &[u8; 256], at: usize, n: u64, skip: usize) -> bool
    requires { (at < 256) × (skip ≤ 8) }
    ensures { result ≡ meets_of line.now (placed (byte_of n) at) skip }
{
    let end = (at + 8).min(255);
    let mut found = 0u8;
    for p in at.max(skip)..end {
        found += both(line[p], byte(n, p - at));
    }
    0 < found
}
