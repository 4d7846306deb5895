// The pixels of the sprites that a line shows. Inner functions, not public calls.
// put_sprite, sprite_row: a sprite over pixels, the winning pixel of every column. Within: fill_row, draw_row.
// merge_row, zero_meets: those pixels over a line, sprite 0's hit. Within: covering. Pixels have 264 columns, so that a sprite at X = 255 has room; a line shows the first 256.
#![tactic(auto)]

ghost use Rattle.std.specs.Prelude.{◌≡◌, cond, [], ◌++◌, ℕ, ◌-◌, ◌<◌, ◌≤◌, eqb, length, get_or, take, drop};
ghost use Rattle.model.specs.Line.{tab, merged};
ghost use Rattle.pixels.specs.Row.{meets_of};
ghost use Rattle.model.specs.Sprites.{covers, places_of, shade, winner, sprite_on, sprite_zero_on};
ghost use Rattle.sprites.specs.Row.{shown_on, Beside};

use lent::Tables;
use model::Sprite;

// Sprite i covers line n: it is counted for overflow on n, and drawn on n + 1.
#[tactic(auto, using(crate::proofs::Cases::covering_cases))]
fn covering(control: u8, n: usize, i: usize, oam: &[u8; 256]) -> bool
    requires { i < 64 }
    ensures { result ≡ covers control oam.now n i }
{
    let y = usize::from(oam[4 * i]);
    y <= n && n - y < usize::from(choice::height(control))
}

// A sprite's eight pixels over a row of 264, where nothing opaque stands.
#[tactic(auto, using(crate::proofs::Cases::put_1))]
pub fn put_sprite(s: Sprite, row: &mut [u8; 264])
    ensures { (p : ℕ) → get_or row.new p 0 ≡ cond (eqb (get_or row.old p 0) 0) (shade s p) (get_or row.old p 0) }
{
    pixels::put_over(row, usize::from(s.x), words::sprite_bytes(s));
}

// The sprites that line n shows, by the choice's list of them, into the front of the row in OAM order. Places past them stay as they are.
#[tactic(auto, using(crate::proofs::Row::filled_shown, crate::proofs::Winner::listed_small, crate::proofs::Winner::listed_covers))]
fn fill_row(row: &mut [Sprite], control: u8, n: u8, tables: Tables, oam: &[u8; 256], shown: &[u8])
    requires { (length row.old ≡ 8) × (length shown.now ≤ 8)
        × (shown.now ≡ cond (eqb n 0) [] (take 8 (places_of (covers control oam.now (n - 1)) 64))) }
    ensures { row.new ≡ shown_on control tables.entry.left.now tables.entry.right.now oam.now n ++ drop (length shown.now) row.old }
{
    let above = usize::from(n.saturating_sub(1));
    for i in 0..shown.len() {
        let sprite = usize::from(shown[i]);
        row[i] = patterns::fetch(control, above, sprite, tables, oam);
    }
}

// The winning pixel of every column, from the first `count` sprites of the row: the first are put first.
#[tactic(auto, using(crate::proofs::Row::drawn_loop))]
fn draw_row(row: &[Sprite], count: usize, pixels: &mut [u8; 264])
    requires { (count ≤ length row.now) × ((p : ℕ) → get_or pixels.old p 0 ≡ 0) }
    ensures { (p : ℕ) → get_or pixels.new p 0 ≡ winner (take count row.now) p }
{
    for &sprite in &row[..count] {
        put_sprite(sprite, pixels);
    }
}

// The winning sprite pixel of every column of line n. The sprites of the choice's list stand in a row of eight, lent to be filled, then to be drawn from.
#[tactic(auto, using(crate::proofs::Winner::few, crate::proofs::Row::drawn_shown))]
pub fn sprite_row(
    control: u8,
    n: u8,
    tables: Tables,
    oam: &[u8; 256],
    shown: &[u8],
    pixels: &mut [u8; 264],
)
    requires { ((p : ℕ) → get_or pixels.old p 0 ≡ 0) × (shown.now ≡ cond (eqb n 0) [] (take 8 (places_of (covers control oam.now (n - 1)) 64))) }
    ensures { (p : ℕ) → get_or pixels.new p 0 ≡ sprite_on control tables.entry.left.now tables.entry.right.now oam.now n p }
{
    let mut row = [Sprite {
        low: 0,
        high: 0,
        attribute: 0,
        x: 0,
    }; 8];
    fill_row(&mut row, control, n, tables, oam, shown);
    draw_row(&row, shown.len(), pixels);
}

// The sprites' row over a line, in the eight columns of each of the shown sprites: elsewhere the row has none.
#[tactic(auto, using(crate::proofs::Merge::laid_loop))]
pub fn merge_row(line: &mut [u8; 256], row: &[u8; 264], oam: &[u8; 256], shown: &[u8])
    requires { ((k : ℕ) → k < length shown.now → get_or shown.now k 0 < 64)
        × ((p : ℕ) → Beside oam.now shown.now (length shown.now) p → get_or row.now p 0 ≡ 0) }
    ensures { line.new ≡ tab (λ (p : ℕ). merged (get_or line.old p 0) (get_or row.now p 0)) 256 }
{
    for &sprite in shown {
        let x = usize::from(oam[4 * usize::from(sprite) + 3]);
        pixels::merge8(line, row, x.min(248));
    }
}

// Sprite 0, hidden in the first `skip` columns: on line n some column below 255 where it is opaque and so is the line.
#[tactic(auto, using(crate::proofs::Winner::zero_cases))]
pub fn zero_meets(
    control: u8,
    n: u8,
    skip: usize,
    tables: Tables,
    oam: &[u8; 256],
    line: &[u8; 256],
) -> bool
    requires { skip ≤ 8 }
    ensures { result ≡ meets_of line.now (sprite_zero_on control tables.entry.left.now tables.entry.right.now oam.now n) skip }
{
    let above = usize::from(n.saturating_sub(1));
    if n == 0 || !covering(control, above, 0, oam) {
        return false;
    }
    let s = patterns::fetch(control, above, 0, tables, oam);
    pixels::meets(line, usize::from(s.x), words::sprite_bytes(s), skip)
}
