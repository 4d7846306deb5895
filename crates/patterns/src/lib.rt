// A sprite's two pattern bytes on a line. Inner functions, not public calls.
// fetch. Within: row_of, second_table, tile_of, pattern_at.
#![tactic(auto)]

ghost use Rattle.std.specs.Prelude.{◌≡◌, true, ◌<◌};
ghost use Rattle.model.specs.Sprites.{covers, row_of, second_table, tile_of, pattern_at, fetched};

use lent::Tables;
use model::Sprite;

// The row of its pattern that sprite i shows on line n + 1: from the bottom if attribute bit 7 is set.
#[tactic(auto, using(crate::proofs::Cases::row_cases))]
fn row_of(control: u8, n: usize, i: usize, oam: &[u8; 256]) -> usize
    requires { (i < 64) × (covers control oam.now n i ≡ true) }
    ensures { (result ≡ row_of control oam.now n i) × (result < 16) }
{
    let down = n - usize::from(oam[4 * i]);
    if bits::bit(oam[4 * i + 2], 7) {
        usize::from(choice::height(control)) - 1 - down
    } else {
        down
    }
}

// The right pattern table: by bit 0 of the tile byte at height 16, by control bit 3 at height 8.
#[tactic(auto, using(crate::proofs::Cases::second_cases))]
fn second_table(control: u8, i: usize, oam: &[u8; 256]) -> bool
    requires { i < 64 }
    ensures { result ≡ second_table control oam.now i }
{
    if bits::bit(control, 5) {
        bits::bit(oam[4 * i + 1], 0)
    } else {
        bits::bit(control, 3)
    }
}

// The tile of a row: the tile byte; at height 16 that byte less bit 0, and the next tile from row 8 on.
#[tactic(auto, using(crate::proofs::Cases::tile_cases))]
fn tile_of(control: u8, row: usize, i: usize, oam: &[u8; 256]) -> usize
    requires { (i < 64) × (row < 16) }
    ensures { (result ≡ tile_of control oam.now row i) × (result < 256) }
{
    let tile = usize::from(oam[4 * i + 1]);
    if bits::bit(control, 5) {
        (tile >> 1) * 2 + (row >> 3)
    } else {
        tile
    }
}

// The place of the row's low byte in its table; its high byte stands 8 further.
#[tactic(auto, using(crate::proofs::Cases::pattern_1, std::proofs::lemmas::Grind::and_numeral))]
fn pattern_at(control: u8, n: usize, i: usize, oam: &[u8; 256]) -> usize
    requires { (i < 64) × (covers control oam.now n i ≡ true) }
    ensures { (result ≡ pattern_at control oam.now n i) × (result < 4088) }
{
    let row = row_of(control, n, i, oam);
    16 * tile_of(control, row, i, oam) + (row & 7)
}

// Sprite i as line n + 1 shows it.
#[tactic(auto, using(crate::proofs::Cases::fetch_1))]
pub fn fetch(control: u8, n: usize, i: usize, tables: Tables, oam: &[u8; 256]) -> Sprite
    requires { (i < 64) × (covers control oam.now n i ≡ true) }
    ensures { result ≡ fetched control tables.entry.left.now tables.entry.right.now oam.now n i }
{
    let at = pattern_at(control, n, i, oam);
    let table = tables.table(second_table(control, i, oam));
    Sprite {
        low: table[at],
        high: table[at + 8],
        attribute: oam[4 * i + 2],
        x: oam[4 * i + 3],
    }
}
