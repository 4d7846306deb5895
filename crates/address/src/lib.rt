// Where an address leads, the part of a table that a tile is, and the page of a quarter. Inner functions, not public calls.
// wiring_number, nametable_length, page, cell, palette_cell, lead; tile; quarter.
#![tactic(auto)]

ghost use Rattle.std.specs.Prelude.{◌≡◌, ◌+◌, ◌*◌, ◌%◌, ◌≤◌, ◌<◌, length};
ghost use Rattle.model.specs.Unit.{pattern_length, nametables_for, nametable_length};
ghost use Rattle.model.specs.Address.{wiring_number, page_at, cell_of, palette_cell, place_of, tile_in, tile_part, quarter_in, quarter_part};

use model::{Board, Place, Wiring};

// The page of each quarter, by wiring.
const PAGES: [[u8; 4]; 5] = [
    [0, 0, 1, 1],
    [0, 1, 0, 1],
    [0, 0, 0, 0],
    [1, 1, 1, 1],
    [0, 1, 2, 3],
];

// The wiring's number in the board byte and in the page table: its place in the enum.
pub fn wiring_number(w: Wiring) -> u8
    ensures { (result ≡ wiring_number w) × (result < 5) }
{
    w as u8
}

// How long the board's nametable RAM is: twice as long for wiring 4, whose number alone has bit 2.
pub fn nametable_length(board: Board) -> usize
    ensures { result ≡ nametable_length board }
{
    2048 + (wiring_number(board.wiring) >> 2) as usize * 2048
}

// An entry of the page table.
#[tactic(auto, using(crate::proofs::Cases::page_1, crate::proofs::Cases::page_2))]
fn page_entry(wiring: usize, quarter: usize) -> u8
    requires { (wiring < 5) × (quarter < 4) }
    ensures { (result ≡ page_at wiring quarter) × (result < 4) }
{
    PAGES[wiring][quarter]
}

// The nametable page that answers for a quarter of $2000-$2FFF.
#[tactic(auto, using(model::proofs::Address::page_small))]
pub fn page(w: Wiring, quarter: usize) -> usize
    requires { quarter < 4 }
    ensures { (result ≡ page_at (wiring_number w) quarter) × (result < 4) × (result * 1024 + 1024 ≤ nametables_for w) }
{
    page_entry(wiring_number(w) as usize, quarter) as usize
}

// The cell of nametable RAM that an address leads to.
#[tactic(auto, unfolding(model::specs::Address::cell_of))]
pub fn cell(w: Wiring, a: u16) -> usize
    ensures { (result ≡ cell_of w a) × (result < nametables_for w) }
{
    let at = a as usize;
    page(w, at / 1024 % 4) * 1024 + at % 1024
}

// The cell of the palette that an address leads to.
#[tactic(auto, unfolding(model::specs::Address::palette_cell))]
pub fn palette_cell(a: usize) -> usize
    ensures { (result ≡ palette_cell a) × (result < 32) }
{
    if a & 3 == 0 { a & 15 } else { a & 31 }
}

// The place that v leads to.
#[tactic(auto, unfolding(model::specs::Address::place_of))]
pub fn lead(board: Board, v: u16) -> Place
    ensures { result ≡ place_of board v }
{
    let a = v % 16384;
    if a < 8192 {
        Place::Pattern {
            right: a >= 4096,
            at: a as usize % 4096,
        }
    } else if a < 16128 {
        Place::Nametable(cell(board.wiring, a))
    } else {
        Place::Palette(palette_cell(a as usize))
    }
}

// Tile k of a pattern table. A slice: with arrays tile would convert both tables, which is no plainer, and the search does not follow it.
#[tactic(auto, unfolding(model::specs::Address::tile_in))]
fn tile_in(table: &[u8], k: u8) -> &[u8]
    requires { length table.now ≡ pattern_length }
    ensures { result.now ≡ tile_in table.now k }
{
    let at = k as usize * 16;
    &table[at..at + 16]
}

// The part of whichever table holds tile k; an empty part where either table has another length.
#[tactic(auto, unfolding(model::specs::Address::tile_part))]
pub fn tile<'a>(left: &'a [u8], right: &'a [u8], second: bool, k: u8) -> &'a [u8]
    ensures { result.now ≡ tile_part left.now right.now second k }
{
    if left.len() != 4096 || right.len() != 4096 {
        return &[];
    }
    tile_in(if second { right } else { left }, k)
}

// The page of a quarter.
#[tactic(auto, using(crate::proofs::Cases::quarter_part_lem))]
fn quarter_in(board: Board, nametables: &[u8], q: u8) -> &[u8]
    requires { length nametables.now ≡ nametable_length board }
    ensures { result.now ≡ quarter_in board.wiring nametables.now q }
{
    let at = page(board.wiring, q as usize % 4) * 1024;
    &nametables[at..at + 1024]
}

// The part of nametable RAM that quarter q modulo 4 shows; an empty part where nametable RAM has another length than the board's.
#[tactic(auto, unfolding(model::specs::Address::quarter_part))]
pub fn quarter(board: Board, nametables: &[u8], q: u8) -> &[u8]
    ensures { result.now ≡ quarter_part board nametables.now q }
{
    if nametables.len() == nametable_length(board) {
        quarter_in(board, nametables, q)
    } else {
        &[]
    }
}
