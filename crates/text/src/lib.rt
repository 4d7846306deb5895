// The text of a screen, a layer of its own above the library: document 02, request 10. A nametable page and a table that gives each tile a
// character, to 30 rows of 32 bytes; and rows and table to a page. No call has a `requires`: 2 for a length, then, to a page, 8 for a character.
// Rows: look_up, space, put_spaces, put_rows. A page: inverse, put_tiles. Both: refused, pack.
// Public: text, page, and quarter from below; for C: ppu_text, ppu_page.
#![tactic(auto)]

ghost use Rattle.std.specs.Prelude.{◌≡◌, cond, eqb, MatchOption, IsTrue, true, false};
ghost use Rattle.model.specs.Calls.{refusal_number};
ghost use Rattle.model.specs.Line.{tab, any_of};
ghost use Rattle.model.specs.Sprites.{count_of};
ghost use Rattle.model.specs.Text.{
  rows_length,
  rows_of,
  bare_count,
  written,
  text_call,
  page_call,
  packed_text,
  written_for_c,
  exported_text,
};
ghost use Rattle.text.specs.Passes.{table_byte, is_zero, spaced, tile_for, tile_byte, no_tile};

pub use address::quarter;
use model::{Refusal, TextAnswer};

// The table's byte for each tile byte of a page.
fn look_up(page: &[u8; 1024], table: &[u8; 256], rows: &mut [u8; 960])
    ensures { rows.new ≡ tab (table_byte table.now page.now) rows_length }
{
    for (k, row) in rows.iter_mut().enumerate() {
        *row = table[usize::from(page[k])];
    }
}

// Byte 0 becomes a space.
fn space(b: u8) -> u8
    ensures { result ≡ cond (eqb b 0) 32 b }
{
    if b == 0 { 32 } else { b }
}

// Spaces for the bytes that are 0, and how many. A pass of its own, since the compiler makes vectors of it and cannot of look_up.
fn put_spaces(rows: &mut [u8; 960]) -> u16
    ensures rows { rows.new ≡ tab (spaced rows.old) rows_length }
    ensures count { result ≡ count_of (is_zero rows.old) rows_length }
{
    let mut n = 0;
    for b in rows {
        n += u16::from(*b == 0);
        *b = space(*b);
    }
    n
}

// The rows of a page, and how many of its tiles have no character.
fn put_rows(page: &[u8; 1024], table: &[u8; 256], rows: &mut [u8; 960]) -> u16
    ensures rows { rows.new ≡ rows_of table.now page.now }
    ensures count { result ≡ bare_count table.now page.now }
{
    look_up(page, table, rows);
    put_spaces(rows)
}

// A refused call counts nothing.
fn refused(r: Refusal) -> TextAnswer
    ensures { result ≡ record { number = refusal_number r; count = 0 } }
{
    TextAnswer {
        number: r as u8,
        count: 0,
    }
}

// The text of a page.
pub fn text(page: &[u8], table: &[u8], rows: &mut [u8]) -> TextAnswer
    ensures { written result rows.new ≡ text_call page.now table.now rows.old }
{
    let Some(page) = page.as_array() else {
        return refused(Refusal::Length);
    };
    let Some(table) = table.as_array() else {
        return refused(Refusal::Length);
    };
    let Some(rows) = rows.as_mut_array() else {
        return refused(Refusal::Length);
    };
    let count = put_rows(page, table, rows);
    TextAnswer { number: 0, count }
}

// The lowest tile with each character; 256 for one that is byte 0 or isn't in the table. From the last tile down, so that the lowest stays.
fn inverse(table: &[u8; 256]) -> [u16; 256]
    ensures { result ≡ tab (tile_for table.now) 256 }
{
    let mut tiles = [256u16; 256];
    for i in (0..256).rev() {
        tiles[usize::from(table[i])] = i as u16;
    }
    tiles[0] = 256;
    tiles
}

// The tile byte of each character, and whether one has none. A buffer with a flag: an Option of the bytes takes 976 bytes more of stack, above the
// bound of tests/callers/stack.c.
fn put_tiles(tiles: &[u16; 256], rows: &[u8; 960], made: &mut [u8; 960]) -> bool
    ensures { (made.new ≡ tab (tile_byte tiles.now rows.now) rows_length)
        × (result ≡ any_of (no_tile tiles.now rows.now) rows_length) }
{
    let mut most = 0u16;
    for (k, c) in rows.iter().enumerate() {
        let tile = tiles[usize::from(*c)];
        made[k] = (tile % 256) as u8;
        most = most.max(tile);
    }
    256 <= most
}

// The page of rows. Its tile bytes are made aside, since a refused call leaves the page.
pub fn page(rows: &[u8], table: &[u8], page: &mut [u8]) -> TextAnswer
    ensures { written result page.new ≡ page_call rows.now table.now page.old }
{
    let Some(rows) = rows.as_array() else {
        return refused(Refusal::Length);
    };
    let Some(table) = table.as_array() else {
        return refused(Refusal::Length);
    };
    if page.len() != 1024 {
        return refused(Refusal::Length);
    }
    let mut made = [0; 960];
    if put_tiles(&inverse(table), rows, &mut made) {
        return refused(Refusal::Character);
    }
    page[..960].copy_from_slice(&made);
    TextAnswer {
        number: 0,
        count: 0,
    }
}

// Bits 0-7 number, 32-63 count.
fn pack(a: TextAnswer) -> u64
    ensures { result ≡ packed_text a }
{
    a.number as u64 + a.count as u64 * 4294967296
}

// For C: the text of a page.
pub fn ppu_text(page: &[u8], table: &[u8], rows: &mut [u8]) -> u64
    ensures { written_for_c result rows.new ≡ exported_text (text_call page.now table.now rows.old) }
{
    pack(text(page, table, rows))
}

// For C: the page of rows.
pub fn ppu_page(rows: &[u8], table: &[u8], page: &mut [u8]) -> u64
    ensures { written_for_c result page.new ≡ exported_text (page_call rows.now table.now page.old) }
{
    pack(self::page(rows, table, page))
}
