// Strips: rows of tiles in one page of nametable RAM. Inner functions, not public calls: they require bounds.
// Four tiles share an attribute byte, so whole groups of four are drawn.
// strip_at: what is the same for all tiles of a strip. Source: a strip with what it is drawn from.
// Its palette_at, put_column, put_pair, put_group, and run: one tile, two, four, n groups.
#![tactic(auto)]

ghost use Rattle.std.specs.Prelude.{◌≡◌, ◌+◌, ◌*◌, ◌%◌, ◌<◌, ◌≤◌, length};
ghost use Rattle.model.specs.Unit.{nametable_length};
ghost use Rattle.pixels.specs.Row.{store_tab};
ghost use Rattle.strips.specs.Strips.{row_length, strip_of, Within, palette_of, strip_pixel};

use bits::field;
use model::Board;
use pixels::put_tile;

// A row of tiles in one page of nametable RAM.
#[derive(Clone, Copy)]
pub struct Strip {
    // where its tile numbers begin, and where its attribute bytes
    pub tiles: usize,
    pub attributes: usize,
    // the shift to the attribute bits of the upper or lower quadrants: 0 or 4
    pub quadrant: usize,
    // fine y
    pub fine: usize,
}

// v's row of tiles in the page of a quarter.
pub fn strip_at(board: Board, quarter: usize, v: usize) -> Strip
    requires { quarter < 4 }
    ensures { (result ≡ strip_of board.wiring quarter v) × Within result (nametable_length board) }
{
    let base = 1024 * address::page(board.wiring, quarter);
    let row = v >> 5 & 31;
    Strip {
        tiles: base + 32 * row,
        attributes: base + 960 + 8 * (row >> 2),
        quadrant: 4 * (row >> 1 & 1),
        fine: v >> 12 & 7,
    }
}

// A strip with what it is drawn from: a pattern table and nametable RAM.
#[derive(Clone, Copy)]
struct Source<'a> {
    table: &'a [u8; 4096],
    nametables: &'a [u8],
    strip: Strip,
    ghost within: { Within strip (length nametables.now) },
}

impl Source<'_> {
    // The palette of the tile in a column: two bits of its attribute byte.
    #[tactic(auto, using(crate::proofs::Cases::palette_1, std::proofs::lemmas::Grind::and_numeral))]
    fn palette_at(self, column: usize) -> u8
        requires { column < 32 }
        ensures { (result ≡ palette_of self.entry.nametables.now self.entry.strip column) × (result < 4) }
    {
        let attribute = self.nametables[self.strip.attributes + (column >> 2)]
            >> self.strip.quadrant;
        field(attribute, 2 * (column >> 1 & 1), 2)
    }

    // Eight pixels of the tile in a column.
    fn put_column(self, column: usize, palette: u8, row: &mut [u8; 288], at: usize)
        requires { (column < 32) × (palette ≡ palette_of self.nametables.now self.strip column) × (palette < 4) × (at + 8 ≤ row_length) }
        ensures { row.new ≡ store_tab (strip_pixel self.entry.table.now self.entry.nametables.now self.entry.strip column) at 8 row.old }
    {
        let tile = self.nametables[self.strip.tiles + column] as usize;
        let byte = 16 * tile + self.strip.fine;
        put_tile(row, at, self.table[byte], self.table[byte + 8], palette);
    }

    // Two tiles that share a palette.
    #[tactic(auto, using(crate::proofs::Cases::pair_cases))]
    fn put_pair(self, column: usize, palette: u8, row: &mut [u8; 288], at: usize)
        requires { (column < 32) × (column % 2 ≡ 0) × (palette ≡ palette_of self.nametables.now self.strip column) × (palette < 4)
            × (at + 16 ≤ row_length) }
        ensures { row.new ≡ store_tab (strip_pixel self.entry.table.now self.entry.nametables.now self.entry.strip column) at 16 row.old }
    {
        self.put_column(column, palette, row, at);
        self.put_column(column + 1, palette, row, at + 8);
    }

    // Four tiles that share an attribute byte. Both palettes are taken before a store, so that the byte is loaded once.
    #[tactic(auto, using(crate::proofs::Cases::group_1))]
    fn put_group(self, group: usize, row: &mut [u8; 288], at: usize)
        requires { (group < 8) × (at + 32 ≤ row_length) }
        ensures { row.new ≡ store_tab (strip_pixel self.entry.table.now self.entry.nametables.now self.entry.strip (4 * group)) at 32 row.old }
    {
        let column = 4 * group;
        let left = self.palette_at(column);
        let right = self.palette_at(column + 2);
        self.put_pair(column, left, row, at);
        self.put_pair(column + 2, right, row, at + 16);
    }
}

// n groups from a group on, put into the row from its group at on.
#[tactic(auto, using(crate::proofs::Cases::run_cases))]
pub fn run(
    table: &[u8; 4096],
    nametables: &[u8],
    s: Strip,
    group: usize,
    n: usize,
    row: &mut [u8; 288],
    at: usize,
)
    requires { Within s (length nametables.now) × (group + n ≤ 8) × (at + n ≤ 9) }
    ensures { row.new ≡ store_tab (strip_pixel table.now nametables.now s (4 * group)) (32 * at) (32 * n) row.old }
{
    let source = Source {
        table,
        nametables,
        strip: s,
    };
    for t in 0..n {
        source.put_group(group + t, row, 32 * (at + t));
    }
}
