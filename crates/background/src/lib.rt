// The background of one line. Inner functions, not public calls: they require nametable RAM as long as its board says, and bounds.
// A line meets 33 tiles, in two strips: from v's column to the end of its nametable, then in the nametable beside. Whole groups of four
// tiles are drawn, nine of them, into a row that is longer than the line.
// tiles: both strips into a row of pixels. background: out of the chosen table, and the row from v's column and fine x on is the line.
#![tactic(auto)]

ghost use Rattle.std.specs.Prelude.{◌≡◌, ◌<◌, length};
ghost use Rattle.model.specs.Unit.{nametable_length, line_length};
ghost use Rattle.model.specs.Address.{table_of};
ghost use Rattle.model.specs.Background.{background_at};
ghost use Rattle.model.specs.Line.{tab};
ghost use Rattle.strips.specs.Strips.{row_length, group_start};

use lent::Tables;
use model::Board;
use strips::{run, strip_at};

// Nine groups out of a pattern table, from that of v's column on: the background as with fine x 0.
fn tiles(board: Board, v: usize, table: &[u8; 4096], nametables: &[u8], row: &mut [u8; 288])
    requires { length nametables.now ≡ nametable_length board }
    ensures { row.new ≡ tab (background_at board.wiring nametables.now table.now (group_start v) 0) row_length }
{
    let group = v >> 2 & 7;
    let quarter = v >> 10 & 3;
    let beside = quarter + 1 - 2 * (quarter & 1);
    let here = strip_at(board, quarter, v);
    let there = strip_at(board, beside, v);
    run(table, nametables, here, group, 8 - group, row, 0);
    run(table, nametables, there, 0, group + 1, row, 8 - group);
}

// The background of a line, column by column as v and fine x scroll it.
#[tactic(auto, using(crate::proofs::Strips::line_is, std::proofs::lemmas::Grind::and_numeral))]
pub fn background(
    board: Board,
    second: bool,
    v: u16,
    x: u8,
    tables: Tables,
    nametables: &[u8],
    line: &mut [u8; 256],
)
    requires { (length nametables.now ≡ nametable_length board) × (v < 32768) × (x < 8) }
    ensures { line.new ≡
        tab (background_at board.wiring nametables.now (table_of second tables.entry.left.now tables.entry.right.now) v x) line_length }
{
    let table = tables.table(second);
    let mut row = [0u8; 288];
    tiles(board, v as usize, table, nametables, &mut row);
    let first = 8 * (v as usize & 3) + x as usize;
    line.copy_from_slice(&row[first..first + 256]);
}
