// The memory that a call is lent to read, its lengths known. Inner types, not public calls.
// Tables: both pattern tables, and table, one of them. Lent: what an access and a line read; new, of slices with the right lengths.
#![tactic(auto)]

ghost use Rattle.std.specs.Prelude.{◌≡◌, true, false, length, MatchOption};
ghost use Rattle.model.specs.Unit.{access_cells};
ghost use Rattle.model.specs.Address.{table_of};
ghost use Rattle.model.specs.Calls.{access_sizes};
ghost use Rattle.lent.specs.Cells.{cells_of};

use model::Board;

// Both pattern tables.
#[derive(Clone, Copy)]
pub struct Tables<'a> {
    pub left: &'a [u8; 4096],
    pub right: &'a [u8; 4096],
}

impl<'a> Tables<'a> {
    // The right table, or the left one.
    pub fn table(self, second: bool) -> &'a [u8; 4096]
        ensures { result.now ≡ table_of second self.entry.left.now self.entry.right.now }
    {
        if second { self.right } else { self.left }
    }
}

// What an access and a line read. Nametable RAM is as long as the unit's board says: that is a clause of who takes a Lent, since a board in here
// would leave the clause that it is the unit's.
#[derive(Clone, Copy)]
pub struct Lent<'a> {
    pub tables: Tables<'a>,
    pub nametables: &'a [u8],
    pub oam: &'a [u8; 256],
    pub palette: &'a [u8; 32],
}

impl<'a> Lent<'a> {
    // The memory lent in slices, where each has its length, nametable RAM that of the board.
    pub fn new(
        board: Board,
        left: &'a [u8],
        right: &'a [u8],
        nametables: &'a [u8],
        oam: &'a [u8],
        palette: &'a [u8],
    ) -> Option<Lent<'a>>
        ensures { MatchOption result
            (access_sizes board (length left.now) (length right.now) (length nametables.now) (length oam.now) (length palette.now) ≡ false)
            (λ m. (access_sizes board (length left.now) (length right.now) (length nametables.now) (length oam.now) (length palette.now) ≡ true)
            × (cells_of m ≡ access_cells left.now right.now nametables.now oam.now palette.now)) }
    {
        if nametables.len() != address::nametable_length(board) {
            return None;
        }
        let tables = Tables {
            left: left.as_array()?,
            right: right.as_array()?,
        };
        Some(Lent {
            tables,
            nametables,
            oam: oam.as_array()?,
            palette: palette.as_array()?,
        })
    }
}
