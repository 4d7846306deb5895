// Finished colours: the pixel numbers of a line as colours, into the bytes that C lends. Inner functions, not public calls.
// One colour: colour, raised, backdrop_cell. A drawn line: show; in a run: run_table once, then look_up. A line that is off: backdrop.
#![tactic(auto)]

ghost use Rattle.std.specs.Prelude.{◌≡◌, ℕ, ◌+◌, ◌*◌, ◌/◌, ◌%◌, ◌<◌, get_or, false};
ghost use Rattle.model.specs.Unit.{is_rendering};
ghost use Rattle.model.specs.Ports.{greyed};
ghost use Rattle.model.specs.Line.{tab};
ghost use Rattle.model.specs.Colours.{shown_cell, colour_at, numbers_of};
ghost use Rattle.memory_pairs.specs.Pairs.{always};
ghost use Rattle.draw_colours.specs.Table.{shown, Table, Shades, RunShades, Pixels, from_table, stored_two};

use model::Ppu;

// A palette byte as the mask shows it: six bits, greyed by mask bit 0, and the emphasis above them.
fn colour(mask: u8, byte: u8) -> u16
    ensures { result ≡ greyed mask (byte % 64) + 64 * (mask / 32 % 8) }
{
    let six = (byte & 63) as u16;
    let top = (mask >> 5) as u16 * 64;
    if bits::bit(mask, 0) {
        (six & 48) + top
    } else {
        six + top
    }
}

// A colour in the upper half of a word.
fn raised(n: u16) -> u32
    ensures { result ≡ n * 65536 }
{
    n as u32 * 65536
}

// The palette cell of a line that is off: cell 0, or with backdrop override the one at v.
#[tactic(auto, unfolding(model::specs::Colours::shown_cell, model::specs::Colours::is_overridden))]
fn backdrop_cell(u: Ppu) -> usize
    requires { is_rendering u ≡ false }
    ensures { (result ≡ shown_cell u 0) × (result < 32) }
{
    let a = u.v & 16383;
    if a < 16128 {
        0
    } else {
        address::palette_cell(a as usize)
    }
}

// The table of a drawn line: the colours of pixel numbers 0 to 31, each in the upper half of a word.
#[tactic(auto, unfolding(crate::specs::Table::raised_shade, crate::specs::Table::shade))]
fn fill_table(mask: u8, palette: &[u8; 32]) -> [u32; 32]
    ensures { Shades mask palette.now result }
{
    let mut table = [0; 32];
    for n in 0..32 {
        table[n] = raised(colour(mask, palette[n]));
    }
    table
}

// The table of a run's drawn lines, if it has any.
#[tactic(auto, using(crate::proofs::Cases::run_cases))]
pub fn run_table(u: Ppu, palette: &[u8; 32]) -> [u32; 32]
    ensures { RunShades u palette.now result }
{
    if unit::rendering(u) {
        fill_table(u.mask, palette)
    } else {
        [0; 32]
    }
}

// The colours of columns 2i and 2i + 1 in one word. The compiler does not see that the halves do not meet, and stores the word whole.
#[tactic(auto, using(crate::proofs::Cases::pair_cases), unfolding(crate::specs::Table::from_table))]
fn pair(table: &[u32; 32], line: &[u8; 256], i: usize) -> u32
    requires { Table table.now × Pixels line.now × (i < 128) }
    ensures { (result ≡ from_table table.now line.now (2 * i) + from_table table.now line.now (2 * i + 1) * 65536)
        × (from_table table.now line.now (2 * i) < 65536) }
{
    (table[line[2 * i] as usize] >> 16) + table[line[2 * i + 1] as usize]
}

// The two colours of a word, into columns 2i and 2i + 1.
#[tactic(auto, unfolding(crate::specs::Table::stored_two))]
fn store_two(colours: &mut [u8; 512], i: usize, n: u32)
    requires { i < 128 }
    ensures { colours.new ≡ stored_two colours.old i n }
{
    memory_pairs::store(colours, 2 * i, (n & 65535) as u16);
    memory_pairs::store(colours, 2 * i + 1, (n >> 16) as u16);
}

// A drawn line's colours, two at a time.
#[tactic(auto, using(crate::proofs::Cases::look_cases))]
pub fn look_up(table: &[u32; 32], line: &[u8; 256], colours: &mut [u8; 512])
    requires { Table table.now × Pixels line.now }
    ensures { numbers_of colours.new ≡ tab (from_table table.now line.now) 256 }
{
    for i in 0..128 {
        store_two(colours, i, pair(table, line, i));
    }
}

// The same for one line, with a table of its own.
pub fn show(mask: u8, palette: &[u8; 32], line: &[u8; 256], colours: &mut [u8; 512])
    requires { Pixels line.now }
    ensures { numbers_of colours.new ≡ tab (shown mask palette.now line.now) 256 }
{
    look_up(&fill_table(mask, palette), line, colours);
}

// The colours of a line that is off: one.
#[tactic(auto, using(crate::proofs::Cases::backdrop_is))]
pub fn backdrop(u: Ppu, palette: &[u8; 32], colours: &mut [u8; 512])
    requires { is_rendering u ≡ false }
    ensures { numbers_of colours.new ≡ tab (always (colour_at u palette.now 0)) 256 }
{
    memory_pairs::put_same(colour(u.mask, palette[backdrop_cell(u)]), colours);
}
