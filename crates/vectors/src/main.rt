// Runs the checked values through the public calls and prints one line each.
// Calls: warmed; Lent (the memory that they are lent): new, read_with, read, write, run. What they show: place, cell, drew, opaque_column, ran, stepped, lowered,
// shown, looked, overflow, search_with, number. Lines: say, say_hex.
// One function a group of values: cells, palette_cells, scrolling, stepping, rows, status, runs, colours, searches, refusals,
// records, tiles.
#![tactic(auto)]

ghost use Rattle.std.specs.Prelude.{◌<◌, ◌≤◌};

use model::{Access, Ppu};
use std::io;

// A unit of this board that is warmed up.
fn warmed(board: u8) -> Ppu {
    let mut u = ppu::fresh(board).unit;
    u.warm = true;
    u
}

// The memory that a call is lent, all zero at first, with N bytes of nametable RAM.
#[derive(Drop)]
struct Lent<const N: usize> {
    left: [u8; 4096],
    right: [u8; 4096],
    nametables: [u8; N],
    oam: [u8; 256],
    palette: [u8; 32],
    line: [u8; 256],
    colours: [u16; 256],
}

impl<const N: usize> Lent<N> {
    fn new() -> Self {
        Lent {
            left: [0; 4096],
            right: [0; 4096],
            nametables: [0; N],
            oam: [0; 256],
            palette: [0; 32],
            line: [0; 256],
            colours: [0; 256],
        }
    }

    // A read with this OAM.
    fn read_with(&self, u: Ppu, address: u16, oam: &[u8]) -> Access {
        ppu::read(
            u,
            address,
            &self.left,
            &self.right,
            &self.nametables,
            oam,
            &self.palette,
        )
    }

    fn read(&self, u: Ppu, address: u16) -> Access {
        self.read_with(u, address, &self.oam)
    }

    fn write(&mut self, u: Ppu, address: u16, byte: u8) -> Access {
        ppu::write(
            u,
            address,
            byte,
            &mut self.left,
            &mut self.right,
            &mut self.nametables,
            &mut self.oam,
            &mut self.palette,
        )
    }

    fn run(&mut self, u: Ppu, lines: u16, reason: u8) -> Access {
        ppu::run(
            u,
            lines,
            reason,
            &self.left,
            &self.right,
            &self.nametables,
            &self.oam,
            &self.palette,
            &mut self.line,
            &mut self.colours,
        )
    }
}

// Where a byte stands first, or the length where it does not.
fn place(s: &[u8], byte: u8) -> usize {
    s.iter().position(|b| *b == byte).unwrap_or(s.len())
}

// The cell that a write of port 7 stores in, for a board, v and N bytes of nametable RAM: of the palette from $3F00, else of nametable RAM.
fn cell<const N: usize>(board: u8, v: u16) -> u64
    requires { N ≤ 4096 }
{
    let mut u = warmed(board);
    u.v = v;
    let mut m = Lent::<N>::new();
    m.write(u, 0x2007, 42);
    if v < 0x3F00 {
        place(&m.nametables, 42) as u64
    } else {
        place(&m.palette, 42) as u64
    }
}

// Memory after a line whose only opaque tile stands at this cell, and the unit.
fn drew(u: Ppu, cell: usize) -> (Lent<2048>, Ppu)
    requires { cell < 2048 }
{
    let mut m = Lent::new();
    m.nametables[cell] = 1;
    m.left[16] = 255;
    let after = m.run(u, 1, 0).unit;
    (m, after)
}

// The first column of a line, drawn with the background from v on under wiring 1, that shows the tile at this cell.
fn opaque_column(v: u16, cell: usize) -> u64
    requires { cell < 2048 }
{
    let mut u = warmed(1);
    u.v = v;
    u.mask = 10;
    place(&drew(u, cell).0.line, 1) as u64
}

// The lines that a run of at most 262 runs from this line, with control bit 7 set.
fn ran(scanline: u16) -> u64 {
    let mut u = warmed(0);
    u.control = 128;
    u.scanline = scanline;
    Lent::<2048>::new().run(u, 262, 1).answer.lines as u64
}

fn number(a: Access) -> u64 {
    a.answer.number as u64
}

// A line: what a value is, and the value.
fn say(rt: &impl Print, what: &str, value: u64) -> io::Result<()> {
    println!(rt; "{what}{value}")
}

// The same in hex.
fn say_hex(rt: &impl Print, what: &str, value: u64) -> io::Result<()> {
    println!(rt; "{what}{value:02x}")
}

fn cells(rt: &impl Print) -> io::Result<()> {
    say(rt, "$2C05, wiring 0: cell ", cell::<2048>(0, 0x2C05))?;
    say(rt, "$2C05, wiring 1: cell ", cell::<2048>(1, 0x2C05))?;
    say(rt, "$2C05, wiring 3: cell ", cell::<2048>(3, 0x2C05))?;
    say(rt, "$2C05, wiring 2: cell ", cell::<2048>(2, 0x2C05))?;
    say(rt, "$2405, wiring 0: cell ", cell::<2048>(0, 0x2405))?;
    say(rt, "$2405, wiring 1: cell ", cell::<2048>(1, 0x2405))?;
    say(rt, "$3EFF, wiring 0: cell ", cell::<2048>(0, 0x3EFF))?;
    say(rt, "$2000, wiring 4: cell ", cell::<4096>(4, 0x2000))?;
    say(rt, "$2400, wiring 4: cell ", cell::<4096>(4, 0x2400))?;
    say(rt, "$2800, wiring 4: cell ", cell::<4096>(4, 0x2800))?;
    say(rt, "$2C05, wiring 4: cell ", cell::<4096>(4, 0x2C05))?;
    say(rt, "$2FFF, wiring 4: cell ", cell::<4096>(4, 0x2FFF))?;
    say(rt, "$3EFF, wiring 4: cell ", cell::<4096>(4, 0x3EFF))
}

fn palette_cells(rt: &impl Print) -> io::Result<()> {
    say(rt, "$3F10: palette ", cell::<2048>(0, 0x3F10))?;
    say(rt, "$3F14: palette ", cell::<2048>(0, 0x3F14))?;
    say(rt, "$3F11: palette ", cell::<2048>(0, 0x3F11))?;
    say(rt, "$3FFF: palette ", cell::<2048>(0, 0x3FFF))
}

fn scrolling(rt: &impl Print) -> io::Result<()> {
    let mut m = Lent::<2048>::new();
    let first = m.write(warmed(0), 0x2005, 125).unit;
    let second = m.write(first, 0x2005, 94).unit;
    say(rt, "port 5 with 125, 94: t ", second.t as u64)?;
    say(rt, "port 5 with 125, 94: x ", second.x as u64)?;
    let third = m.write(second, 0x2006, 0x3D).unit;
    let fourth = m.write(third, 0x2006, 0xF0).unit;
    say(rt, "then port 6 with $3D, $F0: v ", fourth.v as u64)
}

// v after a read of port 7, with this control.
fn stepped(control: u8) -> u64 {
    let mut u = warmed(0);
    u.control = control;
    u.v = 32767;
    Lent::<2048>::new().read(u, 0x2007).unit.v as u64
}

fn stepping(rt: &impl Print) -> io::Result<()> {
    say(rt, "v 32767 + 1: ", stepped(0))?;
    say(rt, "v 32767 + 32: ", stepped(4))
}

// v after line 0 with the background on, t being 0.
fn lowered(v: u16) -> u64 {
    let mut u = warmed(0);
    u.v = v;
    u.mask = 8;
    drew(u, 0).1.v as u64
}

fn rows(rt: &impl Print) -> io::Result<()> {
    say(rt, "row down 29600: ", lowered(29600))?;
    say(rt, "row down 29664: ", lowered(29664))?;
    say(rt, "row down 29568: ", lowered(29568))?;
    say(
        rt,
        "v 31: cell 1024 is seen from column ",
        opaque_column(31, 1024),
    )
}

fn status(rt: &impl Print) -> io::Result<()> {
    let mut u = warmed(0);
    u.status = 0x80;
    u.latch = 0x35;
    let m = Lent::<2048>::new();
    let first = m.read(u, 0x2002);
    say_hex(
        rt,
        "status $80, latch $35: read 2 gives $",
        first.answer.byte as u64,
    )?;
    let second = m.read(first.unit, 0x2002);
    say_hex(rt, "then $", second.answer.byte as u64)
}

fn runs(rt: &impl Print) -> io::Result<()> {
    say(rt, "run of 262 from 241: lines ", ran(241))?;
    say(rt, "run of 262 from 242: lines ", ran(242))?;
    say(rt, "run of 262 from 0: lines ", ran(0))
}

// The colour in the last column of a line with this mask and v, drawn or off. Its background is of pixel number 1; cell 0 of the palette holds
// $0F, cell 1 $D6, cell 4 $2A.
fn shown(mask: u8, v: u16) -> u64 {
    let mut u = warmed(0);
    u.mask = mask;
    u.v = v;
    let mut m = Lent::<2048>::new();
    m.left[0] = 255;
    m.palette[0] = 0x0F;
    m.palette[1] = 0xD6;
    m.palette[4] = 0x2A;
    m.run(u, 1, 0);
    m.colours[255] as u64
}

fn colours(rt: &impl Print) -> io::Result<()> {
    say(rt, "$D6 is shown as colour ", shown(0x1E, 0))?;
    say(rt, "in greyscale ", shown(0x1F, 0))?;
    say(rt, "with red ", shown(0x3E, 0))?;
    say(rt, "with green ", shown(0x5E, 0))?;
    say(rt, "with blue ", shown(0x9E, 0))?;
    say(rt, "with all three, in greyscale ", shown(0xFF, 0))?;
    say(rt, "off, v $3EFF: colour ", shown(0, 0x3EFF))?;
    say(rt, "off, v $3F01: colour ", shown(0, 0x3F01))?;
    say(rt, "off, v $3F14: colour ", shown(0, 0x3F14))?;
    say(rt, "off, v $7F01: colour ", shown(0, 0x7F01))?;
    say(rt, "off, mask $A1, v $3F01: colour ", shown(0xA1, 0x3F01))
}

// The sprites that the search on line 20 looks at.
fn looked(oam: &[u8; 256]) -> u64 {
    ppu::search(warmed(0), 20, oam).answer.looked as u64
}

// Status bit 5 after line 20 was drawn.
fn overflow(oam: &[u8; 256]) -> u64 {
    let mut u = warmed(0);
    u.mask = 0x18;
    u.scanline = 20;
    let mut m = Lent::<2048>::new();
    m.oam = *oam;
    (m.run(u, 1, 0).unit.status / 32) as u64
}

// Eight sprites from this place of OAM on and one byte more are in range of line 20, all others are not.
fn search_with(rt: &impl Print, what: &str, from: usize, more: usize) -> io::Result<()>
    requires { (from ≤ 224) × (more < 256) }
{
    let mut oam = [255u8; 256];
    for sprite in 0..8 {
        oam[from + 4 * sprite] = 20;
    }
    oam[more] = 20;
    say(rt, what, looked(&oam))?;
    say(rt, "status bit 5: ", overflow(&oam))
}

fn searches(rt: &impl Print) -> io::Result<()> {
    search_with(rt, "sprites 0 to 8 in range: looked at ", 0, 32)?;
    search_with(rt, "sprites 0 to 7 and 9: looked at ", 0, 36)?;
    search_with(rt, "sprites 0 to 7, tile byte of 9: looked at ", 0, 37)?;
    search_with(rt, "sprites 56 to 63: looked at ", 224, 224)?;
    search_with(rt, "sprites 0 to 7, X byte of 63: looked at ", 0, 255)
}

fn refusals(rt: &impl Print) -> io::Result<()> {
    let u = warmed(0);
    let m = Lent::<2048>::new();
    let oam = [0u8; 257];
    say(rt, "$1FFF: ", number(m.read(u, 0x1FFF)))?;
    say(rt, "$4000: ", number(m.read(u, 0x4000)))?;
    say(rt, "$3FFF: ", number(m.read(u, 0x3FFF)))?;
    say(
        rt,
        "255 bytes of OAM: ",
        number(m.read_with(u, 0x2002, &oam[..255])),
    )?;
    say(
        rt,
        "257 bytes of OAM: ",
        number(m.read_with(u, 0x2002, &oam)),
    )?;
    let mut late = u;
    late.scanline = 262;
    say(rt, "next line 262: ", number(m.read(late, 0x2002)))?;
    say(
        rt,
        "next line 262, 257 bytes of OAM: ",
        number(m.read_with(late, 0x2002, &oam)),
    )?;
    let pages = Lent::<4096>::new();
    say(rt, "wiring 0, 4096 bytes: ", number(pages.read(u, 0x2002)))?;
    say(
        rt,
        "wiring 4, 2048 bytes: ",
        number(m.read(warmed(4), 0x2002)),
    )?;
    say(
        rt,
        "wiring 4, 4096 bytes: ",
        number(pages.read(warmed(4), 0x2002)),
    )?;
    say(
        rt,
        "a search on line 240: ",
        number(ppu::search(late, 240, &oam)),
    )?;
    say(
        rt,
        "a search on line 239: ",
        number(ppu::search(u, 239, &oam[..256])),
    )
}

// A unit saved and loaded again, and records that are refused.
fn records(rt: &impl Print) -> io::Result<()> {
    let mut u = warmed(9);
    u.v = 15856;
    let mut bytes = [0u8; 16];
    say(rt, "a unit saved: ", number(ppu::save(u, &mut bytes)))?;
    say(rt, "loaded again: v ", ppu::load(&bytes).unit.v as u64)?;
    let short = [0u8; 15];
    say(rt, "15 bytes of a record: ", number(ppu::load(&short)))?;
    say(rt, "board byte 4: ", number(ppu::fresh(4)))?;
    say(rt, "board byte 5: ", number(ppu::fresh(5)))?;
    say(rt, "board byte 12: ", number(ppu::fresh(12)))?;
    say(rt, "board byte 13: ", number(ppu::fresh(13)))
}

// Where byte 42 stands in a tile, by its table, and a part where a table is too short.
fn tiles(rt: &impl Print) -> io::Result<()> {
    let left = [0u8; 4096];
    let mut right = [0u8; 4096];
    right[4083] = 42;
    let part = ppu::tile(&left, &right, true, 255);
    say(
        rt,
        "tile 255 of the right table: 42 at ",
        place(part, 42) as u64,
    )?;
    let none = ppu::tile(&left[..4095], &right, true, 255);
    say(rt, "with a short table, bytes: ", none.len() as u64)
}

fn main(rt: HostRuntime) -> io::Result<()> {
    cells(&rt)?;
    palette_cells(&rt)?;
    scrolling(&rt)?;
    stepping(&rt)?;
    rows(&rt)?;
    status(&rt)?;
    runs(&rt)?;
    colours(&rt)?;
    searches(&rt)?;
    refusals(&rt)?;
    records(&rt)?;
    tiles(&rt)
}
