// The play of a log of accesses on a unit and lent memory, with what the player prints of it. Inner functions, not public calls.
// play_one (one entry and its text), play_next (the next record of a log), play_log (a whole log), whole, play_block (a block of a longer log).
// What is lent stands in each signature by itself: a struct that holds `&mut` cannot be passed on in a proof.
#![tactic(auto)]

ghost use Rattle.std.specs.Prelude.{◌≡◌, cond, ◌++◌, ◌+◌, ◌-◌, ◌*◌, ◌/◌, ◌≤◌, length, take, drop};
ghost use Rattle.model.specs.Unit.{state, line_memory};
ghost use Rattle.model.specs.Log.{records_of, entry_of};
ghost use Rattle.logs.specs.Play.{IsStep, IsPlay, whole_bytes};

use model::{Entry, Ppu};

// A play: the unit after it, how many bytes of the output are written, and whether a refusal 5 has ended it.
#[derive(Clone, Copy)]
pub struct Played {
    pub unit: Ppu,
    pub written: usize,
    pub ended: bool,
}

// The same of a block, and how many bytes of a record that it cuts stand at its front now.
#[derive(Clone, Copy)]
pub struct Block {
    pub played: Played,
    pub kept: usize,
}

// A play that goes on: the same so far, and the place of the next record.
#[derive(Clone, Copy)]
pub struct Going {
    pub played: Played,
    pub at: usize,
}

// An entry played after a play so far: its call, and its text stored in the output behind what is written.
fn play_one(
    e: Entry,
    p: Played,
    out: &mut [u8],
    left: &mut [u8],
    right: &mut [u8],
    nametables: &mut [u8],
    oam: &mut [u8],
    palette: &mut [u8],
    line: &mut [u8],
    colours: &mut [u16],
) -> Played
    requires { p.written + 15 ≤ length out.old }
    ensures { IsStep e (state p.unit (line_memory left.old right.old nametables.old oam.old palette.old line.old colours.old))
        out.old p.written result (line_memory left.new right.new nametables.new oam.new palette.new line.new colours.new) out.new }
{
    let x = calls_play::play_entry(
        e, p.unit, left, right, nametables, oam, palette, line, colours,
    );
    let written = answers::put_text(e, x, out, p.written);
    Played {
        unit: x.unit,
        written,
        ended: x.answer.number == 5,
    }
}

// The record at the place of a play, played.
fn play_next(
    g: Going,
    log: &[u8],
    out: &mut [u8],
    left: &mut [u8],
    right: &mut [u8],
    nametables: &mut [u8],
    oam: &mut [u8],
    palette: &mut [u8],
    line: &mut [u8],
    colours: &mut [u16],
) -> Played
    requires { g.played.written + 15 ≤ length out.old }
    ensures { IsStep (entry_of (records_of (drop g.at log.now))) (state g.played.unit (line_memory left.old right.old nametables.old oam.old palette.old line.old colours.old))
        out.old g.played.written result (line_memory left.new right.new nametables.new oam.new palette.new line.new colours.new) out.new }
{
    let e = reader::read_at(log, g.at).found;
    play_one(
        e, g.played, out, left, right, nametables, oam, palette, line, colours,
    )
}

// A log played into the output, which must have room for the longest line, 15 bytes, of each record.
pub fn play_log(
    u: Ppu,
    log: &[u8],
    out: &mut [u8],
    left: &mut [u8],
    right: &mut [u8],
    nametables: &mut [u8],
    oam: &mut [u8],
    palette: &mut [u8],
    line: &mut [u8],
    colours: &mut [u16],
) -> Played
    requires { 15 * ((length log.now + 3) / 4) ≤ length out.old }
    ensures { IsPlay log.now (state u (line_memory left.old right.old nametables.old oam.old palette.old line.old colours.old))
        out.old result (line_memory left.new right.new nametables.new oam.new palette.new line.new colours.new) out.new }
{
    let mut played = Played {
        unit: u,
        written: 0,
        ended: false,
    };
    for at in (0..log.len()).step_by(4) {
        let g = Going { played, at };
        played = play_next(
            g, log, out, left, right, nametables, oam, palette, line, colours,
        );
        if played.ended {
            break;
        }
    }
    played
}

// How many of the n bytes of a block can be played: whole records, and all where the log ends.
#[tactic(auto, unfolding(crate::specs::Play::whole_bytes))]
fn whole(n: usize, last: bool) -> usize
    ensures { (result ≡ whole_bytes last n) × (result ≤ n) }
{
    if last { n } else { n / 4 * 4 }
}

// A block of a longer log: its first n bytes hold what is left of the block before it and what was read. Whole records are played;
// the bytes of a record that the block cuts are moved to its front, or played as a cut record where the log ends.
pub fn play_block(
    u: Ppu,
    block: &mut [u8],
    n: usize,
    last: bool,
    out: &mut [u8],
    left: &mut [u8],
    right: &mut [u8],
    nametables: &mut [u8],
    oam: &mut [u8],
    palette: &mut [u8],
    line: &mut [u8],
    colours: &mut [u16],
) -> Block
    requires { (n ≤ length block.old) × (15 * ((n + 3) / 4) ≤ length out.old) }
    ensures { IsPlay (take (whole_bytes last n) block.old) (state u (line_memory left.old right.old nametables.old oam.old palette.old line.old colours.old))
        out.old result.played (line_memory left.new right.new nametables.new oam.new palette.new line.new colours.new) out.new
        × (result.kept ≡ n - whole_bytes last n)
        × (block.new ≡ take (n - whole_bytes last n) (drop (whole_bytes last n) block.old) ++ drop (n - whole_bytes last n) block.old) }
{
    let used = whole(n, last);
    let played = play_log(
        u,
        &block[..used],
        out,
        left,
        right,
        nametables,
        oam,
        palette,
        line,
        colours,
    );
    block.copy_within(used..n, 0);
    Block {
        played,
        kept: n - used,
    }
}
