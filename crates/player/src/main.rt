// Plays a log of accesses from standard input and prints what its records come to, in constant memory, from a fresh
// unit of board 9 and memory that is all zero. The work is done by the crate logs; here are the reads and writes.
// goes_on, read_more, play_read, turn: one block. play_input: block after block. main: the memory, which Machine owns.
#![tactic(auto)]

ghost use Rattle.std.specs.Prelude.{◌≡◌, ◌+◌, ◌<◌, ◌≤◌, length, take};
ghost use Rattle.model.specs.Unit.{state};
ghost use Rattle.model.specs.Log.{start_state};
ghost use Rattle.player.specs.Turns.{goes_on, memory_of, IsBlockTurn, IsTurn, IsInput};

use model::Ppu;
use std::io::{Read, Stdin, Stdout, Write};

// The unit after a block, how many bytes are kept of a record that the block cut, and whether to go on.
#[derive(Clone, Copy)]
struct Progress {
    unit: Ppu,
    kept: usize,
    going: bool,
}

// A block of the log, what its play prints, and the memory that is lent.
#[derive(Drop)]
struct Machine {
    block: [u8; 16384],
    out: [u8; 65536],
    left: [u8; 4096],
    right: [u8; 4096],
    nametables: [u8; 2048],
    oam: [u8; 256],
    palette: [u8; 32],
    line: [u8; 256],
    colours: [u16; 256],
}

// Whether to read on: something was read, no refusal 5 has ended the play, and what it printed could be written.
#[tactic(auto, unfolding(crate::specs::Turns::goes_on))]
fn goes_on(more: usize, is_written: bool, ended: bool) -> bool
    ensures { result ≡ goes_on more is_written ended }
{
    more != 0 && !ended && is_written
}

// Reads once, behind the bytes that are kept; how many bytes came, 0 at the end of the input and where it cannot be read.
fn read_more(mut stdin: Stdin, block: &mut [u8], kept: usize) -> usize
    requires { kept ≤ length block.old }
    ensures { (kept + result ≤ length block.old) × (take kept block.new ≡ take kept block.old) }
{
    match stdin.read(&mut block[kept..]) {
        Ok(more) => more,
        Err(_) => 0,
    }
}

// Plays a block in which so many bytes were read behind those that are kept, and writes what that prints.
fn play_read(mut stdout: Stdout, u: Ppu, kept: usize, more: usize, m: &mut Machine) -> Progress
    requires { kept + more ≤ 16384 }
    ensures { IsBlockTurn kept more m.old.block (state u (memory_of m.old)) m.old.out result (memory_of m.new) m.new.out m.new.block }
{
    let b = logs::play_block(
        u,
        &mut m.block,
        kept + more,
        more == 0,
        &mut m.out,
        &mut m.left,
        &mut m.right,
        &mut m.nametables,
        &mut m.oam,
        &mut m.palette,
        &mut m.line,
        &mut m.colours,
    );
    let is_written = stdout.write_all(&m.out[..b.played.written]).is_ok();
    let going = goes_on(more, is_written, b.played.ended);
    Progress {
        unit: b.played.unit,
        kept: b.kept,
        going,
    }
}

// Reads, plays what is there and writes what that prints.
fn turn(stdin: Stdin, stdout: Stdout, p: Progress, m: &mut Machine) -> Progress
    requires { p.kept < 4 }
    ensures { IsTurn p m.old.block (memory_of m.old) m.old.out result (memory_of m.new) m.new.out m.new.block }
{
    let more = read_more(stdin, &mut m.block, p.kept);
    play_read(stdout, p.unit, p.kept, more, m)
}

// Plays standard input, from the state in which the player begins. A proved loop has to end, and nothing says that the input does: so it goes
// on for a number of turns that no run uses up.
fn play_input(stdin: Stdin, stdout: Stdout, u: Ppu, m: &mut Machine)
    requires { state u (memory_of m.old) ≡ start_state }
    ensures { IsInput u (memory_of m.old) m.old.out m.old.block (memory_of m.new) m.new.out m.new.block }
{
    let mut p = Progress {
        unit: u,
        kept: 0,
        going: true,
    };
    for _turn in 0..u64::MAX {
        p = turn(stdin, stdout, p, m);
        // by name, so that goals keep theirs where another_turn_after_the_last.edit has `true`
        let going = p.going;
        if !going {
            return;
        }
    }
}

fn main(rt: HostRuntime) {
    let mut m = Machine {
        block: [0; 16384],
        out: [0; 65536],
        left: [0; 4096],
        right: [0; 4096],
        nametables: [0; 2048],
        oam: [0; 256],
        palette: [0; 32],
        line: [0; 256],
        colours: [0; 256],
    };
    play_input(rt.stdin(), rt.stdout(), accesses::fresh(9).unit, &mut m);
}
