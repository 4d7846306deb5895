// The choice of the eight sprites that a line shows, and the search for overflow. Inner functions, not public calls.
// choose, search. Within: height; distances: distance, word, words, y_bytes, from_y, distances, near_one, count; the list: marks, any8, list_eight,
// list_some, list_marked, list_places; the search: in_sixteen, eighth_from, eighth, tried_one, on_diagonal, tried_some; on a line, by Evaluation:
// listed, skip, diagonal, searched, chosen.
#![tactic(auto)]

ghost use Rattle.std.specs.Prelude.{◌≡◌, cond, true, [], ℕ, ◌+◌, ◌-◌, ◌*◌, ◌%◌, ◌<◌, ◌≤◌, eqb, get_or, take};
ghost use Rattle.model.specs.Line.{any_of};
ghost use Rattle.model.specs.Sprites.{oam_at, height as height_of, is_in_range, covers, places_of, count_of, overflows, looked_at};
ghost use Rattle.choice.specs.Distance.{distance_of, Distances, low_in, distance_from, is_from, near, is_marked, Marks, or_of};
ghost use Rattle.choice.specs.Overflow.{on_diagonal, hits, Eight};

// Here and in Found each part holds whatever the other is. How many sprites the line shows, at most eight, and whether the search sets the overflow bit.
#[derive(Clone, Copy)]
pub struct Choice {
    pub count: usize,
    pub over: bool,
}

// What the search for overflow finds: how many sprites it looked at, and whether it set the bit.
#[derive(Clone, Copy)]
pub struct Found {
    pub looked: u8,
    pub over: bool,
}

// 8, or 16 by control bit 5.
#[tactic(auto, using(crate::proofs::Cases::height_cases))]
pub fn height(control: u8) -> u8
    ensures { (result ≡ height_of control) × (8 ≤ result) × (result ≤ 16) }
{
    if bits::bit(control, 5) { 16 } else { 8 }
}

// How far line n is below the Y byte y; 255 if it is above.
#[tactic(auto, using(crate::proofs::Cases::distance_cases))]
fn distance(n: u8, y: u8) -> u8
    ensures { result ≡ distance_of n y }
{
    if y <= n { n - y } else { 255 }
}

// The four bytes of sprite i in a word: its Y byte is the lowest.
#[tactic(auto, using(crate::proofs::Loops::word_low))]
fn word(oam: &[u8; 256], i: usize) -> u32
    requires { i < 64 }
    ensures { result % 256 ≡ oam_at oam.now i 0 }
{
    u32::from_le_bytes([oam[4 * i], oam[4 * i + 1], oam[4 * i + 2], oam[4 * i + 3]])
}

// All 64 sprites as words. The compiler then loads four at a time, where it would load Y bytes one by one.
fn words(oam: &[u8; 256]) -> [u32; 64]
    ensures { (i : ℕ) → i < 64 → get_or result i 0 % 256 ≡ oam_at oam.now i 0 }
{
    let mut w = [0; 64];
    for i in 0..64 {
        w[i] = word(oam, i);
    }
    w
}

// The sprites' Y bytes, out of their words. In a loop of its own, so that the compiler packs sixteen at a time.
#[tactic(auto, unfolding(crate::specs::Distance::low_in))]
fn y_bytes(w: &[u32; 64]) -> [u8; 64]
    ensures { (i : ℕ) → i < 64 → get_or result i 0 ≡ low_in w.now i }
{
    let mut y = [0; 64];
    for i in 0..64 {
        y[i] = (w[i] & 255) as u8;
    }
    y
}

// The distance of line n from each Y byte.
#[tactic(auto, unfolding(crate::specs::Distance::distance_from))]
fn from_y(n: u8, y: &[u8; 64]) -> [u8; 64]
    ensures { (i : ℕ) → i < 64 → get_or result i 0 ≡ distance_from n y.now i }
{
    let mut d = [0; 64];
    for i in 0..64 {
        d[i] = distance(n, y[i]);
    }
    d
}

// The distance of line n from each sprite's Y byte.
#[tactic(auto, unfolding(crate::specs::Distance::low_in, crate::specs::Distance::distance_from))]
fn distances(n: u8, oam: &[u8; 256]) -> [u8; 64]
    ensures { Distances n oam.now result }
{
    from_y(n, &y_bytes(&words(oam)))
}

// 1 if the distance d is one of the h numbers from `from`, else 0.
#[tactic(auto, using(crate::proofs::Cases::near_cases))]
fn near_one(d: u8, from: u8, h: u8) -> u8
    ensures { (result ≡ cond (is_from from h d) 1 0) × (result ≤ 1) }
{
    u8::from(from <= d && d - from < h)
}

// How many of the distances are.
#[tactic(auto, using(crate::proofs::Loops::counted_loop))]
fn count(d: &[u8; 64], from: u8, h: u8) -> u8
    ensures { result ≡ count_of (near d.now from h) 64 }
{
    let mut n = 0;
    for i in 0..64 {
        n += near_one(d[i], from, h);
    }
    n
}

// Those distances are marked.
#[tactic(auto, unfolding(crate::specs::Distance::near))]
fn marks(d: &[u8; 64], from: u8, h: u8) -> [u8; 64]
    ensures { (i : ℕ) → i < 64 → get_or result i 0 ≡ cond (near d.now from h i) 1 0 }
{
    let mut m = [0; 64];
    for i in 0..64 {
        m[i] = near_one(d[i], from, h);
    }
    m
}

// Not 0 if one of the eight from place at on is marked.
#[tactic(auto, using(crate::proofs::Loops::any_loop))]
fn any8(m: &[u8; 64], at: usize) -> u8
    requires { at + 8 ≤ 64 }
    ensures { result ≡ or_of m.now at 8 }
{
    let mut any = 0;
    for j in 0..8 {
        any |= m[at + j];
    }
    any
}

// The n marked places below at stand at the front of `list`: the marked ones of the next eight come behind them. How many there are then.
// Each place is stored, and the next goes over it unless it is marked.
#[tactic(auto, using(crate::proofs::Loops::listed_loop))]
fn list_eight(m: &[u8; 64], at: usize, n: usize, list: &mut [u8; 65]) -> usize
    requires marked { Marks m.now × (at + 8 ≤ 64) }
    requires listed { (n ≡ count_of (is_marked m.now) at) × (take n list.old ≡ places_of (is_marked m.now) at) }
    ensures { (result ≡ count_of (is_marked m.now) (at + 8)) × (take result list.new ≡ places_of (is_marked m.now) (at + 8)) }
{
    let mut k = n;
    for j in 0..8 {
        list[k] = (at + j) as u8;
        k += usize::from(m[at + j]);
    }
    k
}

// The same, with nothing done where none of the eight is marked.
#[tactic(auto, using(crate::proofs::Loops::some_cases))]
fn list_some(m: &[u8; 64], at: usize, n: usize, list: &mut [u8; 65]) -> usize
    requires marked { Marks m.now × (at + 8 ≤ 64) }
    requires listed { (n ≡ count_of (is_marked m.now) at) × (take n list.old ≡ places_of (is_marked m.now) at) }
    ensures { (result ≡ count_of (is_marked m.now) (at + 8)) × (take result list.new ≡ places_of (is_marked m.now) (at + 8)) }
{
    if any8(m, at) == 0 {
        n
    } else {
        list_eight(m, at, n, list)
    }
}

// The marked places, in order, at the front of `list`.
#[tactic(auto, using(crate::proofs::Loops::blocks_loop))]
fn list_marked(m: &[u8; 64], list: &mut [u8; 65])
    requires { Marks m.now }
    ensures { take (count_of (is_marked m.now) 64) list.new ≡ places_of (is_marked m.now) 64 }
{
    let mut n = 0;
    for b in 0..8 {
        n = list_some(m, 8 * b, n, list);
    }
}

// The places of those distances, in order, at the front of `list`.
#[tactic(auto, using(crate::proofs::Loops::marks_cases))]
fn list_places(d: &[u8; 64], from: u8, h: u8, list: &mut [u8; 65])
    ensures { take (count_of (near d.now from h) 64) list.new ≡ places_of (near d.now from h) 64 }
{
    list_marked(&marks(d, from, h), list);
}

// How many of the sixteen distances from place at on are below h.
#[tactic(auto, using(crate::proofs::Overflow::sixteen_loop))]
fn in_sixteen(d: &[u8; 64], at: usize, h: u8) -> u8
    requires { at + 16 ≤ 64 }
    ensures { (count_of (near d.now 0 h) at + result ≡ count_of (near d.now 0 h) (at + 16)) × (result ≤ 16) }
{
    let mut n = 0;
    for i in 0..16 {
        n += near_one(d[at + i], 0, h);
    }
    n
}

// The place of the eighth sprite whose distance is below h, where there are eight; `found` of them, fewer than eight, stand before place `from`.
#[tactic(auto, using(crate::proofs::Overflow::eighth_loop))]
fn eighth_from(d: &[u8; 64], h: u8, found: u8, from: usize) -> usize
    requires { (8 ≤ count_of (near d.now 0 h) 64) × (from ≤ 48) × (found ≤ 7) × (found ≡ count_of (near d.now 0 h) from) }
    ensures { (result < 64) × (count_of (near d.now 0 h) result ≡ 7) × (near d.now 0 h result ≡ true) }
{
    let mut k = found;
    for i in from..64 {
        k += near_one(d[i], 0, h);
        if 7 < k {
            return i;
        }
    }
    unreachable!()
}

// The same from the first sprite on: sixteens that do not reach the eighth are passed over.
#[tactic(auto, using(crate::proofs::Overflow::eighth_loop))]
fn eighth(d: &[u8; 64], h: u8) -> usize
    requires { 8 ≤ count_of (near d.now 0 h) 64 }
    ensures { (result < 64) × (count_of (near d.now 0 h) result ≡ 7) × (near d.now 0 h result ≡ true) }
{
    let mut found = 0;
    for sixteen in 0..3 {
        let more = found + in_sixteen(d, 16 * sixteen, h);
        if 7 < more {
            return eighth_from(d, h, found, 16 * sixteen);
        }
        found = more;
    }
    eighth_from(d, h, found, 48)
}

// 1 if the byte y, tried as a Y byte, is in range of line n, else 0.
#[tactic(auto, using(crate::proofs::Overflow::tried_one))]
fn tried_one(n: u8, h: u8, y: u8) -> u8
    requires { h ≤ 16 }
    ensures { (result ≡ cond (is_in_range h n y) 1 0) × (result ≤ 1) }
{
    near_one(distance(n, y), 0, h)
}

// 1 if the byte j places behind a sprite's byte 0 is tried after it: byte 1 of the next sprite, byte 2 of the one behind, and so on. Else 0.
#[tactic(auto, using(crate::proofs::Cases::on_diagonal_1))]
fn on_diagonal(j: usize) -> u8
    ensures { (result ≡ cond (on_diagonal j) 1 0) × (result ≤ 1) }
{
    u8::from(j >> 2 & 3 == j & 3)
}

// 1 if one of those bytes is in range of line n, of `size` sprites from byte 0 of sprite i on, else 0. All bytes are tried and those off the
// diagonal masked out, which the compiler makes vectors of.
#[tactic(auto, using(crate::proofs::Overflow::some_loop))]
fn tried_some(n: u8, h: u8, oam: &[u8; 256], i: usize, size: usize) -> u8
    requires { (h ≤ 16) × (i + size ≤ 64) }
    ensures { result ≡ cond (any_of (hits h n oam.now i) (4 * size)) 1 0 }
{
    let mut any = 0;
    for j in 0..4 * size {
        any |= tried_one(n, h, oam[4 * i + j]) & on_diagonal(j);
    }
    any
}

// Sprite evaluation on line n.
#[derive(Clone, Copy)]
struct Evaluation<'a> {
    control: u8,
    n: u8,
    oam: &'a [u8; 256],
}

impl<'a> Evaluation<'a> {
    // The sprites that line n shows, out of its distances, in OAM order, at the front of `list`: line n is 1 to h below their Y byte, so on
    // line 0 there is none. How many: the first eight are taken.
    #[tactic(auto, using(crate::proofs::Cases::listed_cases))]
    fn listed(self, d: &[u8; 64], list: &mut [u8; 65]) -> usize
        requires { Distances self.n self.oam.now d.now }
        ensures { (result ≤ 8) × (take result list.new ≡ cond (eqb self.entry.n 0) [] (take 8 (places_of (covers self.entry.control self.entry.oam.now (self.entry.n - 1)) 64))) }
    {
        let h = height(self.control);
        let shown = count(d, 1, h);
        if shown == 0 {
            return 0;
        }
        list_places(d, 1, h, list);
        usize::from(shown.min(8))
    }

    // Where eight are found, sprites that do not set the bit are passed over, `size` at a time.
    #[tactic(auto, using(crate::proofs::Overflow::eight_on))]
    fn skip(self, from: usize, size: usize) -> usize
        requires { Eight self.control self.oam.now self.n from × (0 < size) × (size ≤ 16) × (size % 4 ≡ 0) }
        ensures { Eight self.entry.control self.entry.oam.now self.entry.n result }
    {
        let h = height(self.control);
        // By while: where no sprite sets the bit the answer is the i past the last size that fits.
        let mut i = from;
        while i + size <= 64 {
            if 0 < tried_some(self.n, h, self.oam, i, size) {
                return i;
            }
            i += size;
        }
        i
    }

    // The search from sprite `from` on, where eight are found: byte 0 of it, byte 1 of the next, and so on, up to the first in range.
    fn diagonal(self, from: usize) -> Found
        requires { Eight self.control self.oam.now self.n from }
        ensures { (result.looked ≡ looked_at self.entry.control self.entry.oam.now self.entry.n) × (result.over ≡ overflows self.entry.control self.entry.oam.now self.entry.n) }
    {
        let h = height(self.control);
        let mut b = 0;
        for i in from..64 {
            if 0 < tried_one(self.n, h, self.oam[4 * i + b]) {
                return Found {
                    looked: (i + 1) as u8,
                    over: true,
                };
            }
            b = (b + 1) & 3;
        }
        Found {
            looked: 64,
            over: false,
        }
    }

    // The search out of the line's distances: with fewer than eight in range it looks at all and sets nothing.
    #[tactic(auto, using(crate::proofs::Overflow::searched_cases))]
    fn searched(self, d: &[u8; 64]) -> Found
        requires { Distances self.n self.oam.now d.now }
        ensures { (result.looked ≡ looked_at self.entry.control self.entry.oam.now self.entry.n) × (result.over ≡ overflows self.entry.control self.entry.oam.now self.entry.n) }
    {
        let h = height(self.control);
        if count(d, 0, h) < 8 {
            return Found {
                looked: 64,
                over: false,
            };
        }
        let sixteens = self.skip(eighth(d, h) + 1, 16);
        self.diagonal(self.skip(sixteens, 4))
    }

    // The sprites that line n shows, and whether the search sets the overflow bit. Where no distance is from 0 to h there is neither; with fewer
    // than eight of them the search does not set it.
    #[tactic(auto, using(crate::proofs::Overflow::choose_cases))]
    fn chosen(self, list: &mut [u8; 65]) -> Choice
        ensures { (result.over ≡ overflows self.entry.control self.entry.oam.now self.entry.n) × (result.count ≤ 8)
            × (take result.count list.new ≡ cond (eqb self.entry.n 0) [] (take 8 (places_of (covers self.entry.control self.entry.oam.now (self.entry.n - 1)) 64))) }
    {
        let d = distances(self.n, self.oam);
        let close = count(&d, 0, height(self.control) + 1);
        if close == 0 {
            return Choice {
                count: 0,
                over: false,
            };
        }
        let over = 8 <= close && self.searched(&d).over;
        let count = self.listed(&d, list);
        Choice { count, over }
    }
}

// The search for overflow on line n.
pub fn search(control: u8, n: u8, oam: &[u8; 256]) -> Found
    ensures { (result.looked ≡ looked_at control oam.now n) × (result.over ≡ overflows control oam.now n) }
{
    Evaluation { control, n, oam }.searched(&distances(n, oam))
}

// The sprites that line n shows, in OAM order, at the front of `list`, and whether the search on line n sets the overflow bit.
pub fn choose(control: u8, n: u8, oam: &[u8; 256], list: &mut [u8; 65]) -> Choice
    ensures { (result.over ≡ overflows control oam.now n) × (result.count ≤ 8)
        × (take result.count list.new ≡ cond (eqb n 0) [] (take 8 (places_of (covers control oam.now (n - 1)) 64))) }
{
    Evaluation { control, n, oam }.chosen(list)
}
