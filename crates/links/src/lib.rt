// Groups of points: each point is linked to one above it, by the tie that joined their groups and with the gap between them, and the
// topmost stands for the group.
// It rests on the range of gaps alone, and promises what its numbers say by themselves; what they say of ties is linked's.
#![tactic(auto)]

ghost use Rattle.std.specs.Prelude.{◌≡◌, ◌+◌, ◌%◌, ◌<◌, length, get_or, set, MatchOption};
ghost use Rattle.legs.specs.Legs.{range};
ghost use Rattle.links.specs.Links.{link_of, by_of, up_of, gap_of, root, top_of, Rising, Climbs, Between, Joined};

use legs::RANGE;

// What stands in a link that is by no tie: that of a topmost point, with the size of its group above it.
const NONE: u8 = 255;

const BY: u64 = 281474976710656;

// A group of one point, and the links of groups of one.
pub const ALONE: u64 = 255 * BY + RANGE;

pub const LINKS: usize = 256;

// The topmost point of a group, and the gap of a point to it.
#[derive(Clone, Copy)]
pub struct Found {
    pub top: u8,
    pub gap: u64,
}

fn word(by: u8, up: u8, gap: u64) -> u64
    requires { gap < range }
    ensures { result ≡ link_of by up gap }
{
    (by as u64 * 256 + up as u64) * RANGE + gap
}

// The tie that a link is by, if it is by any.
pub fn by(link: u64) -> Option<u8>
    ensures { MatchOption result (by_of link ≡ root) (λ t. (t ≡ by_of link) × (t < root)) }
{
    let t = (link / BY % 256) as u8;
    if t == NONE { None } else { Some(t) }
}

pub fn up(link: u64) -> u8
    ensures { result ≡ up_of link }
{
    (link / RANGE % 256) as u8
}

fn gap(link: u64) -> u64
    ensures { result ≡ gap_of link }
{
    link % RANGE
}

pub fn find(links: &[u64], i: u8) -> Found
    requires { (length links.now ≡ 256) × Rising links.now }
    ensures { Climbs links.now root i result.top result.gap }
{
    let mut top = i;
    let mut sum = 0;
    let mut link = links[i as usize];
    // A while: how far it goes is not known before it runs.
    while by(link).is_some() {
        sum = (sum + gap(link)) % RANGE;
        top = up(link);
        link = links[top as usize];
    }
    Found { top, gap: sum }
}

// The gap of two points of one group; points of two groups have none.
pub fn between(links: &[u64], i: u8, j: u8) -> Option<u64>
    requires { (length links.now ≡ 256) × Rising links.now }
    ensures { Between links.now i j result }
{
    let x = find(links, i);
    let y = find(links, j);
    if x.top == y.top {
        Some((x.gap + (RANGE - y.gap)) % RANGE)
    } else {
        None
    }
}

// Joins the groups of a and b by tie t, a = b + c. The smaller goes below the larger, so that no climb is long.
pub fn join(links: &mut [u64], t: u8, a: u8, b: u8, c: u64)
    requires { (length links.old ≡ 256) × Rising links.old × (c < range) }
    ensures { Joined links.old links.new t a b c }
{
    let x = find(links, a);
    let y = find(links, b);
    let left = size(links, x.top);
    let right = size(links, y.top);
    let top = topmost(left, right);
    if left < right {
        let link = word(t, y.top, (c + y.gap + (RANGE - x.gap)) % RANGE);
        hang(links, x.top, link, y.top, top);
    } else {
        let link = word(t, x.top, (x.gap + (RANGE - c) + (RANGE - y.gap)) % RANGE);
        hang(links, y.top, link, x.top, top);
    }
}

// The size of a group, as its topmost point has it.
fn size(links: &[u64], i: u8) -> u8
    requires { length links.now ≡ 256 }
    ensures { result ≡ up_of (get_or links.now i 0) }
{
    up(links[i as usize])
}

// The link of the topmost point of two groups joined.
fn topmost(left: u8, right: u8) -> u64
    ensures { result ≡ top_of ((left + right) % 256) }
{
    word(NONE, ((left as u16 + right as u16) % 256) as u8, 0)
}

// One topmost point goes below the other.
fn hang(links: &mut [u64], below: u8, link: u64, above: u8, top: u64)
    requires { length links.old ≡ 256 }
    ensures { links.new ≡ set (set links.old below link) above top }
{
    links[below as usize] = link;
    links[above as usize] = top;
}
