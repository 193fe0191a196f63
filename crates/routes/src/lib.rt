// The ties on the path between two points, as a set. Each tie has those on the path between the two topmost points that it joined; the
// path from a point to its topmost one has those that come an odd number of times on the way up, and so has the path between two points,
// since what both go over cancels.
// It rests on links and sets, and promises what their numbers say by themselves; what they say of ties is traced's.
#![tactic(auto)]

ghost use Rattle.std.specs.Prelude.{◌≡◌, ℕ, ◌<◌, length};
ghost use Rattle.sets.specs.Sets.{has};
ghost use Rattle.links.specs.Links.{Rising};
ghost use Rattle.routes.specs.Routes.{Upwards, PathSays, LaidPath};

use sets::Ties;

// Two words for each tie.
pub const PATHS: usize = 512;

// The ties on the path between two points of one group.
pub fn between(links: &[u64], paths: &[u64], i: u8, j: u8) -> Ties
    requires { (length links.now ≡ 256) × Rising links.now × (length paths.now ≡ 512) }
    ensures { PathSays links.now paths.now i j result }
{
    let x = upwards(links, paths, i);
    let y = upwards(links, paths, j);
    sets::difference(x, y)
}

// To the topmost point.
fn upwards(links: &[u64], paths: &[u64], i: u8) -> Ties
    requires { (length links.now ≡ 256) × Rising links.now × (length paths.now ≡ 512) }
    ensures { (u : ℕ) → Upwards links.now paths.now u i (has result u) }
{
    let mut odd = sets::none();
    let mut link = links[i as usize];
    // A while: how far it goes is not known before it runs.
    while let Some(t) = links::by(link) {
        odd = sets::difference(odd, sets::at(paths, t));
        link = links[links::up(link) as usize];
    }
    odd
}

// Before tie t joins the groups of a and b: the path from the one topmost point to the other, over t.
pub fn lay(links: &[u64], paths: &mut [u64], t: u8, a: u8, b: u8)
    requires { (length links.now ≡ 256) × Rising links.now × (length paths.old ≡ 512) × (t < 128) }
    ensures { LaidPath links.now paths.old paths.new t a b }
{
    let path = between(links, paths, a, b);
    sets::put(paths, t, sets::difference(sets::only(t), path));
}
