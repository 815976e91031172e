// Storing three numbers at the places of a node.
ghost use Rattle.std.specs.Prelude.{◌≡◌, ◌<◌};
ghost use Rattle.ways.specs.Parts.{put_at};

use crate::PLACES;

// Three numbers stored at the places of node u.
pub fn put<T: Copy>(list: &mut [T; PLACES], u: usize, a: T, b: T, c: T)
    requires { u < 2050 }
    ensures { list.new ≡ put_at list.old u a b c }
{
    let at = 3 * u;
    list[at] = a;
    list[at + 1] = b;
    list[at + 2] = c;
}
