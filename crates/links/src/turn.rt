// The previous requests, from the next ones.
// Numbers are narrowed by `as`: that nothing is lost is proved, and `try_from` would make a Result that is never an Err.
ghost use Rattle.std.specs.Prelude.{length};
ghost use Rattle.links.specs.Chains.{Single, Undoes};

// Each request is the previous one of its next; where there is none stands the count of requests.
pub fn turn(next: &[u16], prev: &mut [u16])
    requires { Single next.now prev.old (length next.now) }
    ensures { Undoes next.now prev.new (length next.now) (length next.now) }
{
    let n = next.len();
    prev.fill(n as u16);
    for (t, u) in next.iter().enumerate() {
        let u = usize::from(*u);
        if u < n {
            prev[u] = t as u16;
        }
    }
}
