// Numbers in bytes, least byte first, read at any place of any slice: past the end bytes count as 0.
// It knows nothing of what the files mean.
#![tactic(auto)]

ghost use Rattle.std.specs.Prelude.{◌≡◌, ◌<◌, ◌^◌, min, get_or};
ghost use Rattle.fields.specs.Bytes.{num_at};

// The byte at a place.
pub fn byte_at(s: &[u8], at: usize) -> u64
    ensures { (result ≡ get_or s.now at 0) × (result < 256) }
{
    u64::from(s.get(at).copied().unwrap_or(0))
}

// The number in K bytes, or in eight where K is more.
pub fn number_at<const K: usize>(s: &[u8], at: usize) -> u64
    ensures { (result ≡ num_at (min K 8) at s.now) × (result < 256 ^ min K 8) }
{
    let mut number: u64 = 0;
    if at < s.len() {
        let size = K.min(8);
        for passed in 0..size {
            number = 256 * number + byte_at(s, at + (size - 1 - passed));
        }
    }
    number
}
