// Bytes laid into a lent page, one run after the other. What does not fit is left out, so every call is total.
#![tactic(auto)]

ghost use Rattle.std.specs.Prelude.{◌≡◌, take, replicate};
ghost use Rattle.pages.specs.Pages.{filled, put, write};
ghost use Rattle.pages.specs.Lent.{laid};

// A lent page, and how far it is filled from its start on. Each method's first promise is that it is still the same page.
#[derive(Drop)]
pub struct Page<'a> {
    pub bytes: &'a mut [u8],
    pub filled: usize,
}

impl<'a> Page<'a> {
    // A page that nothing is laid into yet.
    pub fn new(bytes: &'a mut [u8]) -> Page<'a>
        ensures same { result.bytes.ghost_name ≡ bytes.entry.ghost_name }
        ensures page { laid result ≡ filled 0 bytes.old }
    {
        Page { bytes, filled: 0 }
    }

    // One byte more.
    pub fn byte(&mut self, b: u8)
        ensures same { self.new.bytes.ghost_name ≡ self.old.bytes.ghost_name }
        ensures page { laid self.new ≡ put (laid self.old) b }
    {
        if self.filled < self.bytes.len() {
            self.bytes[self.filled] = b;
            self.filled += 1;
        }
    }

    // These bytes.
    pub fn bytes(&mut self, s: &[u8])
        ensures same { self.new.bytes.ghost_name ≡ self.old.bytes.ghost_name }
        ensures page { laid self.new ≡ write (laid self.old) s.now }
    {
        for &b in s {
            self.byte(b);
        }
    }

    // One byte so many times.
    pub fn repeat(&mut self, count: usize, b: u8)
        ensures same { self.new.bytes.ghost_name ≡ self.old.bytes.ghost_name }
        ensures page { laid self.new ≡ write (laid self.old) (replicate count b) }
    {
        for _ in 0..count {
            self.byte(b);
        }
    }
}

// The first n bytes, or all where there are fewer.
pub fn first(page: &[u8], n: usize) -> &[u8]
    ensures { result.now ≡ take n page.now }
{
    &page[..n.min(page.len())]
}
