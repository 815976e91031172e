// What goes to standard output. The bytes of a picture are promised by no call; a refusal's sentence is.
use crate::sizes::Sizes;
use model::Refusal;
use std::io;

// Room for the longest text of a picture with its numbers, which is that of the title and the legend.
const ROOM: usize = 2048;

// What a picture is drawn on: where its bytes go, and its measures.
#[derive(Drop)]
pub struct Sheet<'a, O> {
    pub out: &'a O,
    pub sizes: Sizes,
}

impl<O: Print> Sheet<'_, O> {
    // A text with its numbers.
    pub fn put(&self, text: &[u8], numbers: &[u64]) -> io::Result<()> {
        let mut page = [0u8; ROOM];
        let size = sentences::fill(text, numbers, &mut page);
        self.out.write_all(pages::first(&page, size))
    }
}

// The sentence of a refusal.
pub fn refused<O: Print>(out: &O, r: Refusal, slots: u64) -> io::Result<()> {
    let mut page = [0u8; sentences::ROOM];
    let size = sentences::refusal(r, slots, &mut page);
    out.write_all(sentences::shown(&page, size))
}
