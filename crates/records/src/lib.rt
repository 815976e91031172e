// The bytes of a trace file, piece by piece, for programs that make their own traces. No limit of
// document 01 is kept here, so that a trace that breaks one can be made too.
#![tactic(auto)]

ghost use Rattle.std.specs.Prelude.{◌≡◌};
ghost use Rattle.records.specs.Records.{head_of, record_of, laid};

// The first n bytes, or all where there are fewer.
pub use pages::first;

// What stands before the records: the mark, version 1, w, n and F.
pub fn head(slots: u8, requests: u16, fill: u32) -> [u8; 12]
    ensures { result ≡ head_of slots requests fill }
{
    let [n0, n1] = requests.to_le_bytes();
    let [f0, f1, f2, f3] = fill.to_le_bytes();
    [b'C', b'T', b'R', 1, 0, slots, n0, n1, f0, f1, f2, f3]
}

// One request: its item, its kind (0 read, 1 write) and its cost. The kind may be any byte, so that a trace that breaks its row can be
// made too.
#[tactic(auto, unfolding(fields::specs::Bytes::bytes_of))]
pub fn record(item: u16, kind: u8, cost: u32) -> [u8; 8]
    ensures { result ≡ record_of item kind cost }
{
    let [i0, i1] = item.to_le_bytes();
    let [c0, c1, c2, c3] = cost.to_le_bytes();
    [i0, i1, kind, 0, c0, c1, c2, c3]
}

// The bytes, laid into the buffer from place `at` on; a buffer without room for all of them is kept.
pub fn lay(buffer: &mut [u8], at: usize, bytes: &[u8])
    ensures { buffer.new ≡ laid buffer.old at bytes.now }
{
    if at <= buffer.len() && bytes.len() <= buffer.len() - at {
        buffer[at..at + bytes.len()].copy_from_slice(bytes);
    }
}
