// The items of a trace's requests, read once.
// Numbers are narrowed by `as`: that nothing is lost is proved, and `try_from` would make a Result that is never an Err.
ghost use Rattle.std.specs.Prelude.{◌≡◌, length};
ghost use Rattle.links.specs.Chains.{Read};

// The items of the first requests, as many as the list has places. The list is lent, since one that is handed out is copied.
pub fn read(trace: &[u8], items: &mut [u16])
    ensures same_length { length items.new ≡ length items.old }
    ensures items_read { Read trace.now items.new (length items.old) }
{
    for (t, item) in items.iter_mut().enumerate() {
        *item = trace::item(trace, t) as u16;
    }
}
