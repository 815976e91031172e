// What of a chart is there before any request: its size, its styles, its marks, its title, the legend and the slot rows.
use crate::sheet::Sheet;
use crate::sizes::Sizes;
use replay::Totals;
use std::io;

impl<O: Print> Sheet<'_, O> {
    // The picture's size, its styles, its marks around the point that they stand at, and its background.
    pub fn open(&self) -> io::Result<()> {
        let width = self.sizes.width();
        let height = self.sizes.height();
        self.put(
            b"<svg xmlns=\"http://www.w3.org/2000/svg\" width=\"@\" height=\"@\">\n\
        <style>text{font:12px sans-serif;fill:#222}.t{font-weight:bold;font-size:14px}.n{fill:#666}\
        .b{fill:#fff}.l{fill:#f1f3f5}.v{stroke:#d5d9de;stroke-width:1}.k{stroke:#555;stroke-width:.6}\
        .i{font-size:11px}.a,.r{text-anchor:middle}.d{font-size:9px}.e{font-size:9px;text-anchor:end}\
        .o{fill:#e3e6ea}.s{fill:#b5651d}</style>\n\
        <defs><path id=\"f\" d=\"M0-6 5.5 4.5H-5.5z\" fill=\"#1c6dd0\"/>\
        <circle id=\"h\" r=\"4.2\" fill=\"#fff\" stroke=\"#12833b\" stroke-width=\"2\"/>\
        <path id=\"w\" d=\"M0-6 6 0 0 6-6 0z\" fill=\"#c92a2a\"/>\
        <path id=\"m\" d=\"M-4-4 4 4M-4 4 4-4\" stroke=\"#c92a2a\" stroke-width=\"2\"/>\
        <circle id=\"p\" r=\"2.6\" fill=\"#9aa0a6\"/></defs>\n\
        <rect class=\"b\" x=\"0\" y=\"0\" width=\"@\" height=\"@\"/>\n",
            &[width, height, width, height],
        )
    }

    // The totals and what the trace's header says, the legend, and the names of what stands above and below the slot rows.
    pub fn names(&self, fill: u64, totals: Totals) -> io::Result<()> {
        let full = self.sizes.below(18);
        let rent = self.sizes.below(36);
        self.put(
            b"<text class=\"t\" x=\"16\" y=\"24\">cost @: read misses @, fills @, write hits @ \
        (requests @, slots @, fill price @)</text>\n\
        <use href=\"#f\" x=\"22\" y=\"44\"/><text class=\"n\" x=\"34\" y=\"48\">miss and fill</text>\
        <use href=\"#h\" x=\"136\" y=\"44\"/><text class=\"n\" x=\"148\" y=\"48\">hit</text>\
        <use href=\"#w\" x=\"194\" y=\"44\"/><text class=\"n\" x=\"206\" y=\"48\">write hit</text>\
        <use href=\"#m\" x=\"284\" y=\"44\"/><text class=\"n\" x=\"296\" y=\"48\">miss, pass by</text>\
        <use href=\"#p\" x=\"402\" y=\"44\"/><text class=\"n\" x=\"414\" y=\"48\">write past</text>\
        <rect class=\"s\" x=\"492\" y=\"39\" width=\"20\" height=\"10\"/><text class=\"n\" x=\"518\" y=\"48\">full gap</text>\n\
        <text class=\"n\" x=\"16\" y=\"70\">request</text><text class=\"n\" x=\"16\" y=\"88\">item</text>\
        <text class=\"n\" x=\"16\" y=\"122\">past the cache</text>\
        <text class=\"n\" x=\"16\" y=\"@\">full gaps</text><text class=\"n\" x=\"16\" y=\"@\">rent</text>\n",
            &[
                totals.total,
                totals.misses,
                totals.fills,
                totals.strikes,
                self.sizes.requests,
                self.sizes.slots,
                fill,
                full,
                rent,
            ],
        )
    }

    // The slot rows.
    pub fn rows(&self) -> io::Result<()> {
        for row in 0..self.sizes.slots {
            self.slot(row)?;
        }
        Ok(())
    }

    // A slot row, named at both ends.
    fn slot(&self, row: u64) -> io::Result<()> {
        let y = self.sizes.y(row);
        let name = y.saturating_add(14);
        let shown = row.saturating_add(1);
        let end = self.sizes.x(self.sizes.requests);
        let width = end.saturating_sub(Sizes::LEFT);
        let right = end.saturating_add(8);
        self.put(
            b"<rect class=\"l\" x=\"@\" y=\"@\" width=\"@\" height=\"20\"/>\
        <text class=\"n\" x=\"16\" y=\"@\">slot @</text><text class=\"n\" x=\"@\" y=\"@\">slot @</text>\n",
            &[Sizes::LEFT, y, width, name, shown, right, name, shown],
        )
    }
}
