// What pictures have in common. Lengths are in pixels. Every line is put together in the 4,096 bytes of `io::buffer`, of which the longest, a row with
// 128 marks, takes less than half.
use chart_panels::put_count;
use text::Page;

// Prints what is put on a page of its own.
pub(crate) fn print_with<F: FnOnce(&mut Page)>(put: F)
    requires { F.IsAlwaysCallable put }
{
    let mut line = io::buffer();
    let mut page = Page::over(&mut line);
    put(&mut page);
    printing::print_page(&page);
}

fn print_style() {
    io::write_all(
        1,
        b"<style>.bold{font-weight:bold}.grey{fill:#69727d}.end{text-anchor:end}.numbers{fill:#69727d;font-size:10px;text-anchor:middle}\n\
.sends{stroke:#2b6ca3}.idle{stroke:#e6cb8d}.room{fill:#dfe4e9}.load{fill:#7fa8c9}.full{fill:#c8504a}\n\
.stripes{stroke:#f4f6f8}.edges{stroke:#e3e7eb}.ticks{stroke:#bcc4cc}</style>\n",
    );
}

fn put_head(page: &mut Page, width: u64, height: u64) {
    page.put_field(b"<svg xmlns=\"http://www.w3.org/2000/svg\" width=\"", width);
    page.put_field(b"\" height=\"", height);
    page.put_field(b"\" viewBox=\"0 0 ", width);
    page.put_field(b" ", height);
    page.put(
        b"\" font-family=\"sans-serif\" font-size=\"12\" fill=\"#20262d\">\n<title>Slot plan</title>\n",
    );
}

// On a white ground of its own, since a viewer may show a dark one.
pub(crate) fn print_head(width: u64, height: u64) {
    print_with(|page| put_head(page, width, height));
    print_style();
    io::write_all(1, b"<rect width=\"100%\" height=\"100%\" fill=\"#fff\"/>\n");
}

pub(crate) fn print_tail() {
    io::write_all(1, b"</svg>\n");
}

fn print_legend() {
    io::write_all(
        1,
        b"<g class=\"grey\" transform=\"translate(24 60)\"><path class=\"sends\" transform=\"translate(0 -4) scale(14 12)\" d=\"M0 0h1\"/>\
<text x=\"20\">sends</text><path class=\"idle\" transform=\"translate(70 -4) scale(14 12)\" d=\"M0 0h1\"/><text x=\"90\">idle</text>\n\
<rect class=\"load\" x=\"132\" y=\"-9\" width=\"28\" height=\"9\"/><text x=\"166\">load</text>\
<rect class=\"full\" x=\"212\" y=\"-9\" width=\"28\" height=\"9\"/><text x=\"246\">load at 90% of the capacity or above</text></g>\n",
    );
}

fn put_heading(page: &mut Page, links: u64, flows: u64) {
    page.put(
        b"<text x=\"24\" y=\"36\"><tspan class=\"bold\" font-size=\"20\">Slot plan</tspan> <tspan class=\"grey\" dx=\"12\" font-size=\"14\">",
    );
    put_count(page, links, b" link");
    page.put(b", ");
    put_count(page, flows, b" flow");
    page.put(b"</tspan></text>\n");
}

pub(crate) fn print_heading(links: u64, flows: u64) {
    print_with(|page| put_heading(page, links, flows));
    print_legend();
}
