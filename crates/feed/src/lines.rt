// The lines of a feed, parted by byte 10.
ghost use Rattle.std.specs.Prelude.{◌≤◌, ◌≡◌, length};
ghost use Rattle.feed.specs.Lines as lines;
ghost use Rattle.feed.specs.Into as into;

// The byte that parts lines.
const LINE_FEED: u8 = 10;

// Where the line that begins at a place ends: at a byte 10, or at the feed's end.
pub fn line_end(feed: &[u8], at: usize) -> usize
    requires { at ≤ length feed.now }
    ensures { result ≡ into.line_end feed.now at }
{
    for e in at..feed.len() {
        if feed[e] == LINE_FEED {
            return e;
        }
    }
    feed.len()
}

// The place after a line that ends at e: after its byte 10, where it has one.
pub fn after_line(feed: &[u8], e: usize) -> usize
    ensures { result ≡ into.after_line feed.now e }
{
    if e < feed.len() { e + 1 } else { e }
}

// How many lines a feed has.
pub fn lines_in(feed: &[u8]) -> usize
    ensures { result ≡ length (lines.lines feed.now) }
{
    // A step goes on by a line: no range counts it.
    let mut n: usize = 0;
    let mut at: usize = 0;
    while at < feed.len() {
        at = after_line(feed, line_end(feed, at));
        n += 1;
    }
    n
}
