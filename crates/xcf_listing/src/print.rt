// A listing on standard output.
ghost use Rattle.xcf_listing.specs.Listing.{Prints};

use crate::LIST_LIMIT;
use std::io;

// Writes the listing of a file of at most LIST_LIMIT bytes, with the table and the text as room for it. Both hold what the listing
// leaves in them, whether or not it could be written.
pub fn print_listing<R: Print>(
    rt: &R,
    file: &[u8],
    table: &mut [u32],
    text: &mut [u8],
) -> io::Result<()>
    ensures { Prints file.now table.old text.old table.new text.new }
{
    let answer = crate::list(file, LIST_LIMIT, table, text);
    let n = answer.length as usize;
    rt.write_all(&text[..n])
}
