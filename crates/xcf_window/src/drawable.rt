// Whether a row and the lent buffers are usable.
ghost use Rattle.std.specs.Prelude.{◌≡◌, ◌≤◌, IfOk, length};
ghost use Rattle.xcf_numbers.specs.Limit.{side_limit, depth_limit};
ghost use Rattle.xcf_numbers.specs.Reason.{verdict};
ghost use Rattle.xcf_store.specs.Width.{bytes_of};
ghost use Rattle.xcf_window.specs.Usable.{in_range, in_file, fits, row_refusal};
ghost use Rattle.xcf_window.specs.Parts.{DrawableOf};

use xcf_grid::tile_count;
use xcf_numbers::kind;
use xcf_numbers::limit::{DEPTH_LIMIT, FILE_LIMIT, SIDE_LIMIT, TABLE_SIZE};
use xcf_numbers::reason::Reason;
use xcf_range::outside;
use xcf_store::pointer::Width;
use xcf_table::Row;
use xcf_tile::Compression;

// A row of a file, how its tiles are stored, and the width of their pointers.
#[derive(Clone, Copy)]
pub struct Drawable<'a> {
    pub file: &'a [u8],
    pub row: Row,
    pub compression: Compression,
    pub width: Width,
}

// Whether the row's sides, depth and kind are in range.
#[tactic(auto, unfolding(crate::specs::Usable::in_range))]
fn in_range(row: Row) -> bool
    ensures { result ≡ in_range row }
{
    !outside(kind::LAYER, kind::CHANNEL, row.kind)
        && !outside(1, SIDE_LIMIT, row.width)
        && !outside(1, SIDE_LIMIT, row.height)
        && !outside(1, DEPTH_LIMIT, row.depth)
}

// Whether the row's tiles are as many as its sides take, and their pointers and the closing one lie in a file of this length.
#[tactic(auto, unfolding(crate::specs::Usable::in_file))]
fn in_file(length: usize, row: Row, width: Width) -> bool
    ensures { result ≡ in_file (bytes_of width) length row }
{
    u64::from(row.count) == tile_count(row.width, row.height)
        && row.pointers as usize + width.bytes() * (row.count as usize + 1) <= length
}

impl<'a> Drawable<'a> {
    // The drawable of a row, from a table of so many numbers. A pointer has `size` bytes.
    #[tactic(auto, unfolding(crate::specs::Usable::row_refusal, crate::specs::Usable::decodable_row))]
    pub fn of(
        file: &'a [u8],
        numbers: usize,
        row: Row,
        compression: u32,
        size: usize,
    ) -> Result<Drawable<'a>, Reason>
        ensures refused { verdict result ≡ row_refusal size (length file.now) numbers row compression }
        ensures drawable { IfOk result (DrawableOf size file.now row compression) }
    {
        if numbers != TABLE_SIZE {
            return Err(Reason::WrongBuffer);
        }
        if FILE_LIMIT < file.len() {
            return Err(Reason::TooLong);
        }
        let compression = Compression::try_from(compression)?;
        let Ok(width) = Width::try_from(size) else {
            return Err(Reason::Unusable);
        };
        if in_range(row) && in_file(file.len(), row, width) {
            Ok(Drawable {
                file,
                row,
                compression,
                width,
            })
        } else {
            Err(Reason::Unusable)
        }
    }

    // Whether pixels and marks of these lengths fit the row.
    #[tactic(auto, unfolding(crate::specs::Usable::fits))]
    pub fn fits(&self, pixels: usize, marks: usize) -> bool
        requires { (self.now.row.width ≤ side_limit) × (self.now.row.height ≤ side_limit) × (self.now.row.depth ≤ depth_limit) }
        ensures { result ≡ fits self.now.row pixels marks }
    {
        let row = self.row;
        pixels == row.width as usize * row.height as usize * row.depth as usize
            && marks == row.count as usize
    }
}
