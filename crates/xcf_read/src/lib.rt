// The reader: a file's structures, checked rule by rule, as rows of a lent table.
#![tactic(auto)]

mod drawable;
mod image;

ghost use Rattle.std.specs.Prelude.{◌≡◌};
ghost use Rattle.xcf_numbers.specs.Reason.{number_of};
ghost use Rattle.xcf_read.specs.Answer.{refusal, Read};
ghost use Rattle.xcf_read.specs.Parts.{accepted, Reads};

use crate::image::{Contents, image};
use xcf_numbers::limit::{FILE_LIMIT, TABLE_SIZE};
use xcf_numbers::reason::{Reason, Refusal};
use xcf_parse::image::pointer_width;
use xcf_table::clear_from;
use xcf_walk::cursor::Cursor;

// What acceptance gives; size is how many bytes a pointer has. A refusal's other fields are 0.
#[repr(C)]
#[derive(Clone, Copy)]
pub struct ReadAnswer {
    pub number: u64,
    pub place: u64,
    pub width: u64,
    pub height: u64,
    pub base: u64,
    pub version: u64,
    pub compression: u64,
    pub rows: u64,
    pub size: u64,
}

impl From<Refusal> for ReadAnswer {
    ghost from_gives = { λ e r. r ≡ refusal (number_of e.reason) e.place };

    fn from(refused: Refusal) -> ReadAnswer {
        ReadAnswer {
            number: refused.reason.into(),
            place: refused.place as u64,
            width: 0,
            height: 0,
            base: 0,
            version: 0,
            compression: 0,
            rows: 0,
            size: 0,
        }
    }
}

impl From<Contents> for ReadAnswer {
    ghost from_gives = { λ x r. r ≡ accepted x.head x.rows };

    fn from(read: Contents) -> ReadAnswer {
        let h = read.head;
        ReadAnswer {
            number: 0,
            place: 0,
            width: u64::from(h.width),
            height: u64::from(h.height),
            base: u64::from(h.base),
            version: u64::from(h.version),
            compression: u64::from(h.compression),
            rows: u64::from(read.rows),
            size: pointer_width(h.version).bytes() as u64,
        }
    }
}

// Reads a file's structures into a table of 2,048 numbers. A table of another length stays as it was lent, and so does one that
// is lent with a file over the limit; after another refusal it is all zero.
fn structures(file: &[u8], table: &mut [u32]) -> Result<Contents, Refusal>
    ensures { Reads file.now table.old result table.new }
{
    if table.len() != TABLE_SIZE {
        return Err(Refusal {
            reason: Reason::WrongBuffer,
            place: 0,
        });
    }
    if FILE_LIMIT < file.len() {
        return Err(Refusal {
            reason: Reason::TooLong,
            place: 0,
        });
    }
    let mut cursor = Cursor { file, at: 0 };
    match image(&mut cursor, table) {
        Ok(x) => {
            clear_from(table, x.rows);
            Ok(x)
        }
        Err(refused) => {
            clear_from(table, 0);
            Err(refused)
        }
    }
}

// The same, answered as C has it.
pub fn read(file: &[u8], table: &mut [u32]) -> ReadAnswer
    ensures { Read file.now table.old result table.new }
{
    match structures(file, table) {
        Ok(read) => ReadAnswer::from(read),
        Err(refused) => ReadAnswer::from(refused),
    }
}
