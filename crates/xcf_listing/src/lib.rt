// The listing of an XCF file as text.
#![tactic(auto)]

pub mod print;
mod rows;

ghost use Rattle.std.specs.Prelude.{◌≡◌, ◌+◌, ◌++◌, ◌≤◌, length};
ghost use Rattle.io.specs.Counts.{IsPrefixLen};
ghost use Rattle.xcf_numbers.specs.Limit.{table_rows, table_size};
ghost use Rattle.xcf_numbers.specs.Reason.{number_of};
ghost use Rattle.xcf_store.specs.Put.{PutWithin};
ghost use Rattle.xcf_text.specs.Stores.{StoresWithin};
ghost use Rattle.xcf_line.specs.Line.{refused_line, canvas_line};
ghost use Rattle.xcf_listing.specs.Listing.{row_lines, marked_tiles, text_size, list_answer, Lists};

use crate::rows::put_rows;
use xcf_line::{put_canvas, put_refusal};
use xcf_numbers::limit::TABLE_SIZE;
use xcf_numbers::reason::Reason;
use xcf_numbers::refusal::ACCEPTED;
use xcf_read::ReadAnswer;
use xcf_store::output::Output;

// Room for every listing.
pub const TEXT_SIZE: usize = 65536;

// The most bytes of a file whose listing is printed.
pub const LIST_LIMIT: usize = 32768;

// Room for such a file and a byte more, by which a longer one is seen.
pub const INPUT_SIZE: usize = LIST_LIMIT + 1;

// number and place are the call's own refusal, beside which the other fields are 0. refused and at are the file's verdict: what the
// reader refuses it with, 0 and 0 where it is accepted. marked is how many tiles of all rows are marked, length how many bytes the
// listing has.
#[repr(C)]
#[derive(Drop)]
pub struct ListAnswer {
    pub number: u64,
    pub place: u64,
    pub refused: u64,
    pub at: u64,
    pub marked: u64,
    pub length: u64,
}

// The call's own refusal.
impl From<Reason> for ListAnswer {
    ghost from_gives = { λ e r. r ≡ record { number = number_of e; place = 0; refused = 0; at = 0; marked = 0; length = 0 } };

    fn from(reason: Reason) -> ListAnswer {
        ListAnswer {
            number: reason.into(),
            place: 0,
            refused: 0,
            at: 0,
            marked: 0,
            length: 0,
        }
    }
}

// The answer beside a listing.
fn list_answer(refused: u64, at: u64, marked: u64, length: usize) -> ListAnswer
    ensures { result ≡ list_answer refused at marked length }
{
    ListAnswer {
        number: ACCEPTED,
        place: 0,
        refused,
        at,
        marked,
        length: length as u64,
    }
}

// The line of a file that is refused.
fn list_refused(text: &mut [u8], refused: u64, at: u64) -> ListAnswer
    requires { text_size ≤ length text.old }
    ensures value { result ≡ list_answer refused at 0 result.length }
    ensures put_within { PutWithin text.old 0 (refused_line refused at) text_size result.length text.new }
{
    let mut lines = Output { bytes: text, at: 0 };
    put_refusal(&mut lines, refused, at);
    list_answer(refused, at, 0, lines.at)
}

// The canvas's line, and the rows' behind it. Gives how many tiles of the rows are marked.
fn put_lines(file: &[u8], table: &[u32], answer: ReadAnswer, text: &mut Output<'_>) -> u64
    requires { (answer.compression ≤ 1) × (answer.rows ≤ table_rows) × (length table.now ≡ table_size) × (text.old.at + text_size ≤ length text.old.bytes.now) }
    ensures stores { StoresWithin text.old (canvas_line answer ++ row_lines answer.size file.now table.now answer.compression 0 answer.rows) text_size text.new }
    ensures marked { result ≡ marked_tiles answer.size file.now table.now answer.compression 0 answer.rows }
    ensures same { text.new.bytes.ghost_name ≡ text.old.bytes.ghost_name }
{
    let compression = answer.compression as u32;
    let size = answer.size as usize;
    let rows = answer.rows as u32;
    put_canvas(text, answer);
    put_rows(file, table, compression, size, rows, text)
}

// The lines of a file that is accepted.
fn list_accepted(file: &[u8], table: &[u32], answer: ReadAnswer, text: &mut [u8]) -> ListAnswer
    requires { (answer.compression ≤ 1) × (answer.rows ≤ table_rows) × (length table.now ≡ table_size) × (text_size ≤ length text.old) }
    ensures value { result ≡ list_answer 0 0 (marked_tiles answer.size file.now table.now answer.compression 0 answer.rows) result.length }
    ensures put_within { PutWithin text.old 0 (canvas_line answer ++ row_lines answer.size file.now table.now answer.compression 0 answer.rows) text_size result.length text.new }
{
    let mut lines = Output { bytes: text, at: 0 };
    let marked = put_lines(file, table, answer, &mut lines);
    list_answer(0, 0, marked, lines.at)
}

// The listing of a file, at the text's start, and the reader's table; a file of more than `limit` bytes is refused. A table of another
// length than TABLE_SIZE is the call's own refusal, and so is a text shorter than TEXT_SIZE: then both stay as lent.
pub fn list(file: &[u8], limit: usize, table: &mut [u32], text: &mut [u8]) -> ListAnswer
    ensures lists { Lists limit file.now table.old text.old result table.new text.new }
    ensures prefix_len { IsPrefixLen result.length text.new }
{
    if table.len() != TABLE_SIZE || text.len() < TEXT_SIZE {
        return Reason::WrongBuffer.into();
    }
    if limit < file.len() {
        return list_refused(text, Reason::TooLong.into(), 0);
    }
    let answer = xcf_read::read(file, table);
    if answer.number != ACCEPTED {
        return list_refused(text, answer.number, answer.place);
    }
    list_accepted(file, table, answer, text)
}
