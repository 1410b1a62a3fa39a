// The first bytes of a file: fixed byte strings.
ghost use Rattle.std.specs.Prelude.{◌≡◌};
ghost use Rattle.xcf_walk.specs.Cursor.{Walks};
ghost use Rattle.xcf_parse.specs.Header.{same, header};
ghost use Rattle.xcf_parse.specs.Parts.{VersionOf};

use xcf_numbers::reason::{Reason, Refusal};
use xcf_numbers::version;
use xcf_walk::cursor::Cursor;

pub const MAGIC: [u8; 9] = *b"gimp xcf ";

pub const FILE: [u8; 5] = *b"file\0";

pub const V001: [u8; 5] = *b"v001\0";

pub const V002: [u8; 5] = *b"v002\0";

pub const V003: [u8; 5] = *b"v003\0";

pub const V011: [u8; 5] = *b"v011\0";

// Whether two byte strings are the same.
fn same(bytes: &[u8], text: &[u8]) -> bool
    ensures { result ≡ same bytes.now text.now }
{
    bytes == text
}

// The tags of the versions that are read.
const TAGS: [([u8; 5], u32); 5] = [
    (FILE, 0),
    (V001, 1),
    (V002, 2),
    (V003, 3),
    (V011, version::WIDE),
];

// The version of a tag that is known.
fn version_of(tag: &[u8]) -> Option<u32>
    ensures { VersionOf tag.now result }
{
    for (known, version) in TAGS {
        if same(tag, &known) {
            return Some(version);
        }
    }
    None
}

#[tactic(auto, using(xcf_walk::proofs::Walks::steps), unfolding(crate::specs::Header::header))]
pub(crate) fn header(cursor: &mut Cursor) -> Result<u32, Refusal>
    ensures { Walks header cursor.old result cursor.new }
{
    let start = cursor.at;
    let magic = cursor.bytes(9)?;
    cursor.check(same(magic, &MAGIC), Reason::NotXcf, start)?;
    let at = cursor.at;
    let tag = cursor.bytes(5)?;
    let Some(version) = version_of(tag) else {
        cursor.jump(at);
        return Err(Refusal {
            reason: Reason::BadVersion,
            place: at,
        });
    };
    Ok(version)
}
