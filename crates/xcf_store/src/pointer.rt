// Pointers read at a place: numbers of four or eight bytes.
ghost use Rattle.std.specs.Prelude.{◌≡◌, ◌+◌, ◌≤◌, length};
ghost use Rattle.xcf_store.specs.Pointer.{number_at};
ghost use Rattle.xcf_store.specs.Width.{bytes_of, WidthOf};

use crate::word::word_at;

// The bytes of a pointer.
#[derive(Clone, Copy, Debug, PartialEq, Eq)]
pub enum Width {
    Narrow = 4,
    Wide = 8,
}

// A number of bytes that no pointer has.
#[derive(Clone, Copy, Debug, PartialEq, Eq)]
pub struct NoWidth(pub usize);

impl Width {
    pub fn bytes(self) -> usize
        ensures { result ≡ bytes_of self }
    {
        self as usize
    }
}

impl TryFrom<usize> for Width {
    type Error = NoWidth;

    ghost try_from_gives = { WidthOf };

    #[tactic(auto, using(crate::proofs::Sizes::no_size), unfolding(crate::specs::Pointer::pointer_size_ok))]
    fn try_from(size: usize) -> Result<Self, NoWidth> {
        match size {
            4 => Ok(Width::Narrow),
            8 => Ok(Width::Wide),
            _ => Err(NoWidth(size)),
        }
    }
}

pub fn number_at(file: &[u8], at: usize, width: Width) -> usize
    requires { at + bytes_of width ≤ length file.now }
    ensures { result ≡ number_at (bytes_of width) file.now at }
{
    let first = word_at(file, at) as usize;
    match width {
        Width::Narrow => first,
        Width::Wide => first * 4294967296 + word_at(file, at + 4) as usize,
    }
}
