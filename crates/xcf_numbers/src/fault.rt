// Why a tile is marked.
ghost use Rattle.xcf_numbers.specs.Fault.{MarkOf};

// Each fault has a mark that C sees (RULES, "Numbers").
#[derive(Clone, Copy, Debug, PartialEq, Eq)]
pub enum Fault {
    // The window ends before the tile does.
    Short = 20,
    // An operation gives more than its stream still takes.
    Overrun = 21,
}

impl From<Fault> for u64 {
    ghost from_gives = { MarkOf };

    fn from(fault: Fault) -> u64 {
        fault as u64
    }
}
