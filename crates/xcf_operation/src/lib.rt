// One operation of an encoded stream.
#![tactic(auto)]

ghost use Rattle.std.specs.Prelude.{◌≡◌, ◌≤◌, length, IfOk, IfSome};
ghost use Rattle.xcf_operation.specs.Operation.{head_at, operation_at};
ghost use Rattle.xcf_operation.specs.Parts.{head_read, given, operation_read, DataOf};

use xcf_numbers::fault::Fault;

// A run gives one byte again and again, a copy the bytes that stand in the window.
#[derive(Clone, Copy)]
enum Kind {
    Run,
    Copy,
}

// An opcode with its length bytes: a run or a copy, how many bytes it gives, and where its data starts.
#[derive(Clone, Copy)]
struct Head {
    kind: Kind,
    count: usize,
    body: usize,
}

// What an operation gives: a byte, `count` times, or bytes of the window.
#[derive(Clone, Copy)]
pub enum Bytes<'a> {
    Run { value: u8, count: usize },
    Copy(&'a [u8]),
}

impl Bytes<'_> {
    pub fn len(&self) -> usize
        ensures { result ≡ length (given self.now) }
    {
        match self {
            Bytes::Run { count, .. } => *count,
            Bytes::Copy(bytes) => bytes.len(),
        }
    }
}

// An operation in a stream, and the place behind it.
#[derive(Clone, Copy)]
pub struct Operation<'a> {
    pub bytes: Bytes<'a>,
    pub next: usize,
}

// The head at a place, unless the window ends before it does.
#[tactic(auto, unfolding(crate::specs::Operation::head_at, crate::specs::Operation::head_of))]
fn head_at(window: &[u8], at: usize) -> Option<Head>
    ensures head { head_read result ≡ head_at window.now at }
    ensures inside { IfSome result (λ h. h.body ≤ length window.now) }
{
    match window.get(at..)? {
        [code @ 0..127, ..] => Some(Head {
            kind: Kind::Run,
            count: usize::from(*code) + 1,
            body: at + 1,
        }),
        [code @ 129.., ..] => Some(Head {
            kind: Kind::Copy,
            count: 256 - usize::from(*code),
            body: at + 1,
        }),
        [code, p, q, ..] => Some(Head {
            kind: if *code == 127 { Kind::Run } else { Kind::Copy },
            count: usize::from(u16::from_be_bytes([*p, *q])),
            body: at + 3,
        }),
        _ => None,
    }
}

// The operation at a place of a stream that still takes `left` bytes.
#[tactic(auto, unfolding(crate::specs::Operation::operation_at, crate::specs::Operation::operation_of))]
pub fn operation_at(window: &[u8], at: usize, left: usize) -> Result<Operation<'_>, Fault>
    ensures gives { operation_read result ≡ operation_at window.now at left }
    ensures data { IfOk result (λ o. DataOf window.now (head_at window.now at) o.bytes) }
{
    let Head { kind, count, body } = head_at(window, at).ok_or(Fault::Short)?;
    if left < count {
        return Err(Fault::Overrun);
    }
    let data = &window[body..];
    match kind {
        Kind::Run => {
            let value = *data.first().ok_or(Fault::Short)?;
            Ok(Operation {
                bytes: Bytes::Run { value, count },
                next: body + 1,
            })
        }
        Kind::Copy => {
            let bytes = data.get(..count).ok_or(Fault::Short)?;
            Ok(Operation {
                bytes: Bytes::Copy(bytes),
                next: body + count,
            })
        }
    }
}
