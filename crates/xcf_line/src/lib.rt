// The lines of a listing that are about the whole file.
#![tactic(auto)]

ghost use Rattle.std.specs.Prelude.{◌≡◌, ◌+◌, ◌≤◌, length};
ghost use Rattle.xcf_text.specs.Stores.{StoresWithin};
ghost use Rattle.xcf_text.specs.Text.{line_size};
ghost use Rattle.xcf_line.specs.Line.{refused_line, canvas_line};

use xcf_read::ReadAnswer;
use xcf_store::output::Output;
use xcf_text::{put_labelled, put_last, put_spaced};

pub fn put_refusal(text: &mut Output<'_>, number: u64, place: u64)
    requires { text.old.at + line_size ≤ length text.old.bytes.now }
    ensures stores { StoresWithin text.old (refused_line number place) line_size text.new }
    ensures same { text.new.bytes.ghost_name ≡ text.old.bytes.ghost_name }
{
    put_labelled(text, b"refused", number);
    put_last(text, b" at", place);
}

pub fn put_canvas(text: &mut Output<'_>, answer: ReadAnswer)
    requires { text.old.at + line_size ≤ length text.old.bytes.now }
    ensures stores { StoresWithin text.old (canvas_line answer) line_size text.new }
    ensures same { text.new.bytes.ghost_name ≡ text.old.bytes.ghost_name }
{
    put_labelled(text, b"canvas", answer.width);
    put_spaced(text, answer.height);
    put_labelled(text, b" base", answer.base);
    put_labelled(text, b" version", answer.version);
    put_labelled(text, b" compression", answer.compression);
    put_last(text, b" rows", answer.rows);
}
