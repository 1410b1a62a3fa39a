// The image's structure: measured and stored.
#![tactic(auto)]

ghost use Rattle.std.specs.Prelude.{◌≡◌, cond, [], ◌∷◌, ◌++◌, ◌+◌, ◌≤◌, length, get_or};
ghost use Rattle.xcf_numbers.specs.Limit.{table_rows, image_limit};
ghost use Rattle.xcf_store.specs.Output.{Stores};
ghost use Rattle.xcf_parse.specs.Header.{tags};
ghost use Rattle.xcf_store.specs.Word.{words};
ghost use Rattle.xcf_image.specs.Image.{version_of, kind_places, image_of};
ghost use Rattle.xcf_image.specs.Parts.{rows_from, LowPlaces};

use xcf_numbers::limit::{NEW_MODE, PLACES_SIZE};
use xcf_numbers::{kind, property_type};
use xcf_parse::header::{FILE, MAGIC, V002};
use xcf_store::output::Output;
use xcf_table::canvas::Canvas;
use xcf_table::row_at;

// The length of an image's structure without pointers.
const BARE_SIZE: usize = 51;

fn put_tag(output: &mut Output<'_>, new: bool)
    requires { output.old.at + 5 ≤ length output.old.bytes.now }
    ensures stores { Stores output.old (get_or tags (cond new 2 0) []) output.new }
    ensures same { output.new.bytes.ghost_name ≡ output.old.bytes.ghost_name }
{
    output.bytes(if new { &V002 } else { &FILE });
}

// An image: its canvas, and the rows of a table, as many of them as are used.
#[derive(Clone, Copy)]
pub struct Image<'a> {
    pub canvas: Canvas,
    pub table: &'a [u32],
    pub used: u32,
    pub ghost few: { used ≤ table_rows },
}

impl Image<'_> {
    // How many of the rows are of a kind.
    fn count(&self, kind: u32) -> usize
        ensures { (result ≡ length (kind_places kind (rows_from self.now.table.now self.now.used 0) [])) × (result ≤ table_rows) }
    {
        let mut count = 0;
        for k in 0..self.used {
            count += usize::from(row_at(self.table, k).kind == kind);
        }
        count
    }

    // The length of the image's structure.
    pub fn size(&self) -> usize
        ensures { (result ≡ length (image_of self.now.canvas (rows_from self.now.table.now self.now.used 0) [])) × (result ≤ image_limit) }
    {
        BARE_SIZE + 4 * self.count(kind::LAYER) + 4 * self.count(kind::CHANNEL)
    }

    // Whether one of the rows has a mode above 18, which makes the file's version 2.
    fn has_new_mode(&self) -> bool
        ensures { cond result 2 0 ≡ version_of (rows_from self.now.table.now self.now.used 0) }
    {
        (0..self.used).any(|k| NEW_MODE <= row_at(self.table, k).mode)
    }

    // The places of those rows that are of a kind, and a 0.
    fn put_pointers(&self, output: &mut Output<'_>, kind: u32, places: &[usize; PLACES_SIZE])
        requires low_places { LowPlaces places.now self.now.used }
        requires room { output.old.at + length (words (kind_places kind (rows_from self.now.table.now self.now.used 0) places.now ++ (0 ∷ []))) ≤ length output.old.bytes.now }
        ensures stores { Stores output.old (words (kind_places kind (rows_from self.now.table.now self.now.used 0) places.now ++ (0 ∷ []))) output.new }
        ensures same { output.new.bytes.ghost_name ≡ output.old.bytes.ghost_name }
    {
        for k in 0..self.used {
            let row = row_at(self.table, k);
            let place = places[k as usize] as u32;
            output.words_when(row.kind == kind, &[place]);
        }
        output.word(0);
    }

    // The image's structure.
    pub fn put(&self, output: &mut Output<'_>, places: &[usize; PLACES_SIZE])
        requires low_places { LowPlaces places.now self.now.used }
        requires room { output.old.at + length (image_of self.now.canvas (rows_from self.now.table.now self.now.used 0) places.now) ≤ length output.old.bytes.now }
        ensures stores { Stores output.old (image_of self.now.canvas (rows_from self.now.table.now self.now.used 0) places.now) output.new }
        ensures same { output.new.bytes.ghost_name ≡ output.old.bytes.ghost_name }
    {
        let canvas = self.canvas;
        output.bytes(&MAGIC);
        put_tag(output, self.has_new_mode());
        output.words(&[
            canvas.width,
            canvas.height,
            canvas.base,
            property_type::COMPRESSION,
            1,
        ]);
        output.byte(1);
        output.words(&[property_type::END, 0]);
        self.put_pointers(output, kind::LAYER, places);
        self.put_pointers(output, kind::CHANNEL, places);
    }
}
