// A drawable: measured and stored.
#![tactic(auto)]

mod tile;

ghost use Rattle.std.specs.Prelude.{◌≡◌, cond, ◌+◌, ◌*◌, ◌≤◌, length};
ghost use mathlib.Core.List.{◌++◌, flatten};
ghost use Rattle.xcf_numbers.specs.Limit.{drawable_limit, file_limit};
ghost use Rattle.xcf_store.specs.Output.{Stores};
ghost use Rattle.xcf_store.specs.Put.{Put};
ghost use Rattle.xcf_store.specs.Word.{word_bytes, words};
ghost use Rattle.xcf_structure.specs.Structure.{level_bytes};
ghost use Rattle.xcf_drawable.specs.Drawable.{row_tiles, starts, level_size, drawable_size, drawable_bytes};
ghost use Rattle.xcf_drawable.specs.Parts.{Space, drawn, Writable, encodings_limit};

use xcf_numbers::limit::{ENCODED_SIZE, TILE_SIZE};
use xcf_store::output::Output;
use xcf_structure::Structure;

// The length of a hierarchy.
const HIERARCHY_SIZE: usize = 20;

// A drawable to be written: what its structure says, and its pixels.
#[derive(Clone, Copy)]
pub struct Drawing<'a> {
    pub structure: Structure<'a>,
    pub pixels: &'a [u8],
    pub ghost writable: { Writable (drawn structure.row structure.masked structure.name.now pixels.now) },
}

impl Drawing<'_> {
    ghost use Rattle.xcf_drawable.specs.Drawing.{drawable_of};

    // The length of the tiles' encodings.
    fn measure_tiles(&self) -> usize
        ensures { (result ≡ length (flatten (row_tiles self.now.structure.row self.now.pixels.now))) × (result ≤ encodings_limit) }
    {
        let mut tile = [0u8; TILE_SIZE];
        let mut encoded = [0u8; ENCODED_SIZE];
        let mut size = 0;
        for t in 0..self.structure.row.count {
            size += self.encode(t, &mut tile, &mut encoded);
        }
        size
    }

    // The length of all that is stored for the drawable.
    pub fn measure(&self) -> usize
        ensures { (result ≡ drawable_size (drawable_of self.now)) × (result ≤ drawable_limit) }
    {
        let structure = self.structure.size();
        let tiles = self.measure_tiles();
        structure + HIERARCHY_SIZE + 4 * (self.structure.row.count as usize + 3) + tiles
    }

    // The tiles' encodings, the first of which stands in the file at `first` behind the start of `tiles`, and their pointers.
    fn put_tiles(&self, links: &mut Output<'_>, tiles: &mut Output<'_>, first: usize)
        requires links { links.old.at + 4 * self.now.structure.row.count ≤ length links.old.bytes.now }
        requires tiles { tiles.old.at + length (flatten (row_tiles self.now.structure.row self.now.pixels.now)) ≤ length tiles.old.bytes.now }
        requires low { first + (tiles.old.at + length (flatten (row_tiles self.now.structure.row self.now.pixels.now))) ≤ file_limit }
        ensures links { Stores links.old (words (starts (row_tiles self.now.structure.row self.now.pixels.now) (first + tiles.old.at))) links.new }
        ensures same_links { links.new.bytes.ghost_name ≡ links.old.bytes.ghost_name }
        ensures tiles { Stores tiles.old (flatten (row_tiles self.now.structure.row self.now.pixels.now)) tiles.new }
        ensures same_tiles { tiles.new.bytes.ghost_name ≡ tiles.old.bytes.ghost_name }
    {
        let mut tile = [0u8; TILE_SIZE];
        for t in 0..self.structure.row.count {
            links.word((first + tiles.at) as u32);
            tiles.at += self.encode(t, &mut tile, &mut tiles.bytes[tiles.at..]);
        }
    }

    // The tiles' pointers and the word that closes them, from `link` on, and the tiles behind them: the output is cut between the two,
    // so that pointers and tiles are stored by turns.
    fn put_cut(&self, output: &mut [u8], link: usize) -> usize
        requires { Space output.old link (4 * (self.now.structure.row.count + 1) + length (flatten (row_tiles self.now.structure.row self.now.pixels.now))) }
        ensures { Put output.old link (words (starts (row_tiles self.now.structure.row self.now.pixels.now) (link + 4 * (self.now.structure.row.count + 1))) ++ (word_bytes 0 ++ flatten (row_tiles self.now.structure.row self.now.pixels.now))) result output.new }
    {
        let first = link + 4 * (self.structure.row.count as usize + 1);
        let (level, behind) = output.split_at_mut(first);
        let mut links = Output {
            bytes: level,
            at: link,
        };
        let mut tiles = Output {
            bytes: behind,
            at: 0,
        };
        self.put_tiles(&mut links, &mut tiles, first);
        links.word(0);
        first + tiles.at
    }

    // The level and the tiles behind it.
    fn put_level(&self, output: &mut Output<'_>)
        requires { Space output.old.bytes.now output.old.at (level_size self.now.structure.row.count + length (flatten (row_tiles self.now.structure.row self.now.pixels.now))) }
        ensures stores { Stores output.old (level_bytes self.now.structure.row (starts (row_tiles self.now.structure.row self.now.pixels.now) (output.old.at + level_size self.now.structure.row.count)) ++ flatten (row_tiles self.now.structure.row self.now.pixels.now)) output.new }
        ensures same { output.new.bytes.ghost_name ≡ output.old.bytes.ghost_name }
    {
        let row = self.structure.row;
        output.words(&[row.width, row.height]);
        output.at = self.put_cut(output.bytes, output.at);
    }

    // The drawable with all that belongs to it; mask is the place of its mask, or 0.
    pub fn put(&self, output: &mut Output<'_>, mask: usize)
        requires space { Space output.old.bytes.now output.old.at (drawable_size (drawable_of self.now)) }
        requires mask_value { mask ≡ cond self.now.structure.masked (output.old.at + drawable_size (drawable_of self.now)) 0 }
        ensures stores { Stores output.old (drawable_bytes (drawable_of self.now) output.old.at) output.new }
        ensures same { output.new.bytes.ghost_name ≡ output.old.bytes.ghost_name }
    {
        let row = self.structure.row;
        let hierarchy = output.at + self.structure.size();
        let level = hierarchy + HIERARCHY_SIZE;
        self.structure.put(output, hierarchy as u32, mask as u32);
        output.words(&[row.width, row.height, row.depth, level as u32, 0]);
        self.put_level(output);
    }
}
