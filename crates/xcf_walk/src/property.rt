// Property lists: one reader and one loop for the image's, a layer's, a mask's and a channel's.
ghost use Rattle.std.specs.Prelude.{◌≡◌};
ghost use Rattle.xcf_property.specs.List.{list_number};
ghost use Rattle.xcf_walk.specs.Property.{payload, colour_map, content, property, property_turn, properties};
ghost use Rattle.xcf_walk.specs.Cursor.{WalksBy, Walks};
ghost use Rattle.xcf_walk.specs.Parts.{turn_of};

use crate::cursor::Cursor;
use xcf_numbers::limit::COLOUR_LIMIT;
use xcf_numbers::property_type;
use xcf_numbers::reason::{Reason, Refusal};
use xcf_property::{
    Content, ListKind, Properties, allowed, content_of, is_colour_map, is_floating, lacks_map,
    length_ok, map_length_ok,
};

// A property: its type, the place of its type word, the place of its payload, what its length word says, and its content.
#[derive(Clone, Copy)]
pub struct Property {
    pub kind: u32,
    pub start: usize,
    pub place: usize,
    pub length: usize,
    pub content: Content,
}

impl<'a> Cursor<'a> {
    // A payload whose length its type allows. Here and below, at is the place of the length word, and n what it says.
    #[tactic(auto, using(crate::proofs::Walks::steps), unfolding(crate::specs::Property::payload))]
    fn payload(&mut self, size: usize, kind: u32, at: usize, n: u32) -> Result<Content, Refusal>
        ensures { Walks (payload size kind at n) self.old result self.new }
    {
        let right = length_ok(kind, n, size);
        self.check(right, Reason::BadLength, at)?;
        let bytes = self.bytes(n as usize)?;
        Ok(content_of(bytes, 0, bytes.len()))
    }

    // The image's colour map; a map whose length word says too little still has three bytes for each colour.
    #[tactic(auto, using(crate::proofs::Walks::steps), unfolding(crate::specs::Property::colour_map))]
    fn colour_map(&mut self, at: usize, n: u32) -> Result<Content, Refusal>
        ensures { Walks (colour_map at n) self.old result self.new }
    {
        self.check(4 <= n, Reason::BadLength, at)?;
        let start = self.at;
        let count = self.word()?;
        self.check(count <= COLOUR_LIMIT, Reason::BadContent, start)?;
        self.check(map_length_ok(count, n), Reason::BadLength, at)?;
        self.bytes(3 * count as usize)?;
        Ok(Content {
            first: count,
            second: 0,
        })
    }

    #[tactic(auto, unfolding(crate::specs::Property::content))]
    fn content(
        &mut self,
        size: usize,
        list: ListKind,
        kind: u32,
        at: usize,
        n: u32,
    ) -> Result<Content, Refusal>
        ensures { Walks (content size (list_number list) kind at n) self.old result self.new }
    {
        if is_colour_map(list, kind) {
            self.colour_map(at, n)
        } else {
            self.payload(size, kind, at, n)
        }
    }

    // Type, length and payload; the list says whose list it is.
    #[tactic(auto, using(crate::proofs::Walks::steps), unfolding(crate::specs::Property::property))]
    pub fn property(&mut self, size: usize, list: ListKind) -> Result<Property, Refusal>
        ensures { Walks (property size (list_number list)) self.old result self.new }
    {
        let start = self.at;
        let kind = self.word()?;
        let at = self.at;
        let n = self.word()?;
        let place = self.at;
        let content = self.content(size, list, kind, at, n)?;
        Ok(Property {
            kind,
            start,
            place,
            length: n as usize,
            content,
        })
    }

    // The next property of a list that says p so far, or none at its end.
    #[tactic(auto, using(crate::proofs::Walks::steps), unfolding(crate::specs::Property::property_turn))]
    fn next_property(
        &mut self,
        size: usize,
        list: ListKind,
        p: Properties,
    ) -> Result<Option<Property>, Refusal>
        ensures { WalksBy (turn_of (list_number list) p) (property_turn size (list_number list) p) self.old result self.new }
    {
        let x = self.property(size, list)?;
        self.check(!is_floating(list, x.kind), Reason::Floating, x.start)?;
        self.check(!lacks_map(x.kind, p), Reason::BadContent, x.start)?;
        self.check(
            allowed(list, x.kind, x.content.first),
            Reason::BadContent,
            x.place,
        )?;
        if x.kind == property_type::END {
            Ok(None)
        } else {
            Ok(Some(x))
        }
    }

    // A whole list; unmapped is 1 for an indexed image, whose list must hold a colour map.
    pub fn properties(
        &mut self,
        size: usize,
        list: ListKind,
        unmapped: u32,
    ) -> Result<Properties, Refusal>
        ensures { Walks (properties size (list_number list) unmapped) self.old result self.new }
    {
        let mut p = Properties::defaults(list, unmapped);
        while let Some(x) = self.next_property(size, list, p)? {
            p = p.put(list, x.kind, x.content);
        }
        Ok(p)
    }
}
