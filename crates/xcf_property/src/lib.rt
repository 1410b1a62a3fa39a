// Properties: what each type's payload may be, and what a list says.
#![tactic(auto)]

ghost use Rattle.std.specs.Prelude.{◌≡◌, ◌+◌, ◌≤◌, cond, length, eqb};
ghost use Rattle.xcf_store.specs.Word.{part, word_of};
ghost use Rattle.xcf_property.specs.List.{list_number, ListOf};
ghost use Rattle.xcf_property.specs.Property.{length_ok, content_of, is_colour_map, map_length_ok, is_floating, lacks_map, allowed, defaults, active_type, put, no_properties, image_list, layer_list};

use xcf_numbers::limit::FULL_OPACITY;
use xcf_numbers::{kind, property_type};
use xcf_store::word::word_at;

// A payload's only byte or its first word, and its second word; of a colour map, its count.
#[derive(Clone, Copy)]
pub struct Content {
    pub first: u32,
    pub second: u32,
}

// What a list says, for all four kinds of list. All are numbers, also those that are 0 or 1: `put` and the flags of rows
// (`xcf_row`) speak of numbers, and where a list's rule does not ask for 0 or 1, a file may hold another.
#[derive(Clone, Copy, Default)]
pub struct Properties {
    pub compression: u32,
    pub unmapped: u32,
    pub opacity: u32,
    pub mode: u32,
    pub visible: u32,
    pub apply: u32,
    pub dx: u32,
    pub dy: u32,
    pub active: u32,
    pub selection: u32,
    pub group: u32,
}

// Whose list it is: the image's, or a drawable's.
#[derive(Clone, Copy, Debug, PartialEq, Eq)]
pub enum ListKind {
    Image = 0,
    Layer = 1,
    Mask = 2,
    Channel = 3,
}

// By a row's kind. Rules tell only the image's list and a layer's from the others, so a number that is no kind goes with
// the channels.
impl From<u32> for ListKind {
    ghost from_gives = { ListOf };

    fn from(kind: u32) -> ListKind {
        match kind {
            kind::UNUSED => ListKind::Image,
            kind::LAYER => ListKind::Layer,
            kind::MASK => ListKind::Mask,
            _ => ListKind::Channel,
        }
    }
}

// Whether a payload of this type may have n bytes where a pointer has `size`. Some types of the format are skipped by
// their length, and so are all that it does not have.
#[tactic(auto, using(crate::proofs::Lengths::skipped), unfolding(crate::specs::Property::length_ok))]
pub fn length_ok(kind: u32, n: u32, size: usize) -> bool
    ensures { result ≡ length_ok size kind n }
{
    match kind {
        property_type::FLOATING => n == 4 || n as usize == size,
        0 | 2..=4 | 29 => n == 0,
        6..=14 | 20 | 22 => n == 4,
        15 | 19 => n == 8,
        16 => n == 3,
        property_type::COMPRESSION => n == 1,
        1 | 18 | 21 | 23..=28 => true,
        30.. => true,
    }
}

// The word at i of a payload; 0 where the payload is too short.
#[tactic(auto, unfolding(xcf_store::specs::Word::word_of))]
fn word_of(payload: &[u8], i: usize) -> u32
    requires { i ≤ 4 }
    ensures { result ≡ word_of payload.now i }
{
    if i + 4 <= payload.len() {
        word_at(payload, i)
    } else {
        0
    }
}

// The only byte of a payload, or its first word.
#[tactic(auto, unfolding(crate::specs::Property::content_of))]
fn first_of(payload: &[u8]) -> u32
    ensures { result ≡ (content_of payload.now).first }
{
    match payload {
        [byte] => u32::from(*byte),
        _ => word_of(payload, 0),
    }
}

#[tactic(auto, unfolding(crate::specs::Property::content_of))]
pub fn content_of(file: &[u8], place: usize, n: usize) -> Content
    requires { place + n ≤ length file.now }
    ensures { result ≡ content_of (part file.now place n) }
{
    let payload = &file[place..place + n];
    Content {
        first: first_of(payload),
        second: word_of(payload, 4),
    }
}

#[tactic(auto, unfolding(crate::specs::Property::is_colour_map))]
pub fn is_colour_map(list: ListKind, kind: u32) -> bool
    ensures { result ≡ is_colour_map (list_number list) kind }
{
    list == ListKind::Image && kind == property_type::COLOUR_MAP
}

// Whether a map of count colours may have a length word of n.
#[tactic(auto, unfolding(crate::specs::Property::map_length_ok))]
pub fn map_length_ok(count: u32, n: u32) -> bool
    ensures { result ≡ map_length_ok count n }
{
    let colours = count as usize;
    let size = n as usize;
    size == 3 * colours + 4 || size == colours + 4
}

#[tactic(auto, unfolding(crate::specs::Property::is_floating))]
pub fn is_floating(list: ListKind, kind: u32) -> bool
    ensures { result ≡ is_floating (list_number list) kind }
{
    list == ListKind::Layer && kind == property_type::FLOATING
}

#[tactic(auto, unfolding(crate::specs::Property::lacks_map))]
pub fn lacks_map(kind: u32, p: Properties) -> bool
    ensures { result ≡ lacks_map kind p }
{
    kind == property_type::END && p.unmapped == 1
}

// Whether a property of this type may have the content v.
#[tactic(auto, unfolding(crate::specs::Property::allowed))]
pub fn allowed(list: ListKind, kind: u32, v: u32) -> bool
    ensures { result ≡ allowed (list_number list) kind v }
{
    match (list, kind) {
        (ListKind::Image, property_type::COMPRESSION) => v <= 1,
        (ListKind::Image, _) => true,
        (_, property_type::OPACITY) => v <= FULL_OPACITY,
        (_, property_type::VISIBLE) => v <= 1,
        (ListKind::Layer, property_type::APPLY) => v <= 1,
        _ => true,
    }
}

#[tactic(auto, unfolding(crate::specs::Property::active_type))]
pub fn active_type(list: ListKind) -> u32
    ensures { result ≡ active_type (list_number list) }
{
    match list {
        ListKind::Layer => property_type::ACTIVE_LAYER,
        _ => property_type::ACTIVE_CHANNEL,
    }
}

fn visible_unsaid(list: ListKind) -> u32
    ensures { result ≡ cond (eqb (list_number list) layer_list) 1 0 }
{
    match list {
        ListKind::Layer => 1,
        _ => 0,
    }
}

impl Properties {
    // What a list says that says nothing: every number is 0.
    pub fn none() -> Properties
        ensures { result ≡ no_properties }
    {
        Properties::default()
    }

    // What holds where the list says nothing.
    pub fn defaults(list: ListKind, unmapped: u32) -> Properties
        ensures { result ≡ defaults (list_number list) unmapped }
    {
        Properties {
            unmapped,
            opacity: FULL_OPACITY,
            visible: visible_unsaid(list),
            apply: 1,
            ..Properties::none()
        }
    }

    // The list after one more property.
    #[tactic(auto, unfolding(crate::specs::Property::put))]
    pub fn put(self, list: ListKind, kind: u32, content: Content) -> Properties
        ensures { result ≡ put (list_number list) kind content self }
    {
        let mut p = self;
        if kind == active_type(list) {
            p.active = 1;
            return p;
        }
        match kind {
            property_type::COMPRESSION => p.compression = content.first,
            property_type::COLOUR_MAP => p.unmapped = 0,
            property_type::OPACITY => p.opacity = content.first,
            property_type::MODE => p.mode = content.first,
            property_type::VISIBLE => p.visible = content.first,
            property_type::APPLY => p.apply = content.first,
            property_type::OFFSETS => {
                p.dx = content.first;
                p.dy = content.second;
            }
            property_type::SELECTION => p.selection = 1,
            property_type::GROUP_ITEM => p.group = 1,
            _ => {}
        }
        p
    }
}
