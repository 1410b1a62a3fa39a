// A drawable's structure: measured and stored.
#![tactic(auto)]

ghost use Rattle.std.specs.Prelude.{◌≡◌, ◌+◌, ◌≤◌, length};
ghost use Rattle.xcf_numbers.specs.Limit.{name_limit};
ghost use Rattle.xcf_store.specs.Output.{Stores};
ghost use Rattle.xcf_structure.specs.Structure.{name_bytes, list_bytes, drawable_properties, structure_bytes, properties_limit, structure_limit};

use xcf_numbers::flag::{flag_of, flag_set};
use xcf_numbers::{flag, kind, property_type};
use xcf_property::{ListKind, active_type};
use xcf_store::output::Output;
use xcf_table::Row;

fn name_size(name: &[u8]) -> usize
    requires { length name.now ≤ name_limit }
    ensures { (result ≡ length (name_bytes name.now)) × (result ≤ name_limit + 5) }
{
    if name.is_empty() {
        return 4;
    }
    name.len() + 5
}

fn put_name(output: &mut Output<'_>, name: &[u8])
    requires { (length name.now ≤ name_limit) × (output.old.at + length (name_bytes name.now) ≤ length output.old.bytes.now) }
    ensures stores { Stores output.old (name_bytes name.now) output.new }
    ensures same { output.new.bytes.ghost_name ≡ output.old.bytes.ghost_name }
{
    if name.is_empty() {
        output.word(0);
    } else {
        output.word(name.len() as u32 + 1);
        output.bytes(name);
        output.byte(0);
    }
}

// A drawable's row, whether it has a mask, and its name.
#[derive(Clone, Copy)]
pub struct Structure<'a> {
    pub row: Row,
    pub masked: bool,
    pub name: &'a [u8],
    pub ghost short: { length name.now ≤ name_limit },
}

impl Structure<'_> {
    fn list_size(&self) -> usize
        ensures { (result ≡ length (list_bytes (drawable_properties self.now.row self.now.masked))) × (result ≤ properties_limit) }
    {
        let flags = self.row.flags;
        let selection = 8 * usize::from(flag_set(flags, flag::SELECTION));
        let active = 8 * usize::from(flag_set(flags, flag::ACTIVE));
        let apply = 12 * usize::from(self.masked);
        let layer = 28 * usize::from(self.row.kind == kind::LAYER);
        selection + active + 24 + apply + layer + 8
    }

    // The structure's length.
    pub fn size(&self) -> usize
        ensures { (result ≡ length (structure_bytes self.now.row self.now.masked self.now.name.now 0 0)) × (result ≤ structure_limit) }
    {
        let form = 4 * usize::from(self.row.kind == kind::LAYER);
        let named = name_size(self.name);
        let list = self.list_size();
        8 + form + named + list + 4 + form
    }

    fn put_list(&self, output: &mut Output<'_>)
        requires { output.old.at + length (list_bytes (drawable_properties self.now.row self.now.masked)) ≤ length output.old.bytes.now }
        ensures stores { Stores output.old (list_bytes (drawable_properties self.now.row self.now.masked)) output.new }
        ensures same { output.new.bytes.ghost_name ≡ output.old.bytes.ghost_name }
    {
        let row = self.row;
        let selection = flag_set(row.flags, flag::SELECTION);
        output.words_when(selection, &[property_type::SELECTION, 0]);
        let active = flag_set(row.flags, flag::ACTIVE);
        output.words_when(active, &[active_type(ListKind::from(row.kind)), 0]);
        output.words(&[
            property_type::OPACITY,
            4,
            row.opacity,
            property_type::VISIBLE,
            4,
            flag_of(row.flags, flag::VISIBLE),
        ]);
        output.words_when(
            self.masked,
            &[property_type::APPLY, 4, flag_of(row.flags, flag::APPLY)],
        );
        output.words_when(
            row.kind == kind::LAYER,
            &[
                property_type::MODE,
                4,
                row.mode,
                property_type::OFFSETS,
                8,
                row.dx,
                row.dy,
            ],
        );
        output.words(&[property_type::END, 0]);
    }

    // The structure, with the pointers to the drawable's hierarchy and its mask.
    pub fn put(&self, output: &mut Output<'_>, hierarchy: u32, mask: u32)
        requires { output.old.at + length (structure_bytes self.now.row self.now.masked self.now.name.now hierarchy mask) ≤ length output.old.bytes.now }
        ensures stores { Stores output.old (structure_bytes self.now.row self.now.masked self.now.name.now hierarchy mask) output.new }
        ensures same { output.new.bytes.ghost_name ≡ output.old.bytes.ghost_name }
    {
        let row = self.row;
        output.words(&[row.width, row.height]);
        output.words_when(row.kind == kind::LAYER, &[row.form]);
        put_name(output, self.name);
        self.put_list(output);
        output.word(hierarchy);
        output.words_when(row.kind == kind::LAYER, &[mask]);
    }
}
