// The row table: 128 rows of 16 numbers in a lent slice.
#![tactic(auto)]

pub mod canvas;

ghost use Rattle.std.specs.Prelude.{◌≡◌};
ghost use Rattle.xcf_table.specs.Table.{NumbersOf, RowOf, IsUnused, put_row, row_at, clear_from};

use xcf_numbers::limit::ROW_SIZE;

// A drawable's row, fields 0 to 15: form is its type, name and namelen are the place and the number of its name's bytes,
// list and pointers the places of its properties and of its first tile pointer, and count the number of its tiles.
#[derive(Clone, Copy)]
pub struct Row {
    pub kind: u32,
    pub width: u32,
    pub height: u32,
    pub depth: u32,
    pub form: u32,
    pub name: u32,
    pub namelen: u32,
    pub list: u32,
    pub pointers: u32,
    pub count: u32,
    pub opacity: u32,
    pub flags: u32,
    pub dx: u32,
    pub dy: u32,
    pub mode: u32,
    pub owner: u32,
}

impl From<Row> for [u32; ROW_SIZE] {
    ghost from_gives = { NumbersOf };

    fn from(row: Row) -> [u32; ROW_SIZE] {
        [
            row.kind,
            row.width,
            row.height,
            row.depth,
            row.form,
            row.name,
            row.namelen,
            row.list,
            row.pointers,
            row.count,
            row.opacity,
            row.flags,
            row.dx,
            row.dy,
            row.mode,
            row.owner,
        ]
    }
}

impl From<[u32; ROW_SIZE]> for Row {
    ghost from_gives = { RowOf };

    fn from(numbers: [u32; ROW_SIZE]) -> Row {
        Row {
            kind: numbers[0],
            width: numbers[1],
            height: numbers[2],
            depth: numbers[3],
            form: numbers[4],
            name: numbers[5],
            namelen: numbers[6],
            list: numbers[7],
            pointers: numbers[8],
            count: numbers[9],
            opacity: numbers[10],
            flags: numbers[11],
            dx: numbers[12],
            dy: numbers[13],
            mode: numbers[14],
            owner: numbers[15],
        }
    }
}

impl Default for Row {
    ghost is_default = { IsUnused };

    fn default() -> Row {
        Row::from([0; ROW_SIZE])
    }
}

// A row becomes row k of the table, if the table has such a row.
pub fn put_row(table: &mut [u32], k: u32, row: Row)
    ensures { table.new ≡ put_row table.old k row }
{
    let at = ROW_SIZE * (k as usize);
    if at + ROW_SIZE <= table.len() {
        let numbers: [u32; ROW_SIZE] = row.into();
        table[at..at + ROW_SIZE].copy_from_slice(&numbers);
    }
}

// Row k of the table, or an unused row if the table has no such row.
pub fn row_at(table: &[u32], k: u32) -> Row
    ensures { result ≡ row_at table.now k }
{
    let start = ROW_SIZE * (k as usize);
    if start + ROW_SIZE <= table.len() {
        let mut numbers = [0; ROW_SIZE];
        numbers.copy_from_slice(&table[start..start + ROW_SIZE]);
        return Row::from(numbers);
    }
    Row::default()
}

// The numbers from row k on become zero.
pub fn clear_from(table: &mut [u32], k: u32)
    ensures { table.new ≡ clear_from table.old k }
{
    let first = ROW_SIZE * (k as usize);
    if first < table.len() {
        table[first..].fill(0);
    }
}
