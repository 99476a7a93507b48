// The records of a loading condition, and what stands in their unused places.
#![tactic(auto)]

ghost use Rattle.std.specs.Prelude.{◌≡◌};
ghost use Rattle.record.specs.Held.{edge, cell_width, cell_lip, cells_of, parts_of, held};
ghost use Rattle.record.specs.Filler.{no_cell, no_slack, no_part, no_hold, no_column, no_columns, no_sums};

// The rule that judges the ship, each with its edge, as document 01 has it: the angle of deck-edge immersion, in hundredths of a degree.
#[derive(Clone, Copy)]
pub enum Rule {
    New(u16),
    Old(u16),
}

impl Rule {
    pub fn edge(self) -> u16
        ensures { result ≡ edge self }
    {
        match self {
            Rule::New(e) | Rule::Old(e) => e,
        }
    }
}

// FLOOD is the angle of flooding.
#[derive(Clone, Copy)]
pub struct Ship {
    pub rule: Rule,
    pub flood: u16,
}

// Displacement in tonnes; KG and the free-surface rise FS in mm.
#[derive(Clone, Copy)]
pub struct Load {
    pub d: u32,
    pub kg: u16,
    pub fs: u16,
}

// A displacement, with KM and the ten cross-curve values KN in mm.
#[derive(Clone, Copy)]
pub struct Column {
    pub d: u32,
    pub km: u16,
    pub kn: [u16; 10],
}

// The columns held: the first `count` of the twenty places. Fixed places with a count: the service holds a condition for five years in memory
// that never grows, and takes no heap.
#[derive(Clone, Copy)]
pub struct Columns {
    pub count: u8,
    pub places: [Column; 20],
}

impl Columns {
    pub fn held(&self) -> &[Column]
        ensures { result.now ≡ held self.now }
    {
        &self.places[..(self.count as usize).min(self.places.len())]
    }
}

#[derive(Clone, Copy, Debug, PartialEq, Eq)]
pub enum Mode {
    Trimmed,
    Voided,
    Partial,
}

// A cell of a trimmed section; lengths in mm.
#[derive(Clone, Copy)]
pub enum Cell {
    Wing {
        width: u16,
        dist: u16,
        girder: u16,
        lip: u16,
    },
    Hatch {
        width: u16,
        opening: u16,
        lip: u16,
    },
    Void {
        width: u16,
        depth: u16,
        lip: u16,
    },
}

impl Cell {
    pub fn width(self) -> u16
        ensures { result ≡ cell_width self }
    {
        match self {
            Cell::Wing { width, .. } | Cell::Hatch { width, .. } | Cell::Void { width, .. } =>
                width,
        }
    }

    pub fn lip(self) -> u16
        ensures { result ≡ cell_lip self }
    {
        match self {
            Cell::Wing { lip, .. } | Cell::Hatch { lip, .. } | Cell::Void { lip, .. } => lip,
        }
    }
}

// The sizes of a partly filled part, in mm: of a section from side to side; or the run of a longitudinal board, and the breadths to the left
// and to the right of it.
#[derive(Clone, Copy)]
pub enum Slack {
    Undivided { breadth: u16, void: u16, grain: u16 },
    Split { run: u16, left: u16, right: u16 },
}

// A part of a hold: a trimmed or voided one has cells, the first `count` of the eight places, fixed as those of columns; a partly filled one
// has the sizes of its slack.
#[derive(Clone, Copy)]
pub struct Part {
    pub length: u16,
    pub slack: Slack,
    pub count: u8,
    pub cells: [Cell; 8],
}

impl Part {
    pub fn own_cells(&self) -> &[Cell]
        ensures { result.now ≡ cells_of self.now }
    {
        &self.cells[..(self.count as usize).min(self.cells.len())]
    }
}

// A hold's mode, stowage factor and number of parts: none where no hold is held.
#[derive(Clone, Copy)]
pub struct Head {
    pub mode: Mode,
    pub factor: u16,
    pub count: u8,
}

// Its parts are the first of the six places, fixed as those of columns.
#[derive(Clone, Copy)]
pub struct Hold {
    pub head: Head,
    pub parts: [Part; 6],
}

impl Hold {
    pub fn own_parts(&self) -> &[Part]
        ensures { result.now ≡ parts_of self.now }
    {
        &self.parts[..(self.head.count as usize).min(self.parts.len())]
    }
}

// A weight of the ship: tonnes, at a height in mm above the keel, as KG.
#[derive(Clone, Copy)]
pub struct WeightItem {
    pub tonnes: u32,
    pub height: u16,
}

// The sums of weight items: their tonnes, and the products of tonnes and height.
#[derive(Clone, Copy)]
pub struct ItemSums {
    pub tonnes: u32,
    pub products: u64,
}

// What a line of weights asks for: one item more; the load that the items make, with this free-surface rise; to remove all items.
#[derive(Clone, Copy)]
pub enum Weighing {
    Weight(WeightItem),
    Weighed(u16),
    Unweigh,
}

// What unused places hold. Not by `Default`: a cell's would be written by hand as here, since it has no case without fields, and `no_hold()` says what
// `Hold::default()` would not, that nothing is held there.
fn no_cell() -> Cell
    ensures { result ≡ no_cell }
{
    Cell::Void {
        width: 0,
        depth: 0,
        lip: 0,
    }
}

fn no_slack() -> Slack
    ensures { result ≡ no_slack }
{
    Slack::Undivided {
        breadth: 0,
        void: 0,
        grain: 0,
    }
}

pub fn no_part() -> Part
    ensures { result ≡ no_part }
{
    let cells = [no_cell(); 8];
    Part {
        length: 0,
        slack: no_slack(),
        count: 0,
        cells,
    }
}

pub fn no_hold() -> Hold
    ensures { result ≡ no_hold }
{
    let parts = [no_part(); 6];
    let head = Head {
        mode: Mode::Trimmed,
        factor: 0,
        count: 0,
    };
    Hold { head, parts }
}

pub fn no_column() -> Column
    ensures { result ≡ no_column }
{
    let kn = [0u16; 10];
    Column { d: 0, km: 0, kn }
}

pub fn no_columns() -> Columns
    ensures { result ≡ no_columns }
{
    let places = [no_column(); 20];
    Columns { count: 0, places }
}

// The sums of no items.
pub fn no_sums() -> ItemSums
    ensures { result ≡ no_sums }
{
    ItemSums {
        tonnes: 0,
        products: 0,
    }
}
