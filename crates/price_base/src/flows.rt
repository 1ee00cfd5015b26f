ghost use Rattle.std.specs.Prelude.{◌≡◌, length};
ghost use Rattle.std.specs.List.{All};
ghost use Rattle.price_base.specs.Cells.{IsFlow};

use crate::Cell;
use std::marker::Model;

/// A list of cells, quarter by quarter or year by year, from the first one on. Contracts see the list.
#[derive(Debug, Drop)]
pub struct Cells {
    cells: Vec<Cell>,
}

impl Model for Cells {
    ghost use Rattle.std.specs.Prelude.{List};
    ghost use Rattle.price_base.specs.declared.Cell.{Cell};

    ghost Value = { List Cell };

    ghost view = { λ c. c.cells.items };
}

impl From<Vec<Cell>> for Cells {
    ghost use Rattle.std.specs.Prelude.{◌≡◌};

    ghost from_gives = { λ cells list. list ≡ cells.items };

    fn from(cells: Vec<Cell>) -> Self {
        Cells { cells }
    }
}

impl Cells {
    ghost use Rattle.std.specs.Prelude.{◌≡◌, ◌==◌, length};

    /// How many cells there are.
    pub fn len(&self) -> usize
        ensures len { result ≡ length self.now }
    {
        self.cells.len()
    }

    /// Whether there is no cell.
    pub fn is_empty(&self) -> bool
        ensures empty { result ≡ (length self.now == 0) }
    {
        self.cells.is_empty()
    }

    /// The cells.
    pub fn as_slice(&self) -> &[Cell]
        ensures cells { result.now ≡ self.now }
    {
        self.cells.as_slice()
    }

    /// The cells, given back without memory.
    pub fn into_vec(self) -> Vec<Cell>
        ensures cells { result.items ≡ self }
    {
        let Cells { cells } = self;
        cells
    }
}

/// An item's cells, quarter by quarter from the first quarter of the start year on: its values in whole currency units,
/// and its volumes at previous-year prices in the same unit. The two lists are equally long, and no cell is `NoLink`,
/// which is a mark of years.
#[derive(Debug, Drop)]
pub struct NodeFlows {
    pub value: Cells,
    pub prev: Cells,
    pub ghost same_length: { length value ≡ length prev },
    pub ghost value_flows: { All IsFlow value },
    pub ghost prev_flows: { All IsFlow prev },
}

impl NodeFlows {
    ghost use Rattle.std.specs.Prelude.{◌≡◌, length};

    /// The two lists as an item's flows.
    pub fn new(value: Cells, prev: Cells) -> Self
        requires same_length { length value ≡ length prev }
        requires value_flows { All IsFlow value }
        requires prev_flows { All IsFlow prev }
        ensures value { result.value ≡ value }
        ensures prev { result.prev ≡ prev }
    {
        NodeFlows { value, prev }
    }
}
