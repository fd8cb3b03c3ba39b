/// A row between two variables, by their indices: `y - x <= w`, in ticks.
#[derive(Clone, Copy, Debug, PartialEq, Eq)]
pub struct Row {
    pub y: u32,
    pub x: u32,
    pub w: i64,
}

/// A simple temporal network: the least and the greatest tick of each variable, and rows between
/// variables.
///
/// Dechter, Meiri and Pearl, 'Temporal constraint networks', 1991.
#[derive(Debug, Drop)]
pub struct Net {
    pub low: Vec<u64>,
    pub high: Vec<u64>,
    pub rows: Vec<Row>,
}
