use fixed_words::List;

/// A planned step of a component: the row of the run at which it begins, its local time and step, and the words of its inputs. Its
/// state is that after the step of the cell before.
#[derive(Debug, Drop)]
pub struct Cell {
    pub row: u64,
    /// The local time at the beginning of the step, in local ticks.
    pub time: u64,
    /// The length of the step, in local ticks.
    pub step: u64,
    pub inputs: List<i64>,
}
