//! Laws of the numbers of blocks.

ghost use Rattle.fiber_step.specs.Numbering.Laws.{BlocksByNumber, NumbersRise, BlocksByNode};

/// Looked up by its number, each block of a script that is read is found.
pub fn blocks_by_number()
    ensures { BlocksByNumber }
{}

/// The numbers of a script's blocks rise in reading order, so that no two have one number.
pub fn numbers_rise()
    ensures { NumbersRise }
{}

/// Where a block begins, the block of the node's number is the one that stands from the node on. One begins at the number of each body, and at each number
/// by which a node names a block.
pub fn blocks_by_node()
    ensures { BlocksByNode }
{}
