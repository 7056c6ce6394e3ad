//! The levels above a node of a tree.

ghost use Rattle.std.specs.Prelude.{◌≡◌, List, [], ◌∷◌, ◌++◌, ◌≤◌, length, not, reverse, vec_len, vec_capacity};
ghost use Rattle.gap_box.specs.Narrow.{asset_of};
ghost use Rattle.gap_judge.specs.Walks.{around, pending, parts_to_come, AreLevels};

use gap_box::{Cell, Part, Side, Split};

/// A level above a node: the split there, the cell that it made smaller, and whether the node is on its first side.
#[derive(Clone, Copy, Debug)]
pub struct Level {
    pub split: Split,
    pub replaced: Cell,
    pub in_first: bool,
}

/// The asset that a split speaks of.
pub fn asset_of(split: Split) -> u16
    ensures { result ≡ asset_of split }
{
    match split {
        Split::Held(i) => i,
        Split::Lots(i, _) => i,
    }
}

/// Goes from behind the last node below the inmost level to the next node, where the part becomes that node's. False
/// where there is none. It takes no memory, and a step for each level that it leaves.
pub fn climb(part: &mut Part, levels: &mut Vec<Level>) -> bool
    requires { AreLevels (length part.old) (reverse levels.old.items) }
    ensures next { parts_to_come (not result) part.new (reverse levels.new.items)
        ≡ pending part.old (reverse levels.old.items) }
    ensures kept { AreLevels (length part.new) (reverse levels.new.items) }
{
    while let Some(level) = levels.pop() {
        part.put(asset_of(level.split), level.replaced);
        if level.in_first {
            part.narrow(level.split, Side::Second);
            levels.push_reserved(Level {
                split: level.split,
                replaced: level.replaced,
                in_first: false,
            });
            return true;
        }
    }
    false
}
