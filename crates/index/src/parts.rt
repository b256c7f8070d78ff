// One node of the table of parts, with every number that it names tested (document 01, refusal 15).
ghost use Rattle.std.specs.Prelude.{◌≡◌, ◌≤◌, length};
ghost use Rattle.index.specs.Parts.{part_of_row, PartSays, ChildSays};

use crate::build::LEAF;
use rules::Unsound;

/// A node's part of the edge list, and the place of its left child, next to which its right child stands.
#[derive(Clone, Copy, PartialEq, Eq)]
pub struct Part {
    pub first: usize,
    pub count: usize,
    pub child: usize,
}

impl From<[usize; 3]> for Part {
    ghost use Rattle.std.specs.Prelude.{◌≡◌};
    ghost use Rattle.index.specs.Parts.{part_of_row};

    ghost from_gives = { λ row part. part ≡ part_of_row row };

    fn from(row: [usize; 3]) -> Self {
        let [first, count, child] = row;
        Self {
            first,
            count,
            child,
        }
    }
}

impl Part {
    /// The place of the left child, or `None` at a leaf.
    ///
    /// Refused with 15 (`Unsound`) where a node is cut and its two children are not among the first `nodes`.
    pub fn left_child(self, nodes: usize) -> Result<Option<usize>, Unsound>
        ensures { ChildSays nodes self result }
    {
        if self.count <= LEAF {
            return Ok(None);
        }
        if nodes.saturating_sub(1) <= self.child {
            return Err(Unsound);
        }
        Ok(Some(self.child))
    }
}

/// The part of node p, one of the first `nodes` of an index over n edges.
///
/// Refused with 15 (`Unsound`) where there is no node p, or its part ends past the n edges.
pub fn part_at(parts: &[[usize; 3]], n: usize, nodes: usize, p: usize) -> Result<Part, Unsound>
    requires { nodes ≤ length parts.now }
    ensures { PartSays parts.now n nodes p result }
{
    if nodes <= p {
        return Err(Unsound);
    }
    let part = Part::from(parts[p]);
    if n < part.first || n - part.first < part.count {
        return Err(Unsound);
    }
    Ok(part)
}
