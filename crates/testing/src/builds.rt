// Builds of the index and cuts of a part, with their reads of keys.
ghost use Rattle.walk.specs.Steps.{Whether};
ghost use Rattle.testing.specs.Builds.{RingBuildable, BuildsPacked, Selects};

use cut::keys::{Axis, pack};
use cut::selection::select;
use index::build::build;
use index::count::node_count;
use plans::{MAX_CORNERS, all_in_range};

/// How many nodes a build made, and how often it read a key.
#[repr(C)]
#[derive(Clone, Copy)]
pub struct BuildNumbers {
    pub nodes: usize,
    pub reads: usize,
}

// Whether the corners are in range and few enough, and no table is shorter than n of them ask.
fn is_buildable(corners: &[i64], boxes: usize, parts: usize, edges: usize, n: usize) -> bool
    ensures { Whether (RingBuildable n corners.now boxes parts edges) result }
{
    let nodes = node_count(n);
    n <= MAX_CORNERS
        && n <= corners.len() / 2
        && n <= edges
        && nodes <= boxes
        && nodes <= parts
        && all_in_range(corners)
}

/// Builds the index over one ring of n corners, and puts the packed keys of cuts along x in the place of the edge numbers. No nodes and no
/// reads, and nothing written, where there are more than 1,048,576 corners, a table is too short or a corner out of range.
#[unsafe(no_mangle)]
pub extern "C" fn testing_build_packed(
    corners: &[i64],
    boxes: &mut [[i64; 4]],
    parts: &mut [[usize; 3]],
    edges: &mut [usize],
    n: usize,
) -> BuildNumbers
    ensures { BuildsPacked n corners.now boxes.old parts.old edges.old boxes.new parts.new edges.new result }
{
    if !is_buildable(corners, boxes.len(), parts.len(), edges.len(), n) {
        return BuildNumbers { nodes: 0, reads: 0 };
    }
    let rings: [usize; 1] = [n];
    let built = build(corners, &rings, boxes, parts, edges, n, 1);
    pack(corners, &rings, edges, n, 1, Axis::X, 0, n);
    BuildNumbers {
        nodes: built.nodes,
        reads: built.reads,
    }
}

/// `cut::selection::select`: cuts a part of packed keys in its middle and returns how many were read. 0, and nothing written, where the part is
/// empty, or ends after place 1,048,576 or outside the list.
#[unsafe(no_mangle)]
pub extern "C" fn testing_select(values: &mut [usize], first: usize, size: usize) -> usize
    ensures { Selects first size values.old values.new result }
{
    let ceiling = MAX_CORNERS.min(values.len());
    if size == 0 || ceiling < size || ceiling - size < first {
        return 0;
    }
    select(values, first, first + size / 2, first + size)
}
