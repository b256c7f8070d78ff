// A list of calls as a whole.
ghost use Rattle.std.specs.Prelude.{◌≡◌, eqb};
ghost use Rattle.replay.specs.Replays.{Replays, replay_number, Outcome};
ghost use Rattle.testing.specs.Named.{list_or_tree};

use crate::look_ups::kind_of;
use plans::Plan;
use replay::replay;

/// `replay::replay`: 0 where the calls were run, else the refusal number, and nothing lent is written. Kind 0 is a list, any other a tree.
#[unsafe(no_mangle)]
pub extern "C" fn testing_replay(
    kind: usize,
    coordinates: &[i64],
    lengths: &[usize],
    counts: &[usize],
    corners: &mut [i64],
    rings: &mut [usize],
    polygons: &mut [usize],
    boxes: &mut [[i64; 4]],
    parts: &mut [[usize; 3]],
    edges: &mut [usize],
    undo: &mut [[i64; 3]],
    calls: &[[i64; 4]],
    answers: &mut [i64],
) -> usize
    ensures { (outcome : Outcome) × Replays (record { kind = list_or_tree (eqb kind 0); coordinates = coordinates.now; lengths = lengths.now; counts = counts.now }) (record { tables = record { corners = corners.old; rings = rings.old; polygons = polygons.old; boxes = boxes.old; parts = parts.old; edges = edges.old }; undo = undo.old; answers = answers.old }) (record { tables = record { corners = corners.new; rings = rings.new; polygons = polygons.new; boxes = boxes.new; parts = parts.new; edges = edges.new }; undo = undo.new; answers = answers.new }) calls.now outcome × (result ≡ replay_number outcome) }
{
    let plan = Plan {
        kind: kind_of(kind == 0),
        coordinates,
        lengths,
        counts,
    };
    let outcome = replay(
        &plan, corners, rings, polygons, boxes, parts, edges, undo, calls, answers,
    );
    match outcome {
        Ok(_) => 0,
        Err(refusal) => usize::from(refusal),
    }
}
