// States as 64-bit numbers, as they cross the C boundary.
#![tactic(auto)]

ghost use Rattle.std.specs.Prelude.{◌≡◌};
ghost use Rattle.std.specs.Result.{result_ok};
ghost use Rattle.states.specs.States.{state_named, state_numbers};

use rules::{Kind, State, Unsound};

/// The state of a prepared plan: kind 0 a list, 1 a tree; out of range 0 or 1; counts of corners, rings and polygons; the undo depth.
#[repr(C)]
#[derive(Clone, Copy, Default)]
pub struct StateNumbers {
    pub kind: usize,
    pub out_of_range: usize,
    pub corners: usize,
    pub rings: usize,
    pub polygons: usize,
    pub undo_depth: usize,
}

// The state that numbers name. Refused with 15 where the kind or the mark is another number than 0 and 1.
impl TryFrom<StateNumbers> for State {
    type Error = Unsound;

    ghost try_from_gives = { λ numbers state. result_ok state ≡ state_named numbers };

    fn try_from(numbers: StateNumbers) -> Result<State, Unsound> {
        let kind = Kind::try_from(numbers.kind)?;
        let out_of_range = match numbers.out_of_range {
            0 => false,
            1 => true,
            _ => return Err(Unsound),
        };
        Ok(State {
            kind,
            out_of_range,
            corners: numbers.corners,
            rings: numbers.rings,
            polygons: numbers.polygons,
            undo_depth: numbers.undo_depth,
        })
    }
}

// The numbers of a state.
impl From<State> for StateNumbers {
    ghost from_gives = { λ state numbers. numbers ≡ state_numbers state };

    fn from(state: State) -> StateNumbers {
        StateNumbers {
            kind: usize::from(state.kind),
            out_of_range: usize::from(state.out_of_range),
            corners: state.corners,
            rings: state.rings,
            polygons: state.polygons,
            undo_depth: state.undo_depth,
        }
    }
}
