// The C entry for the server (document 01, item 11), and the exports for one that keeps prepared plans.
#![tactic(auto)]

ghost use Rattle.std.specs.Prelude.{◌≡◌};
ghost use Rattle.rules.specs.Numbers.{reply_number};
ghost use Rattle.capi.specs.Replies.{text_reply, Roomy};

pub mod exports;
pub mod moves;
pub mod reading;
pub mod wellknown;

use geom::Point;
use query::locate;
use rules::{Reply, Spot, reply_number};
use text::{first_plan, read_plan};

// Where p lies in the plan of a text, read into tables that have room for any text's plan.
fn locate_in(
    text: &[u8],
    corners: &mut [i64],
    lengths: &mut [usize],
    counts: &mut [usize],
    p: Point,
) -> Reply
    requires { Roomy corners.old lengths.old counts.old }
    ensures { result ≡ text_reply text.now p }
{
    let size = read_plan(text, corners, lengths, counts)?;
    let plan = first_plan(size, corners, lengths, counts);
    locate(&plan, Spot::OnGrid(p))
}

/// Where the point (x, y) lies in the plan that a text gives, ring by ring.
///
/// Refused with -1 where the text has more than 65,536 bytes, else with -2 where a line breaks the format, whatever the point is. Otherwise 0
/// outside, 1 inside, 2 on the boundary; a point out of range, or a plan with any corner out of range, is outside. No other number is answered:
/// the largest text has no more than 9,360 corners, 13,106 rings and 10,921 polygons, for which there is room here, on the stack.
#[unsafe(no_mangle)]
pub extern "C" fn findspot_locate_text(text: &[u8], x: i64, y: i64) -> i64
    ensures { result ≡ reply_number (text_reply text.now (record { x = x; y = y })) }
{
    let mut corners = [0i64; 18720];
    let mut lengths = [0usize; 13106];
    let mut counts = [0usize; 10921];
    let reply = locate_in(
        text,
        &mut corners,
        &mut lengths,
        &mut counts,
        Point { x: x, y: y },
    );
    reply_number(reply)
}
