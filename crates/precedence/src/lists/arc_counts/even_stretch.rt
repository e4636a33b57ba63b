//! Stretches of consecutive blocks whose numbers of blocks in a row grow by 1, shrink by 1 or stay equal.

ghost use Rattle.std.specs.Prelude.{◌≡◌, ◌+◌, ◌*◌, ◌<◌, ◌≤◌, ◌^◌, All, if◌then◌else◌, length, slice_index, sum_by, take};
ghost use Rattle.std.specs.List.Sorted.{IsStrictlyIncreasing};
ghost use Rattle.precedence.specs.inner.SameCone.{FollowAlong};
ghost use Rattle.precedence.specs.inner.Arcs.{count_in, Continues, IsRangeOf};
ghost use Rattle.precedence.specs.inner.Rows.{start_of};
ghost use Rattle.precedence.specs.declared.places.code.TheConstants.{CODES};
ghost use Rattle.plan_parts.specs.declared.ranges.TheConstants.{MAX_BLOCKS};

use crate::cones::cone_rows::Row;
use crate::lists::row_ranges::Hint;
use crate::places::Places;

/// The number of blocks in a stretch, the number of arcs of all of them in a row, and the row's range for the last of them.
#[derive(Clone, Copy, Debug)]
pub struct Stretch {
    pub blocks: usize,
    pub arcs: u64,
    pub last: Hint,
}

/// Returns the stretch from index `k` on, as far as the numbers in the row change evenly. `range` is the row's range for the first block.
/// `follow` has, for each code, the number of codes from it on that follow one another.
#[inline(always)]
pub fn stretch_from(
    places: &Places,
    same_cone: &[u16],
    own: &[u64],
    follow: &[u16],
    row: Row,
    k: usize,
    range: Hint,
) -> Stretch
    requires same_cone { FollowAlong places.now.codes.items same_cone.now }
    requires follow { FollowAlong own.now follow.now }
    requires small { All (λ c. c < CODES) own.now }
    requires k { k < length own.now }
    requires range { IsRangeOf places.now.codes.items (slice_index own.now k) row range }
    ensures some { 0 < result.blocks }
    ensures within { k + result.blocks ≤ length own.now }
    ensures arcs { sum_by (count_in places.now.codes.items row) (take (k + result.blocks) own.now)
        ≡ sum_by (count_in places.now.codes.items row) (take k own.now) + result.arcs }
    ensures few { result.arcs ≤ result.blocks * MAX_BLOCKS }
{
    let here = u64::from(range.past - range.first);
    let most = u64::from(follow[k]).saturating_sub(1);
    if most == 0 {
        return Stretch {
            blocks: 1,
            arcs: here,
            last: range,
        };
    }
    let first = course_of(places, same_cone, own[k] + row.first, range.first as usize);
    let past = course_of(places, same_cone, own[k] + row.past, range.past as usize);
    let steps = most.min(first.steps).min(past.steps);
    let last = Hint {
        first: shifted(first, range.first, steps as u32),
        past: shifted(past, range.past, steps as u32),
    };
    let there = u64::from(last.past.saturating_sub(last.first));
    Stretch {
        blocks: steps as usize + 1,
        arcs: (steps + 1) * (here + there) / 2,
        last,
    }
}

// How the start of the codes from a target on changes: for `steps` steps of the target it moves by 1 each, or stays.
#[derive(Clone, Copy, Debug)]
struct Course {
    steps: u64,
    moves: bool,
}

// Returns the course from this target, whose start is `start`.
#[inline(always)]
fn course_of(places: &Places, same_cone: &[u16], target: u64, start: usize) -> Course
    requires same_cone { FollowAlong places.now.codes.items same_cone.now }
    requires start { start ≡ start_of target places.now.codes.items }
    ensures { Continues places.now.codes.items target start result.steps result.moves }
{
    if start >= places.codes.len() {
        return Course {
            steps: u64::MAX,
            moves: false,
        };
    }
    let gap = places.codes[start].saturating_sub(target);
    if gap > 0 {
        Course {
            steps: gap,
            moves: false,
        }
    } else {
        Course {
            steps: u64::from(same_cone[start]),
            moves: true,
        }
    }
}

// Returns the start after `steps` steps.
#[inline(always)]
fn shifted(course: Course, start: u32, steps: u32) -> u32
    requires { start + steps < 2 ^ 32 }
    ensures { result ≡ start + (if course.moves then steps else 0) }
{
    if course.moves { start + steps } else { start }
}
