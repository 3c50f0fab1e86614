//! Positions of indexed attributes.

ghost use Rattle.std.specs.Prelude.{◌≡◌, ◌+◌, ◌≤◌, ◌==◌, not, filter, length, IfOk, OnOk};
ghost use Rattle.std.specs.List.{position_or_len};
ghost use Rattle.std.specs.Ordering.{nat_cmp, is_lt};
ghost use Rattle.db_model.specs.Database.{with_position};

use db_model::Positions;
use std::alloc::{AllocError, Global};

/// The positions, with this one at its place.
pub fn with_position(
    alloc: Global,
    positions: &Positions,
    position: u32,
) -> Result<Positions, AllocError>
    ensures { IfOk result (λ now. now ≡ with_position position positions.now) }
{
    let place = place_for(positions.as_slice(), position);
    let mut now = Vec::from_slice(alloc, positions.as_slice())?;
    now.insert(place, position)?;
    Ok(Positions::from_vec(now))
}

/// How many of the positions stand before this one.
fn place_for(positions: &[u32], position: u32) -> usize
    ensures place { result ≡ position_or_len (λ other. is_lt (nat_cmp position other)) positions.now }
    ensures within { result ≤ length positions.now }
{
    for (i, &other) in positions.iter().enumerate() {
        if position < other {
            return i;
        }
    }
    positions.len()
}

/// The positions other than this one.
pub fn without_position(
    alloc: Global,
    positions: &Positions,
    position: u32,
) -> Result<Positions, AllocError>
    ensures { IfOk result (λ now. now ≡ filter (λ other. not (other == position)) positions.now) }
{
    let mut now = Positions::new(alloc);
    for &other in positions.as_slice() {
        if other != position {
            now.push(other)?;
        }
    }
    Ok(now)
}
