// Snapping to the lattice, whose points have three even or three odd coordinates (src/layers/bcc_utils.rs).
#![tactic(auto)]

ghost use Rattle.std.specs.Prelude.{◌≡◌};
ghost use Rattle.bcc_utils.specs.Snapping.{even, on_lattice, is_end, has_end};
ghost use Rattle.bcc_utils.specs.Snapping.{even_down, odd_up, nearest_candidate, placed, snapped};
ghost use Rattle.bcc_utils.specs.Metres.{cells_of, place_snapped, is_place, voxel_of, metres_of};
ghost use Rattle.bcc_utils.specs.Steps.{mostly_even};

use floats::Metres;
use ids::Cells;
use refusals::Refusal;

// A whole number of cells along an axis, either way from the origin.
#[derive(Clone, Copy)]
pub struct WideCells(pub i32);

fn is_even(x: WideCells) -> bool
    ensures { result ≡ even x.0 }
{
    x.0 & 1 == 0
}

// Whether the coordinates are all even or all odd.
pub fn is_valid_bcc(x: WideCells, y: WideCells, z: WideCells) -> bool
    ensures { result ≡ on_lattice x.0 y.0 z.0 }
{
    let x_even = is_even(x);
    let y_even = is_even(y);
    let z_even = is_even(z);
    (x_even == y_even) & (y_even == z_even)
}

// Whether x is an end of i32, next to which the candidates would leave it.
fn is_end(x: WideCells) -> bool
    ensures { result ≡ is_end x.0 }
{
    (x.0 == 2147483647) | (x.0 == -2147483648)
}

// The even number at x or next below it.
fn even_down(x: WideCells) -> WideCells
    ensures { result ≡ record { 0 = even_down x.0 } }
{
    WideCells(x.0 & !1)
}

// The odd number at x or next above it.
fn odd_up(x: WideCells) -> WideCells
    ensures { result ≡ record { 0 = odd_up x.0 } }
{
    WideCells(x.0 | 1)
}

// Whether two or three of the coordinates are even.
fn is_mostly_even(x: WideCells, y: WideCells, z: WideCells) -> bool
    ensures { result ≡ mostly_even x.0 y.0 z.0 }
{
    let x_even = is_even(x);
    let y_even = is_even(y);
    let z_even = is_even(z);
    (x_even & y_even) | (y_even & z_even) | (x_even & z_even)
}

// Whether one of the coordinates is an end of i32.
fn has_end(x: WideCells, y: WideCells, z: WideCells) -> bool
    ensures { result ≡ has_end x.0 y.0 z.0 }
{
    is_end(x) | is_end(y) | is_end(z)
}

// The nearest of the sixteen candidates. An even one is as far away as there are odd coordinates, and an odd one as there
// are even coordinates: so the first candidate of the class that moves fewer coordinates is the nearest.
fn nearest_candidate(
    x: WideCells,
    y: WideCells,
    z: WideCells,
) -> Result<(WideCells, WideCells, WideCells), Refusal>
    ensures { result ≡ placed (nearest_candidate x.0 y.0 z.0) }
{
    if is_mostly_even(x, y, z) {
        Ok((even_down(x), even_down(y), even_down(z)))
    } else {
        Ok((odd_up(x), odd_up(y), odd_up(z)))
    }
}

// The nearest lattice point: the point itself, if it is one.
pub fn snap_to_nearest_bcc(
    x: WideCells,
    y: WideCells,
    z: WideCells,
) -> Result<(WideCells, WideCells, WideCells), Refusal>
    ensures { result ≡ snapped x.0 y.0 z.0 }
{
    if is_valid_bcc(x, y, z) {
        Ok((x, y, z))
    } else if has_end(x, y, z) {
        Err(Refusal::OutOfRange)
    } else {
        nearest_candidate(x, y, z)
    }
}

// A length in cells, rounded half away from zero.
fn cells_of(length: Metres, voxel_size: Metres) -> Result<i32, Refusal>
    ensures { result ≡ cells_of length.0 voxel_size.0 }
{
    floats::round_whole(length.0 / voxel_size.0)
}

// The lattice point nearest to a place's cells.
fn snap_place(
    x: Metres,
    y: Metres,
    z: Metres,
    voxel_size: Metres,
) -> Result<(WideCells, WideCells, WideCells), Refusal>
    ensures { result ≡ place_snapped x.0 y.0 z.0 voxel_size.0 }
{
    match cells_of(x, voxel_size) {
        Err(refusal) => Err(refusal),
        Ok(a) => match cells_of(y, voxel_size) {
            Err(refusal) => Err(refusal),
            Ok(b) => match cells_of(z, voxel_size) {
                Err(refusal) => Err(refusal),
                Ok(c) => snap_to_nearest_bcc(WideCells(a), WideCells(b), WideCells(c)),
            },
        },
    }
}

// Whether all three lengths are finite.
fn is_place(x: Metres, y: Metres, z: Metres) -> bool
    ensures { result ≡ is_place x.0 y.0 z.0 }
{
    floats::is_finite(x.0) & floats::is_finite(y.0) & floats::is_finite(z.0)
}

// The lattice point of a place in metres.
pub fn physical_to_bcc_voxel(
    x: Metres,
    y: Metres,
    z: Metres,
    voxel_size: Metres,
) -> Result<(WideCells, WideCells, WideCells), Refusal>
    ensures { result ≡ voxel_of x.0 y.0 z.0 voxel_size.0 }
{
    if floats::positive_to(1000.0, voxel_size.0) {
        if is_place(x, y, z) {
            snap_place(x, y, z, voxel_size)
        } else {
            Err(Refusal::BadReading)
        }
    } else {
        Err(Refusal::Setting)
    }
}

// A number of cells as a length.
pub fn metres_of(cells: Cells, voxel_size: Metres) -> Metres
    ensures { result ≡ metres_of cells.0 voxel_size.0 }
{
    let n = cells.0;
    Metres((n as f32) * voxel_size.0)
}
