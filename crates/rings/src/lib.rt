// Whether a tetrahedron of stored cells with weight above 0 lies around a pair of cells (document 02, No. 14).
#![tactic(auto)]

ghost use Rattle.std.specs.Prelude.{◌≡◌};
ghost use Rattle.rings.specs.Sides.{opposed};
ghost use Rattle.rings.specs.Rings.{any, weighted_by, beside_both, completed, joint_by};

// One distance is below zero and the other is not, and both weights are above 0.
pub fn are_opposed(distance: f32, weight: f32, other: f32, beside: f32) -> bool
    ensures { result ≡ opposed distance weight other beside }
{
    ((distance < 0.0) != (other < 0.0)) & ((0.0 < weight) & (0.0 < beside))
}

// Whether a cell is stored with weight above 0, by the first `count` keys, expected near a row.
#[tactic(auto, unfolding(crate::specs::Rings::weighted_found))]
fn is_weighted(keys: &[u64], weights: &[f32], count: usize, near: usize, key: u64) -> bool
    ensures { result ≡ weighted_by keys.now weights.now count near key }
{
    match search::find_near(keys, count, near, key) {
        Some(place) => place < weights.len() && 0.0 < weights[place],
        None => false,
    }
}

// Whether a fourth cell is adjacent to two others, and weighted.
#[tactic(auto, unfolding(crate::specs::Rings::beside_both))]
fn is_beside_both(
    keys: &[u64],
    weights: &[f32],
    count: usize,
    near: usize,
    other: u64,
    third: u64,
    fourth: u64,
) -> bool
    ensures { result ≡ beside_both (weighted_by keys.now weights.now count near) other third fourth }
{
    neighbors::are_adjacent(other, fourth)
        && neighbors::are_adjacent(third, fourth)
        && is_weighted(keys, weights, count, near, fourth)
}

// Whether one of some cells is so.
fn shares(
    keys: &[u64],
    weights: &[f32],
    count: usize,
    near: usize,
    cells: &[u64],
    other: u64,
    third: u64,
) -> bool
    ensures { result ≡ any (beside_both (weighted_by keys.now weights.now count near) other third) cells.now }
{
    for &fourth in cells {
        if is_beside_both(keys, weights, count, near, other, third, fourth) {
            return true;
        }
    }
    false
}

// Whether a third cell is adjacent to another, and weighted, and shares one of some cells with it.
#[tactic(auto, unfolding(crate::specs::Rings::completed))]
fn completes(
    keys: &[u64],
    weights: &[f32],
    count: usize,
    near: usize,
    cells: &[u64],
    other: u64,
    third: u64,
) -> bool
    ensures { result ≡ completed (weighted_by keys.now weights.now count near) cells.now other third }
{
    neighbors::are_adjacent(other, third)
        && is_weighted(keys, weights, count, near, third)
        && shares(keys, weights, count, near, cells, other, third)
}

// Whether two cells are corners of a tetrahedron with two others that are weighted, which are expected near a row.
pub fn is_joint(
    keys: &[u64],
    weights: &[f32],
    count: usize,
    near: usize,
    cell: u64,
    other: u64,
) -> bool
    ensures { result ≡ joint_by (weighted_by keys.now weights.now count near) cell other }
{
    let around = neighbors::around(cell);
    let cells = around.cells();
    for &third in cells {
        if completes(keys, weights, count, near, cells, other, third) {
            return true;
        }
    }
    false
}
