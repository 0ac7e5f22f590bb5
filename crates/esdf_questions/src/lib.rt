// Questions about a cell of a marched table: its distance, whether it is free, its gradient (src/layers/esdf.rs).
#![tactic(auto)]

ghost use Rattle.std.specs.Prelude.{◌≡◌, ◌<◌, length, Some};
ghost use Rattle.marching.specs.March.{distance_of};
ghost use Rattle.neighbors.specs.Neighbors.{neighbours};
ghost use Rattle.marched.specs.Marched.{marched_table, marched_rows_of};
ghost use Rattle.marched.specs.Steps.{Accepted};
ghost use Rattle.esdf_questions.specs.Lookups.{get_distance, is_free_space};
ghost use Rattle.esdf_questions.specs.Gradient.{step_of, no_slopes, slopes_with, slopes_from, direction_of, mean_of, get_gradient};
ghost use Rattle.marched.specs.Read.{marched_in, marched_rows_in};

use ids::morton_decode;
use marched::{check_free, check_key, stored_at};
use refusals::Refusal;
use stored::Distances;

// Sums along the axes, and over how many neighbours.
#[derive(Clone, Copy)]
struct Slopes {
    x: f32,
    y: f32,
    z: f32,
    count: u16,
}

// The distance that is stored of a cell.
pub fn get_distance(field: &Distances, key: u64) -> Result<Option<f32>, Refusal>
    ensures { result ≡ get_distance (marched_in field.now) key }
{
    check_key(field, key)?;
    Ok(stored_at(field, key))
}

// Whether a cell's distance is above a threshold.
pub fn is_free_space(field: &Distances, key: u64, threshold: f32) -> Result<bool, Refusal>
    ensures { result ≡ is_free_space (marched_in field.now) key threshold }
{
    check_free(field, key, threshold)?;
    Ok(stored_at(field, key).is_some_and(|d| threshold < d))
}

// How far it is from one coordinate to another, with its sign.
fn step(from: u16, to: u16) -> f32
    ensures { result ≡ step_of from to }
{
    if from <= to {
        (to - from) as f32
    } else {
        -((from - to) as f32)
    }
}

// A stored neighbour's part in the sums.
fn slopes_with(key: u64, distance: f32, sum: Slopes, neighbour: u64, found: f32) -> Slopes
    requires { sum.count < 100 }
    ensures { result ≡ slopes_with key distance sum neighbour (Some found) }
{
    let a = morton_decode(key);
    let b = morton_decode(neighbour);
    let change = found - distance;
    Slopes {
        x: sum.x + change * step(a.x, b.x),
        y: sum.y + change * step(a.y, b.y),
        z: sum.z + change * step(a.z, b.z),
        count: sum.count + 1,
    }
}

// A neighbour's part in the sums, if it is stored.
fn slopes_next(field: &Distances, key: u64, distance: f32, sum: Slopes, neighbour: u64) -> Slopes
    requires { Accepted (marched_in field.now) × (sum.count < 100) }
    ensures { result ≡ slopes_with key distance sum neighbour (distance_of neighbour (marched_rows_in field.now)) }
{
    let Some(found) = stored_at(field, neighbour) else {
        return sum;
    };
    slopes_with(key, distance, sum, neighbour, found)
}

// The sums over the stored neighbours of a cell.
fn sum_slopes(field: &Distances, key: u64, distance: f32) -> Slopes
    requires { Accepted (marched_in field.now) }
    ensures { result ≡ slopes_from (marched_rows_in field.now) key distance no_slopes (neighbours key) }
{
    let near = neighbors::around(key);
    let mut sum = Slopes {
        x: 0.0,
        y: 0.0,
        z: 0.0,
        count: 0,
    };
    for &neighbour in near.cells() {
        sum = slopes_next(field, key, distance, sum, neighbour);
    }
    sum
}

// The direction of x, y, z, unless they are too short.
fn direction(x: f32, y: f32, z: f32) -> Option<(f32, f32, f32)>
    ensures { result ≡ direction_of x y z }
{
    let Ok(length) = root::root(x * x + y * y + z * z) else {
        return None;
    };
    if 1e-6 < length {
        Some((x / length, y / length, z / length))
    } else {
        None
    }
}

// The direction of the mean.
fn mean(sum: Slopes) -> Option<(f32, f32, f32)>
    ensures { result ≡ mean_of sum }
{
    if sum.count == 0 {
        return None;
    }
    let n = sum.count as f32;
    direction(sum.x / n, sum.y / n, sum.z / n)
}

// The direction in which the distance grows at a cell.
pub fn get_gradient(field: &Distances, key: u64) -> Result<Option<(f32, f32, f32)>, Refusal>
    ensures { result ≡ get_gradient (marched_in field.now) key }
{
    check_key(field, key)?;
    let Some(distance) = stored_at(field, key) else {
        return Ok(None);
    };
    Ok(mean(sum_slopes(field, key, distance)))
}
