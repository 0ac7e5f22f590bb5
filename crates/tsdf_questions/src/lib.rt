// Questions about a cell of the table (src/layers/tsdf.rs: get_distance, get_weight, is_surface_voxel).
#![tactic(auto)]

ghost use Rattle.std.specs.Prelude.{◌≡◌};
ghost use Rattle.table.specs.Table.{table};
ghost use Rattle.tsdf_questions.specs.Lookups.{row_of, looked_up, distance_of, weight_of, surface_of};
ghost use Rattle.tsdf_questions.specs.Steps.{Accepted};
ghost use Rattle.table.specs.Read.{table_of};

use floats::{Metres, is_finite, size};
use refusals::Refusal;
use search::find_row;
use table::{Rows, Settings, Voxel, check_table};

// The row of a cell, in a table that passed the check.
fn row_of(rows: &Rows, key: u64) -> Result<Option<Voxel>, Refusal>
    requires { Accepted (table_of rows.now) }
    ensures { result ≡ row_of (table_of rows.now) key }
{
    let Rows {
        keys,
        distances,
        weights,
        count,
    } = *rows;
    if !ids::is_on_lattice(key) {
        return Err(Refusal::OffLattice);
    }
    let Some(i) = find_row(keys, count, key) else {
        return Ok(None);
    };
    Ok(Some(Voxel {
        distance: distances[i],
        weight: weights[i],
    }))
}

// The row of a cell, after refusals 1 to 4.
#[tactic(auto, unfolding(crate::specs::Lookups::looked_up, crate::specs::Lookups::looked_if))]
fn look_up(settings: Settings, rows: &Rows, key: u64) -> Result<Option<Voxel>, Refusal>
    ensures { result ≡ looked_up settings (table_of rows.now) key }
{
    check_table(settings, rows)?;
    row_of(rows, key)
}

// The distance that is stored of a cell.
pub fn get_distance(settings: Settings, rows: &Rows, key: u64) -> Result<Option<Metres>, Refusal>
    ensures { result ≡ distance_of (looked_up settings (table_of rows.now) key) }
{
    let found = look_up(settings, rows, key)?;
    Ok(found.map(|voxel| Metres(voxel.distance)))
}

// The weight that is stored of a cell.
pub fn get_weight(settings: Settings, rows: &Rows, key: u64) -> Result<Option<f32>, Refusal>
    ensures { result ≡ weight_of (looked_up settings (table_of rows.now) key) }
{
    let found = look_up(settings, rows, key)?;
    Ok(found.map(|voxel| voxel.weight))
}

// Whether a cell is stored and near the surface; a threshold that is not finite is a 5.
#[tactic(auto, unfolding(crate::specs::Lookups::surface_of, crate::specs::Lookups::surface_if))]
pub fn is_surface_voxel(
    settings: Settings,
    rows: &Rows,
    key: u64,
    threshold: Metres,
) -> Result<bool, Refusal>
    ensures { result ≡ surface_of threshold.0 (looked_up settings (table_of rows.now) key) }
{
    let found = look_up(settings, rows, key)?;
    if !is_finite(threshold.0) {
        return Err(Refusal::BadReading);
    }
    Ok(found.is_some_and(|voxel| size(voxel.distance) < threshold.0))
}
