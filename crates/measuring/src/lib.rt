// What a reading says of a cell, direct or a ray, and whether it is taken (src/layers/tsdf.rs: update_from_depth, update_from_depth_ray).
#![tactic(auto)]

ghost use Rattle.std.specs.Prelude.{◌≡◌, true, length};
ghost use Rattle.floats.specs.Floats.{thousand, positive_to};
ghost use Rattle.table.specs.Table.{settings_ok};
ghost use Rattle.measuring.specs.Readings.{reading_ok, apart, ray_distance, measured, admitted};

use bcc_utils::metres_of;
use floats::{Metres, between, beyond, is_finite};
use ids::Cells;
use refusals::Refusal;
use table::Settings;

// A reading of one cell: its signed distance, or how deep a sensor saw along a ray.
#[derive(Clone, Copy)]
pub enum Reading {
    Direct {
        distance: Metres,
        confidence: f32,
    },
    Ray {
        x: Metres,
        y: Metres,
        z: Metres,
        depth: Metres,
        confidence: f32,
    },
}

// What a reading says of a cell.
#[derive(Clone, Copy)]
pub struct Measured {
    pub distance: f32,
    pub confidence: f32,
}

// Its numbers are finite and its confidence is from 0 to 1.
fn reading_ok(reading: Reading) -> bool
    ensures { result ≡ reading_ok reading }
{
    match reading {
        Reading::Direct {
            distance,
            confidence,
        } => is_finite(distance.0) & between(0.0, 1.0, confidence),
        Reading::Ray {
            x,
            y,
            z,
            depth,
            confidence,
        } => {
            is_finite(x.0)
                & (is_finite(y.0)
                    & (is_finite(z.0) & (is_finite(depth.0) & between(0.0, 1.0, confidence))))
        }
    }
}

// From the sensor to the cell along one axis.
fn apart(cells: Cells, size: Metres, sensor: Metres) -> f32
    ensures { result ≡ apart cells.0 size.0 sensor.0 }
{
    metres_of(cells, size).0 - sensor.0
}

// A ray's signed distance. The root never refuses a sum of squares.
fn ray_distance(
    size: Metres,
    key: u64,
    x: Metres,
    y: Metres,
    z: Metres,
    depth: Metres,
    confidence: f32,
) -> f32
    requires size_value { positive_to thousand size.0 ≡ true }
    requires confidence_value { reading_ok (Reading.Ray x y z depth confidence) ≡ true }
    ensures { result ≡ ray_distance size.0 key x.0 y.0 z.0 depth.0 }
{
    let c = ids::morton_decode(key);
    let dx = apart(Cells(c.x), size, x);
    let dy = apart(Cells(c.y), size, y);
    let dz = apart(Cells(c.z), size, z);
    match root::root(dx * dx + dy * dy + dz * dz) {
        Ok(length) => depth.0 - length,
        Err(_) => depth.0,
    }
}

// The signed distance that a reading gives a cell, with its confidence.
fn measure(size: Metres, key: u64, reading: Reading) -> Measured
    requires size_value { positive_to thousand size.0 ≡ true }
    requires reading_value { reading_ok reading ≡ true }
    ensures { result ≡ measured size.0 key reading }
{
    match reading {
        Reading::Direct {
            distance,
            confidence,
        } => Measured {
            distance: distance.0,
            confidence,
        },
        Reading::Ray {
            x,
            y,
            z,
            depth,
            confidence,
        } => Measured {
            distance: ray_distance(size, key, x, y, z, depth, confidence),
            confidence,
        },
    }
}

// Refusals 4 and 5, and Far.
#[tactic(auto, unfolding(crate::specs::Readings::admitted, crate::specs::Readings::admit_if))]
pub fn admit(settings: Settings, key: u64, reading: Reading) -> Result<Option<Measured>, Refusal>
    requires { settings_ok settings ≡ true }
    ensures { result ≡ admitted settings key reading }
{
    if !ids::is_on_lattice(key) {
        return Err(Refusal::OffLattice);
    }
    if !reading_ok(reading) {
        return Err(Refusal::BadReading);
    }
    let m = measure(settings.voxel_size, key, reading);
    if beyond(settings.truncation.0, m.distance) {
        Ok(None)
    } else {
        Ok(Some(m))
    }
}
