// Meshes the samples of document 01 that are run: (10, 10, 10) with its 14 neighbours of the other sign, in rooms that hold it and in rooms one place
// too small for the triangles and for the groups, and the empty table.
#![tactic(auto)]

use refusals::Refusal;
use table::{Rows, Settings, settings_of};

// The sample's settings: truncation 1, maximum weight 100, size 1.
fn settings() -> Settings {
    settings_of(1.0, 100.0, 1.0, 0.0)
}

// The mesh of the first `count` of 15 rows: (10, 10, 10), whose key is 3640, and its neighbours.
fn mesh_of(
    count: usize,
    groups: &mut [u32],
    t0: &mut [u32],
    t1: &mut [u32],
    t2: &mut [u32],
) -> Result<(usize, usize), Refusal> {
    let keys = [
        3591, 3599, 3607, 3608, 3615, 3623, 3624, 3631, 3632, 3639, 3640, 3647, 3696, 3752, 3864,
    ];
    let mut distances = [-0.25f32; 15];
    distances[10] = 0.25;
    let weights = [1.0f32; 15];
    mesh::extract_mesh_from_tsdf(
        settings(),
        &Rows {
            keys: &keys,
            distances: &distances,
            weights: &weights,
            count,
        },
        &mut [0; 14],
        &mut [0; 14],
        &mut [0.0; 14],
        &mut [0.0; 14],
        &mut [0.0; 14],
        &mut [0.0; 14],
        &mut [0.0; 14],
        &mut [0.0; 14],
        groups,
        t0,
        t1,
        t2,
    )
}

// A line for an answer; one that can't be written is passed over.
fn say(rt: &impl Print, meshed: Result<(usize, usize), Refusal>) {
    let _ = match meshed {
        Ok((edges, triangles)) => println!(rt; "edges {edges} triangles {triangles}"),
        Err(why) => println!(rt; "refused {}", u32::from(why)),
    };
}

fn main(rt: HostRuntime) {
    let mut groups = [0u32; 28];
    let mut t0 = [0u32; 364];
    let mut t1 = [0u32; 364];
    let mut t2 = [0u32; 364];
    say(&rt, mesh_of(15, &mut groups, &mut t0, &mut t1, &mut t2));
    let mut few = [0u32; 27];
    say(&rt, mesh_of(15, &mut few, &mut t0, &mut t1, &mut t2));
    let mut u0 = [0u32; 363];
    let mut u1 = [0u32; 363];
    let mut u2 = [0u32; 363];
    say(&rt, mesh_of(15, &mut groups, &mut u0, &mut u1, &mut u2));
    say(&rt, mesh_of(0, &mut groups, &mut t0, &mut t1, &mut t2));
}
