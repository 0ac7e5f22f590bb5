// What is handed back of the answers of the march and the mesh.
#![tactic(auto)]

ghost use Rattle.std.specs.Prelude.{◌≡◌};
ghost use Rattle.mesh_answers.specs.Meshing.{span_start, span_length};

use esdf_surveys::EsdfStats;
use floats::Metres;
use groups::Span;
use slopes::Vertex;

// What is handed back in place of statistics that there are not.
pub const NO_MARCHED_STATS: EsdfStats = EsdfStats {
    voxel_count: 0,
    obstacle_voxel_count: 0,
    free_voxel_count: 0,
    min_distance: 0.0,
    max_distance: 0.0,
};

// What is handed back in place of a corner that there is not.
pub const NO_CORNER: Vertex = Vertex {
    x: Metres(0.0),
    y: Metres(0.0),
    z: Metres(0.0),
};

// Where a cell's edge numbers start; 0 where there are none.
pub fn span_start(span: Span) -> usize
    ensures { result ≡ span_start span }
{
    if span.start < span.end { span.start } else { 0 }
}

// How many they are.
pub fn span_length(span: Span) -> usize
    ensures { result ≡ span_length span }
{
    span.end.saturating_sub(span.start)
}
