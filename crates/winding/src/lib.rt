// One winding of the closed mesh: its definition and theorem, and whether a cell lies in front of three points that lie halfway between cells.
#![tactic(auto)]

ghost use Rattle.std.specs.Prelude.{◌≡◌, ◌*◌, ◌≤◌};
ghost use Rattle.winding.specs.Spots.{halfway, triple, plus_terms, in_front};
ghost use Rattle.winding.specs.Steps.{Small};

// A point by whole numbers, in doubled coordinates, so that what lies halfway between two cells is one too.
#[derive(Clone, Copy)]
pub struct Spot {
    pub x: u64,
    pub y: u64,
    pub z: u64,
}

// The point halfway between two cells; a cell's own point where they are one.
fn halfway_of(k: u64, l: u64) -> Spot
    ensures value { result ≡ halfway k l }
    ensures small { Small result }
{
    let a = ids::morton_decode(k);
    let b = ids::morton_decode(l);
    Spot {
        x: a.x as u64 + b.x as u64,
        y: a.y as u64 + b.y as u64,
        z: a.z as u64 + b.z as u64,
    }
}

// The product of three coordinates.
fn product(x: u64, y: u64, z: u64) -> u64
    requires { (x ≤ 131070) × (y ≤ 131070) × (z ≤ 131070) }
    ensures value { result ≡ x * (y * z) }
    ensures upper_bound { result ≤ 2251696736043000 }
{
    x * (y * z)
}

// The three products with a plus of a determinant of three rows.
fn triple_of(a: Spot, b: Spot, c: Spot) -> u64
    requires { Small a × Small b × Small c }
    ensures value { result ≡ triple a b c }
    ensures upper_bound { result ≤ 6755090208129000 }
{
    product(a.x, b.y, c.z) + (product(b.x, c.y, a.z) + product(c.x, a.y, b.z))
}

// The twelve products with a plus of the determinant of b - a, c - a and p - a.
fn plus_terms(a: Spot, b: Spot, c: Spot, p: Spot) -> u64
    requires { Small a × Small b × Small c × Small p }
    ensures { result ≡ plus_terms a b c p }
{
    triple_of(b, c, p) + (triple_of(a, p, c) + (triple_of(a, b, p) + triple_of(a, c, b)))
}

// Whether a cell lies in front of a triangle whose corners lie halfway between the cells of three pairs: seen from the cell they turn to the left.
pub fn is_in_front(a: u64, b: u64, c: u64, d: u64, e: u64, f: u64, cell: u64) -> bool
    ensures { result ≡ in_front (halfway a b) (halfway c d) (halfway e f) (halfway cell cell) }
{
    let first = halfway_of(a, b);
    let second = halfway_of(c, d);
    let third = halfway_of(e, f);
    let own = halfway_of(cell, cell);
    plus_terms(second, first, third, own) < plus_terms(first, second, third, own)
}
