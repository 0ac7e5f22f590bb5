// Keys of 64 bits: a head of 16 bits over the Morton number of three coordinates (src/ids.rs, Index64).
#![tactic(auto)]

ghost use Rattle.std.specs.Prelude.{◌≡◌, ◌+◌, ◌^◌, ◌<◌};
ghost use Rattle.ids.specs.Morton.{spread, gather, morton};
ghost use Rattle.ids.specs.Key.{head_of, morton_of, tier_of, frame_of, lod_of, x_of, y_of, z_of, on_lattice, made_of, decoded_of};

use refusals::Refusal;

// A key's coordinate: a whole number of cells along an axis.
#[derive(Clone, Copy)]
pub struct Cells(pub u16);

// The three coordinates of a Morton number.
#[derive(Clone, Copy)]
pub struct Coords {
    pub x: u16,
    pub y: u16,
    pub z: u16,
}

// Each byte's bits, three apart.
const SPREAD: [u32; 256] = [
    0x000000, 0x000001, 0x000008, 0x000009, 0x000040, 0x000041, 0x000048, 0x000049, 0x000200,
    0x000201, 0x000208, 0x000209, 0x000240, 0x000241, 0x000248, 0x000249, 0x001000, 0x001001,
    0x001008, 0x001009, 0x001040, 0x001041, 0x001048, 0x001049, 0x001200, 0x001201, 0x001208,
    0x001209, 0x001240, 0x001241, 0x001248, 0x001249, 0x008000, 0x008001, 0x008008, 0x008009,
    0x008040, 0x008041, 0x008048, 0x008049, 0x008200, 0x008201, 0x008208, 0x008209, 0x008240,
    0x008241, 0x008248, 0x008249, 0x009000, 0x009001, 0x009008, 0x009009, 0x009040, 0x009041,
    0x009048, 0x009049, 0x009200, 0x009201, 0x009208, 0x009209, 0x009240, 0x009241, 0x009248,
    0x009249, 0x040000, 0x040001, 0x040008, 0x040009, 0x040040, 0x040041, 0x040048, 0x040049,
    0x040200, 0x040201, 0x040208, 0x040209, 0x040240, 0x040241, 0x040248, 0x040249, 0x041000,
    0x041001, 0x041008, 0x041009, 0x041040, 0x041041, 0x041048, 0x041049, 0x041200, 0x041201,
    0x041208, 0x041209, 0x041240, 0x041241, 0x041248, 0x041249, 0x048000, 0x048001, 0x048008,
    0x048009, 0x048040, 0x048041, 0x048048, 0x048049, 0x048200, 0x048201, 0x048208, 0x048209,
    0x048240, 0x048241, 0x048248, 0x048249, 0x049000, 0x049001, 0x049008, 0x049009, 0x049040,
    0x049041, 0x049048, 0x049049, 0x049200, 0x049201, 0x049208, 0x049209, 0x049240, 0x049241,
    0x049248, 0x049249, 0x200000, 0x200001, 0x200008, 0x200009, 0x200040, 0x200041, 0x200048,
    0x200049, 0x200200, 0x200201, 0x200208, 0x200209, 0x200240, 0x200241, 0x200248, 0x200249,
    0x201000, 0x201001, 0x201008, 0x201009, 0x201040, 0x201041, 0x201048, 0x201049, 0x201200,
    0x201201, 0x201208, 0x201209, 0x201240, 0x201241, 0x201248, 0x201249, 0x208000, 0x208001,
    0x208008, 0x208009, 0x208040, 0x208041, 0x208048, 0x208049, 0x208200, 0x208201, 0x208208,
    0x208209, 0x208240, 0x208241, 0x208248, 0x208249, 0x209000, 0x209001, 0x209008, 0x209009,
    0x209040, 0x209041, 0x209048, 0x209049, 0x209200, 0x209201, 0x209208, 0x209209, 0x209240,
    0x209241, 0x209248, 0x209249, 0x240000, 0x240001, 0x240008, 0x240009, 0x240040, 0x240041,
    0x240048, 0x240049, 0x240200, 0x240201, 0x240208, 0x240209, 0x240240, 0x240241, 0x240248,
    0x240249, 0x241000, 0x241001, 0x241008, 0x241009, 0x241040, 0x241041, 0x241048, 0x241049,
    0x241200, 0x241201, 0x241208, 0x241209, 0x241240, 0x241241, 0x241248, 0x241249, 0x248000,
    0x248001, 0x248008, 0x248009, 0x248040, 0x248041, 0x248048, 0x248049, 0x248200, 0x248201,
    0x248208, 0x248209, 0x248240, 0x248241, 0x248248, 0x248249, 0x249000, 0x249001, 0x249008,
    0x249009, 0x249040, 0x249041, 0x249048, 0x249049, 0x249200, 0x249201, 0x249208, 0x249209,
    0x249240, 0x249241, 0x249248, 0x249249,
];

// A byte's bits, three apart.
fn spread_byte(b: usize) -> u32
    requires { b < 256 }
    ensures { result ≡ spread 8 b }
{
    SPREAD[b]
}

// A coordinate's 16 bits, three apart.
fn spread_coord(x: u16) -> u64
    ensures value { result ≡ spread 16 x }
    ensures upper_bound { result < 2 ^ 46 }
{
    let low = spread_byte((x % 256) as usize);
    let high = spread_byte((x / 256) as usize);
    (low as u64) + (high as u64) * 0x100_0000
}

// The Morton number of three coordinates.
pub fn morton_encode(x: u16, y: u16, z: u16) -> u64
    ensures { result ≡ morton 16 x y z }
{
    spread_coord(x) + spread_coord(y) * 2 + spread_coord(z) * 4
}

// Every third bit of m, sixteen of them: joined to groups of 2, 4, 8 and 16.
fn gather16(m: u64) -> u16
    ensures { result ≡ gather 16 m }
{
    let pairs = (m & 0x0410_4104_1041) + (m / 8 & 0x0410_4104_1041) * 2;
    let fours = (pairs & 0x0030_0300_3003) + (pairs / 64 & 0x0030_0300_3003) * 4;
    let eights = (fours & 0x0000_0f00_000f) + (fours / 4096 & 0x0000_0f00_000f) * 16;
    (eights % 256 + eights / 0x100_0000 % 256 * 256) as u16
}

// The coordinates of a Morton number, or of a key: bits above the low 48 are ignored.
pub fn morton_decode(m: u64) -> Coords
    ensures { result ≡ record { x = x_of m; y = y_of m; z = z_of m } }
{
    Coords {
        x: gather16(m),
        y: gather16(m / 2),
        z: gather16(m / 4),
    }
}

// The key of a head and three numbers of 16 bits, where these are all even or all odd.
fn key_of(head: u16, x: u16, y: u16, z: u16) -> Result<u64, Refusal>
    ensures { result ≡ made_of head x y z }
{
    if x % 2 != y % 2 {
        return Err(Refusal::OffLattice);
    }
    if y % 2 != z % 2 {
        return Err(Refusal::OffLattice);
    }
    let key = (head as u64) * 0x1_0000_0000_0000 + morton_encode(x, y, z);
    Ok(key)
}

// The key of a head and coordinates that are all even or all odd.
pub fn new(head: u16, x: Cells, y: Cells, z: Cells) -> Result<u64, Refusal>
    ensures { result ≡ made_of head x.0 y.0 z.0 }
{
    key_of(head, x.0, y.0, z.0)
}

// Whether the key's coordinates are all even or all odd.
pub fn is_on_lattice(key: u64) -> bool
    ensures { result ≡ on_lattice key }
{
    let low = key % 8;
    if low == 0 { true } else { low == 7 }
}

// The coordinates of a key.
pub fn decode_coords(key: u64) -> Result<(Cells, Cells, Cells), Refusal>
    ensures { result ≡ decoded_of key }
{
    if is_on_lattice(key) {
        let c = morton_decode(key);
        Ok((Cells(c.x), Cells(c.y), Cells(c.z)))
    } else {
        Err(Refusal::OffLattice)
    }
}

// The top 16 bits.
pub fn head(key: u64) -> u16
    ensures { result ≡ head_of key }
{
    (key / 0x1_0000_0000_0000) as u16
}

// Bits 60 and 61.
pub fn scale_tier(key: u64) -> u8
    ensures { result ≡ tier_of key }
{
    (key / 0x1000_0000_0000_0000 % 4) as u8
}

// Bits 52 to 59.
pub fn frame_id(key: u64) -> u8
    ensures { result ≡ frame_of key }
{
    (key / 0x10_0000_0000_0000 % 256) as u8
}

// Bits 48 to 51.
pub fn lod(key: u64) -> u8
    ensures { result ≡ lod_of key }
{
    (key / 0x1_0000_0000_0000 % 16) as u8
}

// The low 48 bits.
pub fn morton(key: u64) -> u64
    ensures { result ≡ morton_of key }
{
    key % 0x1_0000_0000_0000
}
