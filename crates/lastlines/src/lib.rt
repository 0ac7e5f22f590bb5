// What one line does: the program `lastcheck` but for its reading and writing (document 01, `lastcheck`).
#![tactic(auto)]

ghost use Rattle.std.specs.Prelude.{◌≡◌, true, false, ◌≤◌, length, Some, None};
ghost use Rattle.std.proofs.lemmas.List.Edits.{sets};
ghost use Rattle.table.specs.Table.{Table, table};
ghost use Rattle.fusing.specs.Fusing.{outcome};
ghost use Rattle.lastlines.specs.Lastcheck.{given_of, setup_of, taken_of, reading_of, vertex_lines, printed_for, goes_on_lem, after_setup, after_reading, after_mesh, step_of, stepped_as, settings_if, flagged_as, IsStep};
ghost use Rattle.texts.specs.Texts.{bad_line, refused_line};
ghost use Rattle.lastlines.specs.Steps.{edges_in, stepped, Prints, PrintsStep};
ghost use Rattle.table.specs.Read.{table_of};

use floats::Metres;
use fusing::Fused;
use ids::Cells;
use lines::Line;
use refusals::Refusal;
use table::{Rows, RowsMut, Settings, settings_of};

// Where the run stands after a line: the settings, where P came, how many bytes the line prints, and whether the run goes on.
#[derive(Clone, Copy)]
pub struct Stepped {
    pub settings: Option<Settings>,
    pub length: usize,
    pub goes_on: bool,
}

// The same for a run that keeps a flag beside its settings: whether P came.
#[derive(Clone, Copy)]
pub struct Flagged {
    pub started: bool,
    pub settings: Settings,
    pub length: usize,
    pub goes_on: bool,
}

// The float of 32 bits; a NaN's bits are none.
fn number_of(bits: u32) -> Option<f32>
    ensures { result ≡ given_of bits }
{
    let x = words::float_of_pattern(bits);
    (!x.is_nan()).then_some(x)
}

// What P does: truncation, maximum weight and size as bits; the maximum distance is +0.
#[tactic(auto, unfolding(crate::specs::Lastcheck::setup_of, crate::specs::Lastcheck::settings_from, crate::specs::Lastcheck::tested_as))]
fn set_up(truncation: u32, weight: u32, size: u32) -> Result<Settings, Refusal>
    ensures { result ≡ setup_of truncation weight size }
{
    let truncation = number_of(truncation).ok_or(Refusal::Setting)?;
    let weight = number_of(weight).ok_or(Refusal::Setting)?;
    let size = number_of(size).ok_or(Refusal::Setting)?;
    let settings = settings_of(truncation, weight, size, 0.0);
    if table::settings_ok(settings) {
        Ok(settings)
    } else {
        Err(Refusal::Setting)
    }
}

// A direct reading from coordinates, head 0, and bits.
#[tactic(auto, unfolding(crate::specs::Lastcheck::taken_of, crate::specs::Lastcheck::cell_of))]
fn read_cell(
    x: u16,
    y: u16,
    z: u16,
    distance: u32,
    confidence: u32,
) -> Result<(u64, f32, f32), Refusal>
    ensures { result ≡ taken_of x y z distance confidence }
{
    let key = ids::new(0, Cells(x), Cells(y), Cells(z))?;
    let distance = number_of(distance).ok_or(Refusal::BadReading)?;
    let confidence = number_of(confidence).ok_or(Refusal::BadReading)?;
    Ok((key, distance, confidence))
}

// What D does: a reading fused, or why it is refused.
#[tactic(auto, unfolding(crate::specs::Lastcheck::reading_of, crate::specs::Lastcheck::fused_as))]
fn take_reading(
    settings: Settings,
    keys: &mut [u64],
    distances: &mut [f32],
    weights: &mut [f32],
    count: &mut usize,
    x: u16,
    y: u16,
    z: u16,
    distance: u32,
    confidence: u32,
) -> Result<Fused, Refusal>
    ensures { outcome result (table keys.new distances.new weights.new count.new)
        ≡ reading_of settings (table keys.old distances.old weights.old count.old) x y z distance confidence }
{
    let (key, distance, confidence) = read_cell(x, y, z, distance, confidence)?;
    let mut rows = RowsMut {
        keys,
        distances,
        weights,
        count: *count,
    };
    let fused = fusing::update_from_depth(settings, &mut rows, key, Metres(distance), confidence);
    *count = rows.count;
    fused
}

// A line for each of `n` vertices, from the place `at` on.
fn vertex_lines(out: &mut [u8], at: usize, xs: &[f32], ys: &[f32], zs: &[f32], n: usize)
    requires at_bound { at ≤ 1000 }
    requires n_bound { (n ≤ 512) × (n ≤ length xs.now) × (n ≤ length ys.now) × (n ≤ length zs.now) }
    ensures { out.new ≡ sets out.old at (vertex_lines n 0 xs.now ys.now zs.now) }
{
    for i in 0..n {
        let place = at + 29 * i;
        let x = xs[i];
        let y = ys[i];
        let z = zs[i];
        texts::vertex_line(out, place, x, y, z);
    }
}

// Nothing is printed, and the run goes on.
fn silent(settings: Settings) -> Stepped
    ensures { result ≡ stepped (Some settings) 0 true }
{
    Stepped {
        settings: Some(settings),
        length: 0,
        goes_on: true,
    }
}

// `refused` and a number end the run.
fn refuse(settings: Option<Settings>, why: Refusal, out: &mut [u8]) -> Stepped
    ensures { Prints settings (refused_line why) false result out.old out.new }
{
    Stepped {
        settings,
        length: texts::refused_line(out, why),
        goes_on: false,
    }
}

// `bad` and the line's number end the run.
fn reject(settings: Option<Settings>, number: u64, out: &mut [u8]) -> Stepped
    ensures { Prints settings (bad_line number) false result out.old out.new }
{
    Stepped {
        settings,
        length: texts::bad_line(out, number),
        goes_on: false,
    }
}

// P is silent unless it is refused.
#[tactic(auto, unfolding(crate::specs::Lastcheck::after_setup))]
fn after_setup(answer: Result<Settings, Refusal>, out: &mut [u8]) -> Stepped
    ensures { (t : Table) → PrintsStep (after_setup answer t) result out.old out.new }
{
    match answer {
        Ok(settings) => silent(settings),
        Err(why) => refuse(None, why, out),
    }
}

// D is silent unless it is refused.
#[tactic(auto, unfolding(crate::specs::Lastcheck::after_reading))]
fn after_reading(answer: Result<Fused, Refusal>, settings: Settings, out: &mut [u8]) -> Stepped
    ensures { (t : Table) → PrintsStep (after_reading answer settings t) result out.old out.new }
{
    match answer {
        Ok(_) => silent(settings),
        Err(why) => refuse(Some(settings), why, out),
    }
}

// What M prints, by its answer.
fn print_mesh(
    settings: Settings,
    meshed: Result<(usize, usize), Refusal>,
    rows: usize,
    xs: &[f32],
    ys: &[f32],
    zs: &[f32],
    out: &mut [u8],
) -> Stepped
    requires { (edges_in meshed ≤ 512) × (length xs.now ≡ 512) × (length ys.now ≡ 512) × (length zs.now ≡ 512) }
    ensures { Prints (Some settings) (printed_for meshed rows xs.now ys.now zs.now) (goes_on_lem meshed) result out.old out.new }
{
    match meshed {
        Ok((edges, triangles)) => {
            let at = texts::counts_line(out, rows as u64, edges as u64, triangles as u64);
            vertex_lines(out, at, xs, ys, zs, edges);
            Stepped {
                settings: Some(settings),
                length: at + 29 * edges,
                goes_on: true,
            }
        }
        Err(why) => refuse(Some(settings), why, out),
    }
}

// What M does: the counts and the vertices' bits, or why it is refused.
fn print_surface(settings: Settings, rows: &Rows, out: &mut [u8]) -> Stepped
    ensures { PrintsStep (after_mesh settings (table_of rows.now)) result out.old out.new }
{
    let mut px = [0.0f32; 512];
    let mut py = [0.0f32; 512];
    let mut pz = [0.0f32; 512];
    let meshed = mesh::extract_mesh_from_tsdf(
        settings,
        rows,
        &mut [0; 512],
        &mut [0; 512],
        &mut px,
        &mut py,
        &mut pz,
        &mut [0.0; 512],
        &mut [0.0; 512],
        &mut [0.0; 512],
        &mut [0; 1024],
        &mut [0; 1024],
        &mut [0; 1024],
        &mut [0; 1024],
    );
    print_mesh(settings, meshed, rows.count, &px, &py, &pz, out)
}

// What one line does, from its bytes without the newline and its number: P comes first and once, the others after it.
// The table that it writes is three lent lists and a count, of which `take_reading` makes a `RowsMut`.
pub fn take_line(
    settings: Option<Settings>,
    number: u64,
    line: &[u8],
    keys: &mut [u64],
    distances: &mut [f32],
    weights: &mut [f32],
    count: &mut usize,
    out: &mut [u8],
) -> Stepped
    ensures { IsStep (step_of line.now number settings (table keys.old distances.old weights.old count.old))
        result (table keys.new distances.new weights.new count.new) out.old out.new }
{
    match (lines::line_of(line), settings) {
        (Some(Line::Settings(truncation, weight, size)), None) => {
            after_setup(set_up(truncation, weight, size), out)
        }
        (Some(Line::Reading(x, y, z, distance, confidence)), Some(settings)) => {
            let answer = take_reading(
                settings, keys, distances, weights, count, x, y, z, distance, confidence,
            );
            after_reading(answer, settings, out)
        }
        (Some(Line::Mesh), Some(settings)) => {
            let rows = Rows {
                keys,
                distances,
                weights,
                count: *count,
            };
            print_surface(settings, &rows, out)
        }
        _ => reject(settings, number, out),
    }
}

// The same for a run that keeps a flag beside its settings, which are handed back as they came where P didn't.
pub fn take_flagged_line(
    started: bool,
    settings: Settings,
    number: u64,
    line: &[u8],
    keys: &mut [u64],
    distances: &mut [f32],
    weights: &mut [f32],
    count: &mut usize,
    out: &mut [u8],
) -> Flagged
    ensures value { result ≡ flagged_as settings (step_of line.now number (settings_if started settings)
        (table keys.old distances.old weights.old count.old)) }
    ensures step { IsStep (step_of line.now number (settings_if started settings) (table keys.old distances.old weights.old count.old))
        (stepped_as (step_of line.now number (settings_if started settings) (table keys.old distances.old weights.old count.old)))
        (table keys.new distances.new weights.new count.new) out.old out.new }
{
    let given = started.then_some(settings);
    let step = take_line(given, number, line, keys, distances, weights, count, out);
    Flagged {
        started: step.settings.is_some(),
        settings: step.settings.unwrap_or(settings),
        length: step.length,
        goes_on: step.goes_on,
    }
}
