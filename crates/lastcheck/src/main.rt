// lastcheck: reads lines of settings, readings and meshes, and prints counts and vertices (document 01, `lastcheck`).
#![tactic(auto)]

ghost use Rattle.std.specs.Prelude.{◌≡◌, ◌≤◌, [], length};

use std::io::Read;
use table::Settings;

// The descriptor of the standard output.
const STDOUT_FILENO: i32 = 1;

// Where a run stands: the bytes that are kept of the present line, its number, the settings, where P came, whether the run
// goes on, the table, and the bytes that are to be printed. The program has fixed memory and no heap, so its lists are
// arrays with a length beside.
#[derive(Drop)]
struct Run {
    line: [u8; 38],
    kept: usize,
    number: u64,
    settings: Option<Settings>,
    going: bool,
    keys: [u64; 256],
    distances: [f32; 256],
    weights: [f32; 256],
    count: usize,
    out: [u8; 16384],
    printed: usize,
    ghost in_line: { kept ≤ 38 },
}

// Reads once: how many bytes came, 0 at the end of the input and where it cannot be read.
fn read_part<R: Read>(input: &mut R, buffer: &mut [u8]) -> usize
    ensures { result ≤ length buffer.new }
{
    input.read(buffer).unwrap_or(0)
}

impl Run {
    ghost use Rattle.lastcheck.specs.Run.{beginning, longer};
    ghost use Rattle.lastcheck.specs.Steps.{state_of, Moved, LineTaken, ByteTaken, Finished, Written, Fed};

    // Before the first line: no settings yet.
    fn begun() -> Run
        ensures { state_of result ≡ beginning }
    {
        Run {
            line: [0; 38],
            kept: 0,
            number: 1,
            settings: None,
            going: true,
            keys: [0; 256],
            distances: [0.0; 256],
            weights: [0.0; 256],
            count: 0,
            out: [0; 16384],
            printed: 0,
        }
    }

    // One byte more of the line, where there is a place for it.
    fn keep(&mut self, byte: u8)
        ensures { Moved (longer 38 (state_of self.old) byte) [] self.old self.new }
    {
        self.printed = 0;
        if self.kept < self.line.len() {
            self.line[self.kept] = byte;
            self.kept += 1;
        }
    }

    // The line that is kept is whole. A longer line than any good one was cut after 38 bytes, and is bad like the whole of it.
    fn end_line(&mut self)
        ensures { LineTaken self.old self.new }
    {
        let step = lastlines::take_line(
            self.settings,
            self.number,
            &self.line[..self.kept],
            &mut self.keys,
            &mut self.distances,
            &mut self.weights,
            &mut self.count,
            &mut self.out,
        );
        self.kept = 0;
        self.number = self.number.saturating_add(1);
        self.settings = step.settings;
        self.going = step.goes_on;
        self.printed = step.length;
    }

    // One byte more, while the run goes on.
    #[tactic(auto, using(std::proofs::lemmas::Bool::Decides::nat_tests), unfolding(crate::specs::Run::step_byte, crate::specs::Run::text_byte))]
    fn take_byte(&mut self, byte: u8)
        ensures { ByteTaken self.old byte self.new }
    {
        if !self.going {
            self.printed = 0;
        } else if byte == b'\n' {
            self.end_line();
        } else {
            self.keep(byte);
        }
    }

    // The end of the input: bytes after the last newline are a line.
    #[tactic(auto, using(std::proofs::lemmas::Bool::Decides::nat_tests), unfolding(crate::specs::Run::last_text))]
    fn finish(&mut self)
        ensures { Finished self.old self.new }
    {
        self.printed = 0;
        if self.going && self.kept != 0 {
            self.end_line();
        }
    }

    // Writes what is to be printed; a run that cannot write ends.
    fn write(&mut self)
        requires { self.old.printed ≤ 15000 }
        ensures { Written self.old self.new }
    {
        if !io::write_all(STDOUT_FILENO, &self.out[..self.printed]) {
            self.going = false;
        }
    }

    // The bytes in turn; what each prints is written before the next is taken.
    fn feed(&mut self, bytes: &[u8])
        ensures { Fed (state_of self.old) bytes.now (state_of self.new) }
    {
        for byte in bytes {
            self.take_byte(*byte);
            self.write();
        }
    }

    // Reads once and takes what came; the end of the input ends the run.
    fn read_some<R: Read>(&mut self, input: &mut R) {
        let mut buffer = io::buffer();
        let n = read_part(input, &mut buffer);
        if n == 0 {
            self.finish();
            self.write();
            self.going = false;
        } else {
            self.feed(&buffer[..n]);
        }
    }
}

// The run, on an empty table. A proved loop has to end, so it has more turns than any run uses up.
fn main(rt: HostRuntime) {
    let mut input = rt.stdin();
    let mut run = Run::begun();
    for _ in 0..u64::MAX {
        run.read_some(&mut input);
        if !run.going {
            break;
        }
    }
}
