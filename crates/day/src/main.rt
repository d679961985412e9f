// Runs a script on the test console, and writes its answers and how far the run came. docs/scripts.md has the lines.
#![tactic(auto)]

mod test_console;

ghost use Rattle.std.specs.Prelude.{◌≡◌};
ghost use Rattle.day.specs.Day.{day};

use script_rules::replayed::Replayed;
use tables::layout::OPEN_FILES_SIZE;
use tables::parts::upto;

// As many calls as can be allowed.
const ALLOWANCE: u32 = 4294967295;

// The script on the test console, of which nothing is open and which has no prompts; the answers go to the output.
fn replayed(script: &[u8], output: &mut [u8]) -> Replayed
    ensures result { result ≡ (day script.now output.old).replayed }
    ensures output { output.new ≡ (day script.now output.old).output }
{
    let mut files = test_console::files();
    let mut contents = test_console::contents();
    let mut open_files = [0u32; OPEN_FILES_SIZE];
    let mut processes = test_console::processes();
    let policy = test_console::policy();
    replay::run::replay(
        &mut files,
        &mut contents,
        &mut open_files,
        &mut processes,
        &policy,
        b"",
        script,
        ALLOWANCE,
        output,
    )
}

fn print_named(name: &[u8], n: u64) {
    io::write_all(1, name);
    io::print_decimal(1, n);
}

fn print_end(r: Replayed) {
    print_named(b"calls=", u64::from(r.calls));
    print_named(b" next=", r.next as u64);
    print_named(b" reason=", u64::from(r.reason.number()));
    io::write_all(1, b"\n");
}

fn run(script: &[u8]) {
    let mut output = io::large_buffer();
    let r = replayed(script, &mut output);
    io::write_all(1, upto(&output, r.written));
    print_end(r);
}

fn main() {
    let mut script = io::large_buffer();
    let n = io::read_full(0, &mut script);
    run(&script[..n]);
}
