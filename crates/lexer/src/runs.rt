// The longest front of some bytes that are all of one kind.
ghost use Rattle.std.specs.Prelude.{◌≡◌, ◌≤◌, length};
ghost use Rattle.std.specs.List.{prefix_len};
ghost use Rattle.lexis.specs.Runs.{in_run};

use byte_class::class_of;
use lexis::bytes::Class;
use lexis::scans::Run;

fn in_run(run: Run, b: u8) -> bool
    ensures { result ≡ in_run run b }
{
    match run {
        Run::Word => matches!(class_of(b), Class::Letter | Class::Digit),
        Run::Digits => matches!(class_of(b), Class::Digit),
        Run::Comment => !matches!(class_of(b), Class::LineEnd),
    }
}

pub fn run_len(s: &[u8], run: Run) -> usize
    ensures value { result ≡ prefix_len (in_run run) s.now }
    ensures within { result ≤ length s.now }
{
    s.iter().take_while(|b| in_run(run, **b)).count()
}
