ghost use Rattle.std.specs.Prelude.{◌≡◌, ◌+◌, ◌*◌, ◌<◌, ◌==◌};
ghost use Rattle.faults.specs.declared.fault.Layer.TheVariants.{Runs};
ghost use Rattle.faults.specs.Least.{told};
ghost use Rattle.registers.specs.Marks.{state_of};
ghost use Rattle.registers.specs.Registers.{numbers_of, wide};
ghost use Rattle.registers.specs.Steps.{bad_list};
ghost use Rattle.calls.specs.Calls.{refuse_orders};
ghost use Rattle.calls.specs.Runs.{run_lists, refuse_run};

use faults::fault::{Fault, Layer};
use faults::lengths::check_length;
use registers::file::File;
use registers::lengths::{check_count, check_keys, check_memory, check_work};
use registers::lists::Lists;
use set::checked::Set;
use sweeps::sweep::Sweep;

// The lists of the runner.
pub fn check_orders<S: Sweep>(
    set: &Set,
    file: &File,
    lists: Lists,
    regs: &[u16],
) -> Result<(), Fault>
    ensures { result ≡ told (refuse_orders (numbers_of set.now) (S.Sweep.count set.now.within) lists (state_of file.now regs.now)) }
{
    check_keys::<S>(set, Layer::Runner, 1, lists)?;
    check_memory(set, Layer::Runner, 4, file.registers(), regs.len())?;
    check_work(set, Layer::Runner, 5, 0, lists)
}

// Whether a number is the product of two others, which may be too large for a word.
fn is_product(n: usize, rows: usize, size: usize) -> bool
    requires { 0 < size }
    ensures { result ≡ (n == rows * size) }
{
    n % size == 0 && n / size == rows
}

// The memory for read words, n + 2 for each call.
fn check_reads(set: &Set, calls: usize, reads: usize) -> Result<(), Fault>
    ensures { result ≡ told (bad_list Runs 2 reads (calls * (wide (numbers_of set.now) + 1))) }
{
    if !is_product(reads, calls, set.cipher_words() + 1) {
        return Err(Fault::Length {
            list: 2,
            part: Layer::Runs,
        });
    }
    Ok(())
}

// The lists of a run.
fn check_run_lists<S: Sweep>(
    set: &Set,
    count: u32,
    calls: usize,
    got: usize,
    reads: usize,
    regs: usize,
    lists: Lists,
) -> Result<(), Fault>
    ensures { result ≡ told (run_lists (numbers_of set.now) (S.Sweep.count set.now.within) count calls got reads regs lists) }
{
    check_length(Layer::Runs, 1, got, calls)?;
    check_reads(set, calls, reads)?;
    check_keys::<S>(set, Layer::Runs, 3, lists)?;
    check_memory(set, Layer::Runs, 6, count, regs)?;
    check_work(set, Layer::Runs, 7, 1, lists)
}

// The lists of a run, and R.
pub fn check_run<S: Sweep>(
    set: &Set,
    count: u32,
    calls: usize,
    got: usize,
    reads: usize,
    regs: usize,
    lists: Lists,
) -> Result<(), Fault>
    ensures { result ≡ told (refuse_run (numbers_of set.now) (S.Sweep.count set.now.within) count calls got reads regs lists) }
{
    check_run_lists::<S>(set, count, calls, got, reads, regs, lists)?;
    check_count(count)
}
