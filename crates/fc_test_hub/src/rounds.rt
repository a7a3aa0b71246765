// Rounds in memory, and those that a file keeps.
ghost use Rattle.std.specs.Prelude.{IfOk, IsTrue, ◌<◌, ◌≤◌, ◌+◌};
ghost use Rattle.fc_hub.specs.Rounds.{rise_above};

use crate::wanted::equal;
use fc_base::Trouble;
use fc_hub::{FileRounds, MemRounds, Rounds, SureRounds};
use std::alloc::Global;
use std::test::Fail;
use std::{env, fs, process};

// The next number is this one.
fn gives<R: Rounds>(rounds: &mut R, wanted: u32) -> Result<(), Fail>
    requires { (R.given rounds.old).count < 1000 }
    ensures { (R.given rounds.new).count ≤ (R.given rounds.old).count + 1 }
{
    equal(&rounds.next()?, &wanted)
}

#[test]
fn sure_rounds_count_upwards() -> Result<(), Fail> {
    let mut rounds = SureRounds::new(5);
    gives(&mut rounds, 5)?;
    gives(&mut rounds, 6)?;
    let mut last = SureRounds::new(u32::MAX - 1);
    gives(&mut last, u32::MAX - 1)?;
    gives(&mut last, u32::MAX)?;
    gives(&mut last, u32::MAX)
}

// Three numbers that rise.
fn three(alloc: Global) -> Result<Vec<u32>, Fail>
    ensures { IfOk result (λ numbers. IsTrue (rise_above 0 numbers.items)) }
{
    let mut numbers = Vec::new(alloc);
    numbers.push(1u32)?;
    numbers.push(7)?;
    numbers.push(u32::MAX)?;
    Ok(numbers)
}

#[test]
fn rounds_in_memory_fail_where_that_is_listed_and_past_the_last(
    rt: HostRuntime,
) -> Result<(), Fail> {
    let alloc = rt.alloc();
    let mut failing = Vec::new(alloc);
    failing.push(2)?;
    let mut rounds = MemRounds::new(three(alloc)?, failing);
    assert_eq!(rt; rounds.next(), Ok(1));
    assert_eq!(rt; rounds.next(), Err(Trouble::Failed));
    assert_eq!(rt; rounds.next(), Ok(7));
    assert_eq!(rt; rounds.next(), Ok(u32::MAX));
    assert_eq!(rt; rounds.next(), Err(Trouble::Failed));
    assert_eq!(rt; rounds.next(), Err(Trouble::Failed));
    Ok(())
}

// A path of this name at which nothing lies, in the directory for what is only for a while.
fn free_path(rt: &HostRuntime, name: &str) -> Result<String, Fail> {
    let directory = env::temp_dir(rt)?;
    let id = process::id(rt.process());
    Ok(format!(in rt.alloc(); "{}/forces-{id}-{name}", directory.as_str())?)
}

// The next number of the file, as another process would take it.
fn next_in(rt: &HostRuntime, path: &str) -> Result<Result<u32, Trouble>, Fail> {
    let mut rounds = FileRounds::at(rt.alloc(), rt, path)?;
    Ok(rounds.next())
}

// Takes away what lies at a path, and beside it.
fn clear(rt: &HostRuntime, path: &str) -> Result<(), Fail> {
    for end in ["", ".next", ".lock"] {
        let path = format!(in rt.alloc(); "{path}{end}")?;
        fs::remove_file(rt, path.as_str())?;
    }
    Ok(())
}

// Another process would take this number next.
fn gives_another(rt: &HostRuntime, path: &str, wanted: u32) -> Result<(), Fail> {
    equal(&next_in(rt, path)??, &wanted)
}

// The numbers go on whoever takes them.
fn goes_on<R: Rounds>(rt: &HostRuntime, path: &str, rounds: &mut R) -> Result<(), Fail>
    requires { (R.given rounds.old).count < 100 }
    ensures { (R.given rounds.new).count ≤ (R.given rounds.old).count + 3 }
{
    gives(rounds, 1)?;
    gives(rounds, 2)?;
    gives_another(rt, path, 3)?;
    gives(rounds, 4)
}

// What a kill has left beside it is no number that was given.
fn passes_over_what_lies_beside(rt: &HostRuntime, path: &str, text: &str) -> Result<(), Fail> {
    let beside = format!(in rt.alloc(); "{path}.next")?;
    fs::write(rt, beside.as_str(), text)?;
    Ok(())
}

// A number that was put in its place, without its line feed.
fn goes_on_from<R: Rounds>(rt: &HostRuntime, path: &str, rounds: &mut R) -> Result<(), Fail>
    requires { (R.given rounds.old).count < 100 }
    ensures { (R.given rounds.new).count ≤ (R.given rounds.old).count + 1 }
{
    fs::write(rt, path, "2")?;
    gives(rounds, 5)
}

// The last number stays.
fn stays_at_the_last<R: Rounds>(rt: &HostRuntime, path: &str, rounds: &mut R) -> Result<(), Fail>
    requires { (R.given rounds.old).count < 100 }
{
    fs::write(rt, path, "4294967294\n")?;
    gives(rounds, u32::MAX)?;
    gives(rounds, u32::MAX)?;
    gives_another(rt, path, u32::MAX)
}

#[test]
fn a_file_keeps_the_number_of_the_last_round(rt: HostRuntime) -> Result<(), Fail> {
    let path = free_path(&rt, "rounds")?;
    let path = path.as_str();
    let mut rounds = FileRounds::at(rt.alloc(), &rt, path)?;
    goes_on(&rt, path, &mut rounds)?;
    passes_over_what_lies_beside(&rt, path, "77")?;
    gives_another(&rt, path, 5)?;
    goes_on_from(&rt, path, &mut rounds)?;
    stays_at_the_last(&rt, path, &mut rounds)?;
    passes_over_what_lies_beside(&rt, path, "")?;
    clear(&rt, path)
}

// What such a file holds stays, and each call fails.
fn fails_and_stays(rt: &HostRuntime, path: &str, text: &str) -> Result<(), Fail> {
    fs::write(rt, path, text)?;
    equal(&next_in(rt, path)?, &Err(Trouble::Failed))?;
    equal(&fs::read_to_string(rt, path)?.as_str(), &text)
}

// A file of two names is a fault, and one of one name again goes on.
fn has_one_name(rt: &HostRuntime, path: &str) -> Result<(), Fail> {
    let other = format!(in rt.alloc(); "{path}.other")?;
    fs::write(rt, path, "3\n")?;
    fs::hard_link(rt, path, other.as_str())?;
    equal(&next_in(rt, path)?, &Err(Trouble::Failed))?;
    fs::remove_file(rt, other.as_str())?;
    gives_another(rt, path, 4)
}

#[test]
fn a_file_that_holds_no_number_is_a_fault(rt: HostRuntime) -> Result<(), Fail> {
    let path = free_path(&rt, "none")?;
    let path = path.as_str();
    for text in [
        "",
        "\n",
        "x\n",
        "-1\n",
        "+1\n",
        " 1\n",
        "1\n\n",
        "1 \n",
        "4294967296\n",
        "01\n",
        "00\n",
        "00000000000000001\n",
    ] {
        fails_and_stays(&rt, path, text)?;
    }
    let below = format!(in rt.alloc(); "{path}/below")?;
    equal(&next_in(&rt, below.as_str())?, &Err(Trouble::Failed))?;
    has_one_name(&rt, path)?;
    passes_over_what_lies_beside(&rt, path, "")?;
    clear(&rt, path)
}
