// The example books, each with the report that examples/make.py worked out for it: says of each whether the program's report is the same.
#![tactic(auto)]

use std::fs;

fn main(rt: HostRuntime) -> anyhow::Result<()> {
    run(&rt)
}

// Compares them one after the other, and stops at the first that cannot be read.
fn run(rt: &HostRuntime) -> anyhow::Result<()> {
    for name in ["cab", "week", "season"] {
        compare(rt, name)?;
    }
    Ok(())
}

// Says of one book whether its report is the same.
fn compare(rt: &HostRuntime, name: &str) -> anyhow::Result<()> {
    let heap = rt.alloc();
    let input = fs::read(rt, format!(in heap; "{name}.book")?)?;
    let expected = fs::read_to_string(rt, format!(in heap; "{name}.report")?)?;
    let text = text::report(heap, input.as_slice())?;
    if text.as_str() == expected.as_str() {
        println!(rt; "{name}: the same")?;
    } else {
        println!(rt; "{name}: another report")?;
    }
    Ok(())
}
