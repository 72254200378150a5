//! Decodes the worked logs and many random logs, and compares what it finds with what it should find.
#![tactic(auto)]

mod comparison;
mod engine;
mod random;
mod refused;
mod worked;

use anyhow::anyhow;
use comparison::Comparison;

fn run(rt: &HostRuntime) -> anyhow::Result<()> {
    let mut comparison = Comparison::new(rt);
    worked::saw_logs(&mut comparison)?;
    worked::tie_logs(&mut comparison)?;
    worked::breach_logs(&mut comparison)?;
    refused::models(&mut comparison)?;
    random::logs(&mut comparison)?;
    random::long_logs(&mut comparison)?;
    if !comparison.ends_well()? {
        return Err(anyhow!("some results are not as expected"));
    }
    Ok(())
}

fn main(rt: HostRuntime) -> anyhow::Result<()> {
    run(&rt)
}
