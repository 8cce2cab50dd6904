// Reads a script of captions from standard input and plays it to an inserter of the chosen make, through a patch or not.
#![tactic(auto)]

mod report;

use anyhow::anyhow;
use host::evening::play_script;
use inserter::interface::Inserter;
use options::said::Said;
use options::{Make, Options, Setup, USAGE, Wrong};
use patch::patch::Patch;
use patch::table::Table;
use pool::record::Record;
use refusal::Refusal;
use report::{print_channels, print_lines, print_setup};
use std::env;
use std::io::Read;

fn main(rt: HostRuntime) -> anyhow::Result<()> {
    run(&rt)
}

fn run(rt: &HostRuntime) -> anyhow::Result<()> {
    let asked = env::args(rt)?
        .skip(1)
        .try_fold(Said::nothing(), |said, word| said.heard(word.as_str()))
        .and_then(|said| said.options());
    match asked {
        Ok(Options::Help) => {
            print!(rt; "{USAGE}")?;
            Ok(())
        }
        Ok(Options::Play(setup)) => play(rt, setup),
        Err(wrong) => not_understood(rt, wrong),
    }
}

fn not_understood(rt: &HostRuntime, wrong: Wrong) -> anyhow::Result<()> {
    println!(rt; "bad arguments: {wrong}")?;
    Err(anyhow!("bad arguments: try --help"))
}

// The table is asked for before anything is read or made: one that is refused carries no byte.
fn play(rt: &HostRuntime, setup: Setup) -> anyhow::Result<()> {
    let table = setup.patch.map(|entries| Table::try_from(entries));
    match table.transpose() {
        Ok(table) => play_through(rt, setup, table),
        Err(refusal) => refused(rt, refusal),
    }
}

fn refused(rt: &HostRuntime, refusal: Refusal) -> anyhow::Result<()> {
    println!(rt; "{refusal}")?;
    Err(anyhow!("nothing was sent"))
}

// The makes differ in memory, question and making, and what is the same for both is `patched`.
fn play_through(rt: &HostRuntime, setup: Setup, table: Option<Table>) -> anyhow::Result<()> {
    let heap = rt.alloc();
    let mut script = Vec::new(heap);
    let mut input = rt.stdin();
    let _ = input.read_to_end(&mut script)?;
    match setup.make {
        Make::Lanes => {
            let mut memory = vec![in heap; 0u8; 8 * setup.places as usize]?;
            match lanes::may_use(&memory, &[]) {
                Ok(()) => patched(rt, setup, lanes::over(&mut memory, &[]), table, &script),
                Err(refusal) => refused(rt, refusal),
            }
        }
        Make::Pool => {
            let mut memory = vec![in heap; Record {
                channel: 0,
                byte: 0
            }; setup.places as usize]?;
            match pool::may_use(&memory, &[]) {
                Ok(()) => patched(rt, setup, pool::over(&mut memory, &[]), table, &script),
                Err(refusal) => refused(rt, refusal),
            }
        }
    }
}

// Prints what is played to, and plays the script through the table, where there is one.
fn patched<I: Inserter + Drop>(
    rt: &HostRuntime,
    setup: Setup,
    inserter: I,
    table: Option<Table>,
    script: &[u8],
) -> anyhow::Result<()> {
    print_setup(rt, setup)?;
    match table {
        None => perform(rt, inserter, script),
        Some(table) => perform(rt, Patch::new(inserter, &table), script),
    }
}

// Plays the script to an inserter of any make, and prints what became of it.
fn perform<I: Inserter + Drop>(
    rt: &HostRuntime,
    mut inserter: I,
    script: &[u8],
) -> anyhow::Result<()> {
    let told = play_script(rt.alloc(), &mut inserter, script)?;
    print_lines(rt, &told)?;
    print_channels(rt, &inserter)
}
