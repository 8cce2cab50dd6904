// Plays a table of looks, drops and questions to lanes, to a pool and through two patches to both, and prints each answer.
#![tactic(auto)]

mod play;
mod three;

use anyhow::anyhow;
use cell::cells::{Cell, Tag};
use patch::patch::Patch;
use patch::table::Table;
use pool::record::Record;
use std::io::Read;
use three::play_three;

// the patch that is looked at, and the one below it
const OUTER: [u8; 8] = [3, 0, 7, 1, 6, 2, 5, 4];

const INNER: [u8; 8] = [5, 2, 0, 4, 1, 7, 3, 6];

// what each inserter offers
const OFFERS: [(u8, Tag); 40] = [
    (0x41, Tag::Data),
    (0x03, Tag::Command),
    (0x85, Tag::Command),
    (0x7f, Tag::Data),
    (0x79, Tag::Command),
    (0x42, Tag::Data),
    (0xf2, Tag::Command),
    (0x21, Tag::Command),
    (0xf0, Tag::Data),
    (0x77, Tag::Data),
    (0xf0, Tag::Command),
    (0xf3, Tag::Data),
    (0x4d, Tag::Data),
    (0x4d, Tag::Command),
    (0xc7, Tag::Command),
    (0x20, Tag::Data),
    (0x15, Tag::Data),
    (0x0f, Tag::Command),
    (0x89, Tag::Data),
    (0xc6, Tag::Command),
    (0xda, Tag::Data),
    (0xe3, Tag::Command),
    (0x44, Tag::Command),
    (0x31, Tag::Data),
    (0xfd, Tag::Data),
    (0xdf, Tag::Command),
    (0x9a, Tag::Data),
    (0xc5, Tag::Command),
    (0xd0, Tag::Command),
    (0xac, Tag::Command),
    (0x0e, Tag::Command),
    (0x53, Tag::Command),
    (0xa7, Tag::Command),
    (0x35, Tag::Command),
    (0x6c, Tag::Command),
    (0x88, Tag::Data),
    (0x20, Tag::Data),
    (0xf7, Tag::Data),
    (0x22, Tag::Data),
    (0x4d, Tag::Data),
];

fn main(rt: HostRuntime) -> anyhow::Result<()> {
    run(&rt)
}

fn run(rt: &HostRuntime) -> anyhow::Result<()> {
    let outer = Table::try_from(OUTER)?;
    let inner = Table::try_from(INNER)?;
    let offers = OFFERS.map(|(byte, tag)| Cell { byte, tag });
    rehearse(rt, &offers, &outer, &inner)
}

fn rehearse(
    rt: &HostRuntime,
    offers: &[Cell; 40],
    outer: &Table,
    inner: &Table,
) -> anyhow::Result<()> {
    let mut table = Vec::new(rt.alloc());
    let mut input = rt.stdin();
    let _ = input.read_to_end(&mut table)?;
    let mut small = [1u8; 8];
    let mut middle = [2u8; 32];
    let mut large = [3u8; 1600];
    let mut records = [Record {
        channel: 9,
        byte: 4,
    }; 24];
    let mut deep = [Record {
        channel: 9,
        byte: 5,
    }; 300];
    let mut lower = [6u8; 400];
    let mut a = lanes::over(&mut small, offers);
    let mut b = lanes::over(&mut middle, offers);
    let mut c = lanes::over(&mut large, offers);
    let rest = play_three(rt, &mut a, &mut b, &mut c, b'a', &table)?;
    let mut d = pool::over(&mut records, offers);
    let mut e = Patch::new(Patch::new(pool::over(&mut deep, offers), inner), outer);
    let mut f = Patch::new(Patch::new(lanes::over(&mut lower, offers), inner), outer);
    let rest = play_three(rt, &mut d, &mut e, &mut f, b'd', rest)?;
    if !rest.is_empty() {
        return Err(anyhow!("the table has a line that is none"));
    }
    println!(rt; "{small:?}")?;
    println!(rt; "{middle:?}")?;
    println!(rt; "{records:?}")?;
    let first = &deep[0..12];
    println!(rt; "{first:?}")?;
    println!(rt; "{lower:?}")?;
    Ok(())
}
