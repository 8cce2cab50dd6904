// Which memory lanes and pools are made of, and what a refusal says.
use cell::cells::{Cell, Tag};
use handshake::shaken::Handshake;
use inserter::interface::Inserter;
use lanes::{LaneBytes, Lanes};
use patch::patch::Patch;
use pool::record::Record;
use pool::{Pool, PoolRecords};
use refusal::Refusal;
use std::alloc::Global;
use std::test::Fail;

// how many places the memory has, how many cells are offered, and what is answered when a make is to use them
type Row = (usize, usize, Result<(), Refusal>);

const LANES: [Row; 15] = [
    (0, 0, Err(Refusal::Memory)),
    (1, 0, Err(Refusal::Memory)),
    (7, 0, Err(Refusal::Memory)),
    (8, 0, Ok(())),
    (9, 0, Err(Refusal::Memory)),
    (12, 0, Err(Refusal::Memory)),
    (16, 3, Ok(())),
    (8 * 4096, 65_535, Ok(())),
    (8 * 4096, 65_536, Err(Refusal::Memory)),
    (8 * 65_535, 0, Ok(())),
    (8 * 65_535, 65_535, Ok(())),
    (8 * 65_535 + 1, 0, Err(Refusal::Memory)),
    (8 * 65_535 + 7, 0, Err(Refusal::Memory)),
    (8 * 65_536, 0, Err(Refusal::Memory)),
    (0, 65_536, Err(Refusal::Memory)),
];

const POOLS: [Row; 7] = [
    (0, 0, Err(Refusal::Memory)),
    (1, 0, Ok(())),
    (9, 65_535, Ok(())),
    (9, 65_536, Err(Refusal::Memory)),
    (65_535, 65_535, Ok(())),
    (65_536, 0, Err(Refusal::Memory)),
    (8 * 65_535, 0, Err(Refusal::Memory)),
];

// Asks a make's question of each row, over memory of such items.
fn ask<T: Copy + Drop, F: Fn(&[T], &[Cell]) -> Result<(), Refusal>>(
    heap: Global,
    rows: &[Row],
    item: T,
    may_use: F,
) -> Result<(), Fail>
    requires { F.IsAlwaysCallable may_use }
{
    let cell = Cell {
        byte: 0,
        tag: Tag::Data,
    };
    for (places, offers, want) in rows {
        let memory = vec![in heap; item; *places]?;
        let cells = vec![in heap; cell; *offers]?;
        if may_use(&memory, &cells) != *want {
            return Err(Fail::new("a row is answered otherwise"));
        }
    }
    Ok(())
}

#[test]
fn memory_and_offers(rt: HostRuntime) -> Result<(), Fail> {
    let record = Record {
        channel: 0,
        byte: 0,
    };
    ask(rt.alloc(), &LANES, 0u8, lanes::may_use)?;
    ask(rt.alloc(), &POOLS, record, pool::may_use)
}

// The constants of the interface, which the contracts speak of through `named_delay`. Those of lanes and a pool are proved too.
#[test]
fn delays(rt: HostRuntime) {
    assert_eq!(rt; Lanes::DELAY, 0);
    assert_eq!(rt; Pool::DELAY, 2);
    assert_eq!(rt; Patch::<Pool>::DELAY, 2);
    assert_eq!(rt; Handshake::<LaneBytes>::DELAY, 0);
    assert_eq!(rt; Handshake::<PoolRecords>::DELAY, 2);
}

// what each refusal says first: its number, and what is not so
const WORDS: [(Refusal, &str); 15] = [
    (Refusal::Address, "refusal 1: no register has this address"),
    (
        Refusal::Access,
        "refusal 2: this register cannot be accessed so in this mode",
    ),
    (
        Refusal::Mode,
        "refusal 3: the port has no such mode: it has 000, 001, 011, 110 and 111",
    ),
    (
        Refusal::ControlBits,
        "refusal 4: bits 0, 1, 3, 6 and 7 of DCR have to be written as 0",
    ),
    (
        Refusal::Stage,
        "refusal 5: ECR and DCR are written only while no cell is on its way",
    ),
    (
        Refusal::Request,
        "refusal 6: no request for this DMA cycle stands",
    ),
    (Refusal::Channel, "refusal 7: turns are for channels 0 to 7"),
    (Refusal::TurnTaken, "refusal 8: the channel's turn is out"),
    (
        Refusal::NoTurn,
        "refusal 9: the channel's turn is not out at this port",
    ),
    (
        Refusal::Repeats,
        "refusal 10: a send repeats its byte 1 to 128 times",
    ),
    (
        Refusal::NotSending,
        "refusal 11: sends want mode 011 with direction 0",
    ),
    (
        Refusal::NoRoom,
        "refusal 12: the queue has too few free places for the send",
    ),
    (
        Refusal::Memory,
        "refusal 13: each lane or pool has 1 to 65,535 places",
    ),
    (
        Refusal::EntryRange,
        "refusal 14: an entry of the patch table is 8 or more",
    ),
    (
        Refusal::EntryTwice,
        "refusal 15: two entries of the patch table are alike",
    ),
];

#[test]
fn refusals_in_words(rt: HostRuntime) -> Result<(), Fail> {
    for (refusal, words) in WORDS {
        let told = refusal.to_string(rt.alloc())?;
        assert!(rt; told.as_str().starts_with(words));
    }
    Ok(())
}
