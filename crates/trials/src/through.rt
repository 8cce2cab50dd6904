// Captions through patches, and what lies in the memory afterwards.
use host::evening::play_script;
use inserter::interface::Inserter;
use patch::patch::Patch;
use patch::table::Table;
use pool::record::Record;
use std::alloc::Global;
use std::test::Fail;

// Plays a script, and says which lengths channels 0 to 7 then have.
fn played<I: Inserter>(heap: Global, inserter: &mut I, script: &[u8]) -> Result<[u32; 8], Fail> {
    let _ = play_script(heap, inserter, script)?;
    Ok([0, 1, 2, 3, 4, 5, 6, 7].map(|channel| inserter.length(channel)))
}

fn records_of(text: &[(u8, u8)]) -> [Record; 8] {
    let mut records = [Record {
        channel: 9,
        byte: 0,
    }; 8];
    for (record, (channel, byte)) in records.iter_mut().zip(text) {
        *record = Record {
            channel: *channel,
            byte: *byte,
        };
    }
    records
}

// Interleaved channels fill the pool to its last record; a caption that does not fit leaves all as it is.
#[test]
fn full_pool(rt: HostRuntime) -> Result<(), Fail> {
    let heap = rt.alloc();
    let mut records = records_of(&[]);
    let mut pool = pool::over(&mut records, &[]);
    let lengths = played(
        heap,
        &mut pool,
        b"3 ab\n0 cc\n3 d\n7 1234\n5 e\n0 fg\n3 h\n7 !\n",
    )?;
    assert_eq!(rt; lengths, [4, 0, 0, 3, 0, 1, 0, 0]);
    assert_eq!(rt; pool.free(6), 0);
    assert_eq!(rt; pool.byte_at(3, 2), Some(b'd'));
    assert_eq!(rt; pool.byte_at(0, 4), None);
    let want = records_of(&[
        (3, b'a'),
        (3, b'b'),
        (0, b'c'),
        (0, b'c'),
        (3, b'd'),
        (5, b'e'),
        (0, b'f'),
        (0, b'g'),
    ]);
    assert_eq!(rt; records, want);
    Ok(())
}

// The largest pool takes a caption of as many bytes as it has places, and then none.
#[test]
fn largest_pool(rt: HostRuntime) -> Result<(), Fail> {
    let heap = rt.alloc();
    let mut records = vec![in heap; Record {
        channel: 9,
        byte: 0
    }; 65_535]?;
    pool::may_use(&records, &[])?;
    let mut script = vec![in heap; b'-'; 65_537]?;
    script[0] = b'6';
    script[1] = b' ';
    let mut pool = pool::over(&mut records, &[]);
    assert_eq!(rt; pool.free(2), 65_535);
    let lengths = played(heap, &mut pool, &script)?;
    assert_eq!(rt; lengths, [0, 0, 0, 0, 0, 0, 65_535, 0]);
    let lengths = played(heap, &mut pool, b"0 -\n6 -\n")?;
    assert_eq!(rt; lengths, [0, 0, 0, 0, 0, 0, 65_535, 0]);
    assert_eq!(rt; pool.byte_at(6, 65_534), Some(b'-'));
    assert_eq!(rt; pool.byte_at(6, 65_535), None);
    assert_eq!(rt; pool.free(2), 0);
    Ok(())
}

// Channel k of the pile is the lower one's channel inner[outer[k]], with either make.
#[test]
fn two_deep(rt: HostRuntime) -> Result<(), Fail> {
    let heap = rt.alloc();
    let outer = Table::try_from([1, 2, 3, 4, 5, 6, 7, 0])?;
    let inner = Table::try_from([0, 2, 1, 3, 4, 5, 7, 6])?;
    let mut records = records_of(&[]);
    let mut pile = Patch::new(Patch::new(pool::over(&mut records, &[]), &inner), &outer);
    let lengths = played(heap, &mut pile, b"0 a\n1 b\n5 c\n6 d\n7 e\n")?;
    assert_eq!(rt; lengths, [1, 1, 0, 0, 0, 1, 1, 1]);
    assert_eq!(rt; pile.byte_at(6, 0), Some(b'd'));
    assert_eq!(rt;
        records,
        records_of(&[(2, b'a'), (1, b'b'), (7, b'c'), (6, b'd'), (0, b'e')])
    );
    let mut bytes = [b'.'; 16];
    let mut pile = Patch::new(Patch::new(lanes::over(&mut bytes, &[]), &inner), &outer);
    let lengths = played(heap, &mut pile, b"0 a\n1 b\n5 cc\n6 d\n7 eee\n")?;
    assert_eq!(rt; lengths, [1, 1, 0, 0, 0, 2, 1, 0]);
    assert_eq!(rt; bytes, *b"..b.a.......d.cc");
    Ok(())
}
