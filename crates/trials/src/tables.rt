// Which patch tables there are.
use patch::table::Table;
use refusal::Refusal;
use std::test::Fail;

// entries, and the refusal that they meet
const REFUSED: [([u8; 8], Refusal); 8] = [
    // channels 2 and 6 both stand at 5
    ([0, 1, 5, 3, 4, 2, 5, 7], Refusal::EntryTwice),
    // neighbours, and the two ends
    ([0, 1, 2, 3, 4, 5, 6, 6], Refusal::EntryTwice),
    ([7, 1, 2, 3, 4, 5, 6, 7], Refusal::EntryTwice),
    ([0; 8], Refusal::EntryTwice),
    ([8, 1, 2, 3, 4, 5, 6, 7], Refusal::EntryRange),
    ([0, 1, 2, 3, 4, 5, 6, 255], Refusal::EntryRange),
    // too high and alike: the first question decides
    ([3, 3, 2, 1, 0, 5, 6, 8], Refusal::EntryRange),
    ([9; 8], Refusal::EntryRange),
];

#[test]
fn refused_tables(rt: HostRuntime) {
    for (entries, refusal) in REFUSED {
        assert_eq!(rt; Table::try_from(entries).err(), Some(refusal));
    }
}

// The digits of a number to the base of eight.
fn octal(number: u32) -> [u8; 8] {
    let mut digits = [0; 8];
    let mut rest = number;
    for digit in digits.iter_mut() {
        *digit = (rest % 8) as u8;
        rest /= 8;
    }
    digits
}

// Of all tables whose entries are below 8, there are as many as the eight channels have orders, and each reads both ways.
#[test]
fn every_table(rt: HostRuntime) -> Result<(), Fail> {
    let tables: Vec<Table> = (0..16_777_216u32)
        .filter_map(|number| Table::try_from(octal(number)).ok())
        .collect(rt.alloc())?;
    for table in &tables {
        // each channel, which is no place in a list
        for k in 0..8u8 {
            assert_eq!(rt; table.channel(table.entry(k)), k);
        }
    }
    assert_eq!(rt; tables.len(), 40_320);
    Ok(())
}
