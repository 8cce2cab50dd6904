// Lines of a script and captions as cells.
use cell::cells::{Cell, Tag};
use cell::channel::Channel;
use script::encode::encode;
use script::lines::{BadLine, Caption, caption_of, cut_line, text_of};
use std::alloc::Global;
use std::test::Fail;

// a line, and its channel or why it is no caption
const LINES: [(&[u8], Result<u8, BadLine>); 12] = [
    (b"0 A", Ok(0)),
    (b"7  two blanks", Ok(7)),
    (b"3 8 o'clock", Ok(3)),
    (b"5 \x00\xff", Ok(5)),
    (b"8 A", Err(BadLine::Channel)),
    (b"12 A", Err(BadLine::Channel)),
    (b" 1 A", Err(BadLine::Channel)),
    (b"-1 A", Err(BadLine::Channel)),
    (b"", Err(BadLine::Channel)),
    (b"4\tA", Err(BadLine::Channel)),
    (b"4", Err(BadLine::Text)),
    (b"4 ", Err(BadLine::Text)),
];

#[test]
fn lines_of_a_script(rt: HostRuntime) {
    for (line, want) in LINES {
        let got = caption_of(line).map(|caption| u8::from(caption.channel));
        assert_eq!(rt; got, want);
    }
    assert_eq!(rt; text_of(b"3 8 o'clock"), b"8 o'clock".as_slice());
    let text = caption_of(b"3 8 o'clock").map(|caption| caption.text);
    assert_eq!(rt; text, Ok(b"8 o'clock".as_slice()));
    let (first, rest) = cut_line(b"one\n\ntwo");
    assert_eq!(rt; first, b"one".as_slice());
    let (second, rest) = cut_line(rest);
    assert_eq!(rt; second, b"".as_slice());
    let (third, rest) = cut_line(rest);
    assert_eq!(rt; third, b"two".as_slice());
    assert_eq!(rt; rest.len(), 0);
}

// how many equal bytes a caption has, and its cells after the address
const RUNS: [(usize, &[(u8, Tag)]); 7] = [
    (0, &[]),
    (1, &[(b'-', Tag::Data)]),
    (2, &[(1, Tag::Command), (b'-', Tag::Data)]),
    (127, &[(126, Tag::Command), (b'-', Tag::Data)]),
    (128, &[(127, Tag::Command), (b'-', Tag::Data)]),
    (
        129,
        &[(127, Tag::Command), (b'-', Tag::Data), (b'-', Tag::Data)],
    ),
    (
        258,
        &[
            (127, Tag::Command),
            (b'-', Tag::Data),
            (127, Tag::Command),
            (b'-', Tag::Data),
            (1, Tag::Command),
            (b'-', Tag::Data),
        ],
    ),
];

// The cells of a caption of n equal bytes.
fn run_of(heap: Global, n: usize) -> Result<Vec<Cell>, Fail> {
    let text = vec![in heap; b'-'; n]?;
    let caption = Caption {
        channel: Channel::try_from(6)?,
        text: &text,
    };
    Ok(encode(heap, caption)?)
}

#[test]
fn runs_of_equal_bytes(rt: HostRuntime) -> Result<(), Fail> {
    for (n, want) in RUNS {
        let cells = run_of(rt.alloc(), n)?;
        let (address, run) = cells.split_first().ok_or_else(|| Fail::new("no cells"))?;
        let to_six = Cell {
            byte: 0x86,
            tag: Tag::Command,
        };
        assert_eq!(rt; *address, to_six);
        assert_eq!(rt; run.len(), want.len());
        for (cell, (byte, tag)) in run.iter().zip(want) {
            let wanted = Cell {
                byte: *byte,
                tag: *tag,
            };
            assert_eq!(rt; *cell, wanted);
        }
    }
    Ok(())
}
