// A caption as cells: its channel's address, then each run of equal bytes as a count and the byte.
ghost use Rattle.std.specs.Prelude.{◌≡◌, ◌++◌, IfOk, OnOk};
ghost use Rattle.script.specs.Encoding.{address_cell, run_cells, text_cells, caption_cells, Spells};

use super::lines::Caption;
use super::run::Run;
use cell::cells::{Cell, Tag};
use cell::channel::Channel;
use std::alloc::{AllocError, Global};

// The cell that says which channel the bytes after it are for. By its name, and not by `From`: a channel is no cell until one
// says that it is an address.
fn address_cell(channel: Channel) -> Cell
    ensures { result ≡ address_cell channel.number }
{
    Cell {
        byte: 0x80 + u8::from(channel),
        tag: Tag::Command,
    }
}

// A run, at the end of the list.
fn push_run(cells: &mut Vec<Cell>, run: Run) -> Result<(), AllocError>
    ensures { OnOk result (cells.new.items ≡ cells.old.items ++ run_cells run.times run.byte) }
{
    if run.repeats() {
        cells.push(run.count())?;
    }
    cells.push(run.byte())?;
    Ok(())
}

// A text, run by run, at the end of the list. Byte by byte, with the run at hand as a value that keeps its own bound; runs cut by
// `chunk_by` and again by `chunks` would have to be measured once more for their count.
fn push_text(cells: &mut Vec<Cell>, text: &[u8]) -> Result<(), AllocError>
    ensures { OnOk result (cells.new.items ≡ cells.old.items ++ text_cells text.now) }
{
    let Some((&first, rest)) = text.split_first() else {
        return Ok(());
    };
    let mut run = Run::of_one(first);
    for &next in rest {
        match run.joined_by(next) {
            Some(longer) => run = longer,
            None => {
                push_run(cells, run)?;
                run = Run::of_one(next);
            }
        }
    }
    push_run(cells, run)
}

// The cells of a caption. Read, they give its text on its channel, and nothing on any other.
pub fn encode(heap: Global, caption: Caption<'_>) -> Result<Vec<Cell>, AllocError>
    ensures cells { IfOk result (λ v. v.items ≡ caption_cells caption.entry.channel.number caption.entry.text.now) }
    ensures reading { IfOk result (λ v. Spells v.items caption.entry.channel.number caption.entry.text.now) }
{
    let mut cells = Vec::new(heap);
    cells.push(address_cell(caption.channel))?;
    push_text(&mut cells, caption.text)?;
    Ok(cells)
}
