// A whole script, played to an inserter.
ghost use Rattle.std.specs.Prelude.{IfOk, OnOk};
ghost use Rattle.host.specs.Evening.{Noted, Evening};

use super::line::{Outcome, play_line};
use inserter::interface::Inserter;
use script::lines::cut_line;
use std::alloc::{AllocError, Global};

// Plays one line, and notes what became of it.
fn note_line<I: Inserter>(
    heap: Global,
    told: &mut Vec<Outcome>,
    inserter: &mut I,
    line: &[u8],
) -> Result<(), AllocError>
    ensures { OnOk result (Noted I.delay line.now told.old.items (I.meaning inserter.old) told.new.items (I.meaning inserter.new)) }
{
    told.push(play_line(heap, inserter, line))?;
    Ok(())
}

// Plays a script line by line to an inserter of any make, and tells what became of each line.
// Each channel then holds what it held, and after it the texts of the lines that were sent to it, in order.
pub fn play_script<I: Inserter>(
    heap: Global,
    inserter: &mut I,
    script: &[u8],
) -> Result<Vec<Outcome>, AllocError>
    ensures { IfOk result (λ v. Evening I.delay script.now (I.meaning inserter.old) v.items (I.meaning inserter.new)) }
{
    let mut told = Vec::new(heap);
    let mut rest = script;
    // by `cut_line`, since the library's `split` gives one piece more where a script ends in a line end
    while !rest.is_empty() {
        let (line, later) = cut_line(rest);
        note_line(heap, &mut told, inserter, line)?;
        rest = later;
    }
    Ok(told)
}
